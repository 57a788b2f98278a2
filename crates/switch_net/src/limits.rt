//! How large a network may be.

/// The most nodes of a network.
pub const MOST_NODES: u32 = 1 << 20;

/// The most switches of a network.
pub const MOST_SWITCHES: usize = 1 << 20;

/// The largest size of a node. The least is 1.
pub const LARGEST_SIZE: u8 = 3;
