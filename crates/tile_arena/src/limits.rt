//! How much an arena holds.

/// How many values a block has room for.
pub const BLOCK_SIZE: usize = 256;

/// How many values an arena has at most.
pub const MOST_VALUES: u32 = 1 << 31;
