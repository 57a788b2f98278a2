//! How much a tree of records may have. Clauses read the limits by their names.

/// What a tree of records may have too many of.
#[derive(Clone, Copy, Debug, PartialEq, Eq)]
pub enum CircuitLimit {
    /// Cells in a chain of uses.
    Depth,
    /// Elements below the root, itself counted.
    Elements,
    /// Records of nodes of all elements.
    Nodes,
    /// Bytes of the full names of all nodes.
    Names,
    /// Records of merges of all elements.
    Merges,
}

/// How many cells a chain of uses may have, the root among them.
pub const LONGEST_CHAIN: usize = 64;

/// How many elements a tree may have, its root among them.
pub const MOST_FLAT_ELEMENTS: usize = 1_000_000;

/// How many records of nodes all elements may have together.
pub const MOST_NODES: usize = 1 << 20;

/// How many bytes the full names of all nodes may have, each name once.
pub const MOST_NAME_BYTES: usize = 1 << 25;

/// How many records of merges all elements may have together.
pub const MOST_MERGES: usize = 1 << 26;
