//! The limits of this crate. Clauses read them by their names.

/// What sim records, or the network of sim records, may have too many of.
#[derive(Clone, Copy, Debug, PartialEq, Eq)]
pub enum SimLimit {
    Nodes,
    Switches,
}

/// The greatest number of bytes of a name in a sim text.
pub const LONGEST_SIM_NAME: usize = 65_535;

/// How far capacitances go: they are below this in absolute value, in thousands of attofarads.
pub const CAP_EDGE: i128 = 1 << 120;

/// The greatest number of bytes of a sim text that is written: 64 MiB.
pub const LONGEST_TEXT: usize = 1 << 26;
