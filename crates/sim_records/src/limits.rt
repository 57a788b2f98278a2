//! The limit of this crate. Clauses read it by its name.

/// How many switches a sim file may have.
pub const MOST_SWITCHES: usize = 1 << 20;

/// How many attofarads a unit of a sim file's capacitances has.
pub const ATTOFARADS_IN_A_UNIT: i128 = 1000;
