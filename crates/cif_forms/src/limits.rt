//! The numbers that a word stands for.

/// The greatest number below those of 32 bits with sign. It stands for itself and for all below it.
pub const LOWEST: i64 = -2147483649;

/// The least number above those of 32 bits with sign. It stands for itself and for all above it.
pub const HIGHEST: i64 = 2147483648;
