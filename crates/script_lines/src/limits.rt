//! The limits of the numbers on a line.

/// The least number that a line may have: the least of 32 bits with sign.
pub const LEAST_NUMBER: i64 = -2_147_483_648;

/// The greatest number that a line may have: the greatest of 32 bits with sign.
pub const GREATEST_NUMBER: i64 = 2_147_483_647;

/// The greatest number of rows, and of tiles in each of them, that a line may ask to have made.
pub const MOST_GENERATED: i64 = 500;
