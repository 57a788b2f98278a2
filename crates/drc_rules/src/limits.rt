//! The limits of files of rules. Clauses read them by their names.

/// The rules that a file may have.
pub const MOST_RULES: usize = 64;

/// The greatest distance of a rule.
pub const LARGEST_DISTANCE: i64 = 64;
