//! The limits of a budget.

/// The most steps of a phase where the words do not say.
pub const DEFAULT_BUDGET: u32 = 1000;

/// The greatest budget that words may ask for.
pub const GREATEST_BUDGET: u32 = 1_000_000;
