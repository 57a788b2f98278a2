//! How far sets of squares go, and how far their squares may reach.

/// No bound of a rectangle that is grown is past this in absolute value, in lambda.
pub const SET_EDGE: i64 = 1 << 27;

/// No rule looks farther than this from a square, in lambda.
pub const MOST_REACH: i64 = 64;
