//! The names of the values of an arena.

/// The name of a value in an arena. It stays while the value is there; afterwards it may name another value.
#[derive(Clone, Copy, Debug, PartialEq, Eq)]
pub struct Id(pub u32);
