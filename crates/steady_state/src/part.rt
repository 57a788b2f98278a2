//! What is worked out at once in a step.

use crate::kinds::PathKind;
use switch_net::Level;

/// A part of a network, such as a vicinity: the states before the step, and the nodes of the part.
#[derive(Clone, Copy)]
pub(crate) struct Part<'a> {
    pub state: &'a [Level],
    pub order: &'a [u32],
}

/// A search for the strongest paths of a kind to the nodes of a part. Paths that are weaker at a
/// node than its floor do not count, where there are floors.
#[derive(Clone, Copy)]
pub(crate) struct Pass<'a> {
    pub kind: PathKind,
    pub part: Part<'a>,
    pub floor: Option<&'a [u8]>,
}
