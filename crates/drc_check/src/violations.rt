//! Strips of squares that violate a rule.

use geo_core::Rect;

/// A strip of squares that violate the rule of this number, from 1, on the plane of the rule's first list.
#[derive(Clone, Copy, Debug, PartialEq, Eq)]
pub struct Violation {
    pub rule: u32,
    pub plane: u8,
    pub area: Rect,
}
