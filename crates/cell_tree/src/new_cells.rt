//! Cells that come with their uses.

use crate::use_tables::UseBody;
use geo_core::Rect;

/// A cell that is to come: the box of its own material and labels, and its uses with their ids, in order.
#[derive(Debug, Drop)]
pub struct NewCell {
    pub own: Option<Rect>,
    pub uses: Vec<(Vec<u8>, UseBody)>,
}
