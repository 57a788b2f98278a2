//! Rectangles of tables.
use geo_core::Rect;
use std::alloc::{AllocError, Global};

/// The bounds `xlo ylo xhi yhi` of a rectangle in a table.
pub type Bounds = [i64; 4];

pub fn rect(bounds: Bounds) -> Rect {
    let [xlo, ylo, xhi, yhi] = bounds;
    Rect { xlo, ylo, xhi, yhi }
}

pub fn rects(alloc: Global, table: &[Bounds]) -> Result<Vec<Rect>, AllocError> {
    let mut found = Vec::with_capacity(alloc, table.len())?;
    for bounds in table {
        found.push(rect(*bounds))?;
    }
    Ok(found)
}

/// Whether they are the rectangles of a table, in its order.
pub fn are_listed(alloc: Global, found: &[Rect], table: &[Bounds]) -> Result<bool, AllocError> {
    Ok(rects(alloc, table)?.as_slice() == found)
}
