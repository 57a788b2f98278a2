//! The rows at which rectangles begin and end.
ghost use Rattle.std.specs.Prelude.{◌≡◌, ℤ, ◌≤ℤ◌, IfOk, All, AllPairs, filter};
ghost use Rattle.std.specs.List.{flat_map};
ghost use Rattle.finite_sets.specs.Lists.{In};
ghost use Rattle.geo_core.specs.Areas.{has_square};
ghost use Rattle.interact.specs.steps.Edges.{edges_of, gain_of, IsOf64Bits, AreEdges, sides_of};

use geo_core::Rect;
use std::alloc::{AllocError, Global};

/// At the row a rectangle begins, or has ended, in the columns from `from` on and before `to`.
#[derive(Clone, Copy, Debug, PartialEq, Eq)]
pub struct Edge {
    pub row: i64,
    pub from: i64,
    pub to: i64,
    pub begins: bool,
}

impl Edge {
    /// How many rectangles more cover the columns from the row on.
    pub fn gain(&self) -> i64
        ensures { result ≡ gain_of self.now }
    {
        if self.begins { 1 } else { -1 }
    }
}

/// The edges of the rectangles that have squares, row by row.
pub fn edges(alloc: Global, rects: &[Rect]) -> Result<Vec<Edge>, AllocError>
    ensures { IfOk result (λ found. AreEdges rects.now found.items) }
{
    let mut found = both_edges(alloc, rects)?;
    found.sort_unstable_by_key(|edge| edge.row);
    Ok(found)
}

/// The edges of the rectangles that have squares, the two of one behind those of another.
fn both_edges(alloc: Global, rects: &[Rect]) -> Result<Vec<Edge>, AllocError>
    ensures edges { IfOk result (λ found. found.items ≡ flat_map edges_of (filter has_square rects.now)) }
    ensures fit { IfOk result (λ found. All IsOf64Bits found.items) }
{
    let mut found = Vec::new(alloc);
    for rect in rects {
        if rect.has_square() {
            found.push(Edge {
                row: rect.ylo,
                from: rect.xlo,
                to: rect.xhi,
                begins: true,
            })?;
            found.push(Edge {
                row: rect.yhi,
                from: rect.xlo,
                to: rect.xhi,
                begins: false,
            })?;
        }
    }
    Ok(found)
}

/// The columns of the sides of rectangles that begin, in order, each once.
pub fn sides(alloc: Global, edges: &[Edge]) -> Result<Vec<i64>, AllocError>
    ensures all { IfOk result (λ found. (x : ℤ) → In x (sides_of edges.now) → In x found.items) }
    ensures ordered { IfOk result (λ found. AllPairs ◌≤ℤ◌ found.items) }
{
    let mut found = all_sides(alloc, edges)?;
    found.sort_unstable();
    found.dedup();
    Ok(found)
}

/// The columns of the sides of rectangles that begin.
fn all_sides(alloc: Global, edges: &[Edge]) -> Result<Vec<i64>, AllocError>
    ensures { IfOk result (λ found. found.items ≡ sides_of edges.now) }
{
    let mut found = Vec::new(alloc);
    for edge in edges {
        if edge.begins {
            found.push(edge.from)?;
            found.push(edge.to)?;
        }
    }
    Ok(found)
}
