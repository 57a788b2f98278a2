//! The strips of what rectangles cover.
ghost use Rattle.std.specs.Prelude.{◌≡◌, IfOk, map, IsPermutation, IsSorted};
ghost use Rattle.geo_core.specs.declared.squares.Square.{Square as OneSquare};
ghost use Rattle.geo_strips.specs.Bars.{strip_of, rect_of, strip_cmp, AreStripsOf};
ghost use Rattle.geo_core.specs.Strips.{IsStrips, IsInUnion, StripsAreUnique};

use crate::bars::{Bar, join, sorted};
use crate::sweeping::runs;
use geo_core::Rect;
use std::alloc::{AllocError, Global};

/// A rectangle in the order of strips.
#[derive(Clone, Copy, Debug, PartialEq, Eq, PartialOrd, Ord)]
struct Strip {
    ylo: i64,
    xlo: i64,
    xhi: i64,
    yhi: i64,
}

/// Any set of squares: what the law of strips is said of.
pub trait SquareSet {
    ghost set: { OneSquare → Type 0 };
}

/// A set has one list of strips. It does nothing.
pub fn strips_are_unique<S: SquareSet>()
    ensures { StripsAreUnique S.set }
{}

/// The strips of the squares that the rectangles cover: the maximal horizontal strips, by `ylo` and then
/// `xlo`. The rectangles may overlap, and one with no square adds nothing.
pub fn strips(alloc: Global, rects: &[Rect]) -> Result<Vec<Rect>, AllocError>
    ensures { IfOk result (λ found. IsStrips (IsInUnion rects.now) found.items) }
{
    let runs = runs(alloc, rects)?;
    strips_of_runs(alloc, runs)
}

/// The strips of the set whose runs the bars are: of the columns that each is in and the rows from its first to its last.
pub fn strips_of_runs(alloc: Global, runs: Vec<Bar>) -> Result<Vec<Rect>, AllocError>
    ensures { IfOk result (λ found. AreStripsOf runs.items found.items) }
{
    let upright = sorted(runs);
    let columns = join(alloc, upright.as_slice())?;
    let ordered = in_order(strips_of(alloc, columns.as_slice())?);
    Ok(rects_of(alloc, ordered.as_slice())?)
}

/// Columns as strips.
fn strips_of(alloc: Global, columns: &[Bar]) -> Result<Vec<Strip>, AllocError>
    ensures { IfOk result (λ found. found.items ≡ map strip_of columns.now) }
{
    columns
        .iter()
        .map(|column| Strip {
            ylo: column.from,
            xlo: column.low,
            xhi: column.high,
            yhi: column.to,
        })
        .collect(alloc)
}

/// Strips in order.
fn in_order(strips: Vec<Strip>) -> Vec<Strip>
    ensures moved { IsPermutation strips.items result.items }
    ensures sorted { IsSorted strip_cmp result.items }
{
    let mut found = strips;
    found.sort_unstable();
    found
}

/// Strips as rectangles.
fn rects_of(alloc: Global, strips: &[Strip]) -> Result<Vec<Rect>, AllocError>
    ensures { IfOk result (λ found. found.items ≡ map rect_of strips.now) }
{
    strips
        .iter()
        .map(|strip| Rect {
            xlo: strip.xlo,
            ylo: strip.ylo,
            xhi: strip.xhi,
            yhi: strip.yhi,
        })
        .collect(alloc)
}
