//! What rows hold, as rectangles.
ghost use Rattle.std.specs.Prelude.{◌≡◌, ◌+◌, ◌<◌, ◌≤◌, ◌≤ℤ◌, ◌<ℤ◌, ◌++◌, pos, length, map, slice_index_or, All, [], IfOk, OnOk, IfSome, IfNone, MatchOption};
ghost use Rattle.geo_core.specs.Planes.{IsBox};
ghost use Rattle.geo_core.specs.Strips.{IsStrips};
ghost use Rattle.geo_core.specs.declared.squares.Square.{Square as OneSquare};
ghost use Rattle.run_plane.specs.steps.Listings.{no_row, piece_of, AreBetween, rects_with, IsInPieces, AgreeOnSquares, parts_in, AreTilesFrom, IsRowBox};
ghost use Rattle.run_plane.specs.Rows.{edge, number_at, AreRuns, AreRising, AreRows};

use crate::rows::{Row, rows_up_to};
use crate::runs::Run;
use geo_core::{Piece, Rect};
use geo_strips::strips;
use std::alloc::{AllocError, Global};

/// What the rows hold from the height `low` on and below `high`, as pieces that lie apart.
pub fn pieces_between(
    alloc: Global,
    rows: &[Row],
    low: i64,
    high: i64,
) -> Result<Vec<Piece>, AllocError>
    requires rising { AreRising edge rows.now }
    requires from { edge ≤ℤ low }
    requires in_order { low <ℤ high }
    ensures { IfOk result (λ pieces. AreBetween rows.now low high pieces.items) }
{
    let first = rows_up_to(rows, low).saturating_sub(1);
    let last = rows_up_to(rows, high - 1);
    let mut pieces = Vec::new(alloc);
    for index in first..last {
        let row = &rows[index];
        let top = top_of(rows, index, high);
        push_runs(
            &mut pieces,
            row.runs.items(),
            row.ylo.max(low),
            top.min(high),
        )?;
    }
    Ok(pieces)
}

/// Where the row after this one begins, and `high` after the last.
fn top_of(rows: &[Row], index: usize, high: i64) -> i64
    requires { index < length rows.now }
    ensures next { index + 1 < length rows.now → result ≡ (slice_index_or rows.now (index + 1) no_row).ylo }
    ensures last { length rows.now ≤ index + 1 → result ≡ high }
{
    match rows.get(index + 1) {
        Some(next) => next.ylo,
        None => high,
    }
}

/// Adds the runs as pieces of these heights.
fn push_runs(pieces: &mut Vec<Piece>, runs: &[Run], ylo: i64, yhi: i64) -> Result<(), AllocError>
    ensures { OnOk result (pieces.new.items ≡ pieces.old.items ++ map (piece_of ylo yhi) runs.now) }
{
    for run in runs {
        let area = Rect {
            xlo: run.xlo,
            ylo,
            xhi: run.xhi,
            yhi,
        };
        pieces.push(Piece {
            area,
            value: run.value,
        })?;
    }
    Ok(())
}

/// The strips of the squares that pieces of this value cover.
pub fn strips_of(alloc: Global, pieces: &[Piece], value: u8) -> Result<Vec<Rect>, AllocError>
    ensures { IfOk result (λ found. IsStrips (IsInPieces pieces.now value) found.items) }
{
    let areas = rects_with(alloc, pieces, value)?;
    strips(alloc, areas.as_slice())
}

/// The areas of the pieces of this value.
fn rects_with(alloc: Global, pieces: &[Piece], value: u8) -> Result<Vec<Rect>, AllocError>
    ensures { IfOk result (λ areas. areas.items ≡ rects_with pieces.now value) }
{
    pieces
        .iter()
        .filter(|piece| piece.value == value)
        .map(|piece| piece.area)
        .collect(alloc)
}

/// The parts in the area of the strips of the squares that pieces of each value cover, in the order of strips.
pub fn tiles_of(alloc: Global, pieces: &[Piece], area: &Rect) -> Result<Vec<Piece>, AllocError>
    requires { AgreeOnSquares pieces.now }
    ensures { IfOk result (λ tiles. AreTilesFrom pieces.now area.now tiles.items) }
{
    let mut tiles = Vec::new(alloc);
    for below in 0..greatest_value(pieces) {
        let value = below + 1;
        let strips = strips_of(alloc, pieces, value)?;
        let mut parts = parts_in(alloc, strips.as_slice(), area, value)?;
        tiles.append(&mut parts)?;
    }
    tiles.sort_unstable_by_key(|tile| (tile.area.ylo, tile.area.xlo));
    Ok(tiles)
}

/// A value that no piece passes.
fn greatest_value(pieces: &[Piece]) -> u8
    ensures { All (λ piece. piece.value ≤ result) pieces.now }
{
    let mut greatest = 0;
    for piece in pieces {
        greatest = piece.value.max(greatest);
    }
    greatest
}

/// The parts of the strips in the area, as pieces of this value.
fn parts_in(
    alloc: Global,
    strips: &[Rect],
    area: &Rect,
    value: u8,
) -> Result<Vec<Piece>, AllocError>
    ensures { IfOk result (λ parts. parts.items ≡ parts_in strips.now area.now value) }
{
    strips
        .iter()
        .filter(|strip| strip.common(area).has_square())
        .map(|strip| Piece {
            area: strip.common(area),
            value,
        })
        .collect(alloc)
}

/// The smallest rectangle that covers all squares with a number other than 0.
pub fn box_of(rows: &[Row]) -> Option<Rect>
    requires { AreRows rows.now }
    ensures { MatchOption result ((square : OneSquare) → number_at rows.now square ≡ 0) (IsBox (number_at rows.now)) }
{
    let mut found: Option<Rect> = None;
    for index in 0..rows.len().saturating_sub(1) {
        let row = &rows[index];
        if let Some(area) = row_box(row.runs.items(), row.ylo, rows[index + 1].ylo) {
            found = Some(match found {
                Some(old) => old.joined(&area),
                None => area,
            });
        }
    }
    found
}

/// The smallest rectangle of these heights that covers the runs, if there is one.
fn row_box(runs: &[Run], ylo: i64, yhi: i64) -> Option<Rect>
    requires { AreRuns edge runs.now }
    ensures none { IfNone result (runs.now ≡ []) }
    ensures some { IfSome result (IsRowBox runs.now ylo yhi) }
{
    let first = runs.first()?;
    let last = runs.last()?;
    Some(Rect {
        xlo: first.xlo,
        ylo,
        xhi: last.xhi,
        yhi,
    })
}
