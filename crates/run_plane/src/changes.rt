//! What setting pieces does to rows, made before it is done.
ghost use Rattle.std.specs.Prelude.{◌≡◌, ◌+◌, ◌≤◌, vec_len, vec_capacity, ◌<ℤ◌, [], length, All, AllPairs, IfOk, IfSome, IfNone, OnOk};
ghost use Rattle.geo_core.specs.Areas.{AreDisjoint, IsNear, IsSmall};
ghost use Rattle.geo_core.specs.Covering.{IsProper};
ghost use Rattle.geo_core.specs.Planes.{AreSet};
ghost use Rattle.run_plane.specs.steps.Changes.{Spans, IsBand, all_heights, AreHeights, AreAbove, AreRowsFor, IsSetIn};
ghost use Rattle.run_plane.specs.Contents.{replaced, IsNoChange};
ghost use Rattle.run_plane.specs.Rows.{number_at, edge, AreRising, AreRows};

use crate::rows::{Row, rows_up_to, runs_at};
use crate::runs::with_piece;
use geo_core::Piece;
use names_lists::List;
use std::alloc::{AllocError, Global};
use std::ops::Range;

/// The rows to be put in the place of those from `from` on and below `until`.
#[derive(Debug, Drop)]
pub struct Change {
    pub from: usize,
    pub until: usize,
    pub rows: Vec<Row>,
}

impl Change {
    /// Puts its rows into a list that has room for them, and is none from then on. It takes no memory.
    pub fn put_into(&mut self, rows: &mut Vec<Row>)
        requires in_order { self.old.from ≤ self.old.until }
        requires within { self.old.until ≤ vec_len rows.old }
        requires room { vec_len rows.old + vec_len self.old.rows ≤ vec_capacity rows.old }
        ensures rows { rows.new.items ≡ replaced rows.old.items self.old.from self.old.until self.old.rows.items }
        ensures none { IsNoChange self.new }
        ensures still_room { vec_len rows.new ≤ vec_capacity rows.new }
    {
        let above = rows.len() - self.until;
        rows.rotate_left(self.until);
        rows.truncate(above + self.from);
        // There is room, so this does not fail.
        let _ = rows.append(&mut self.rows);
        rows.rotate_left(above);
        self.from = 0;
        self.until = 0;
    }
}

/// The change that sets the pieces.
pub fn change_for(alloc: Global, rows: &[Row], pieces: &[Piece]) -> Result<Change, AllocError>
    requires rows { AreRows rows.now }
    requires proper { All (λ piece. IsProper piece.area) pieces.now }
    requires near { All (λ piece. IsNear piece.area) pieces.now }
    requires apart { AllPairs (λ a b. AreDisjoint a.area b.area) pieces.now }
    ensures in_order { IfOk result (λ change. change.from ≤ change.until) }
    ensures within { IfOk result (λ change. change.until ≤ length rows.now) }
    ensures rows { IfOk result (λ change. AreRows (replaced rows.now change.from change.until change.rows.items)) }
    ensures set { IfOk result (λ change.
        AreSet (number_at rows.now) (number_at (replaced rows.now change.from change.until change.rows.items)) pieces.now) }
{
    let Some(span) = span_of(pieces) else {
        return Ok(Change {
            from: 0,
            until: 0,
            rows: Vec::new(alloc),
        });
    };
    let band = band_of(rows, &span);
    let heights = heights(alloc, &rows[band.start..band.end], pieces)?;
    let changed = rows_for(alloc, rows, pieces, heights.as_slice())?;
    Ok(Change {
        from: band.start,
        until: band.end,
        rows: changed,
    })
}

/// The places of the rows that begin in the span, its end included.
fn band_of(rows: &[Row], span: &Range<i64>) -> Range<usize>
    requires rising { AreRising edge rows.now }
    requires near { IsSmall span.now.start }
    requires in_order { span.now.start <ℤ span.now.end }
    ensures { IsBand rows.now span.now result }
{
    rows_up_to(rows, span.start - 1)..rows_up_to(rows, span.end)
}

/// The rows that begin at these heights once the pieces are set.
fn rows_for(
    alloc: Global,
    rows: &[Row],
    pieces: &[Piece],
    heights: &[i64],
) -> Result<Vec<Row>, AllocError>
    requires rising { AreRising edge rows.now }
    requires proper { All (λ piece. IsProper piece.area) pieces.now }
    requires near { All (λ piece. IsNear piece.area) pieces.now }
    requires apart { AllPairs (λ a b. AreDisjoint a.area b.area) pieces.now }
    requires above { AreAbove edge heights.now }
    requires small { All IsSmall heights.now }
    ensures { IfOk result (λ found. AreRowsFor rows.now pieces.now heights.now found.items) }
{
    let mut found = rows_at(alloc, rows, heights)?;
    for piece in pieces {
        set_piece(alloc, &mut found, piece)?;
    }
    Ok(found)
}

/// The rows that begin at these heights before any piece is set.
fn rows_at(alloc: Global, rows: &[Row], heights: &[i64]) -> Result<Vec<Row>, AllocError>
    requires { AreRising edge rows.now }
    ensures { IfOk result (λ found. AreRowsFor rows.now [] heights.now found.items) }
{
    let mut found = Vec::new(alloc);
    for ylo in heights {
        let runs = runs_at(rows, *ylo).to_vec(alloc)?;
        found.push(Row {
            ylo: *ylo,
            runs: List::of(runs),
        })?;
    }
    Ok(found)
}

/// Sets a piece in rows that begin where it begins and where it ends.
fn set_piece(alloc: Global, found: &mut Vec<Row>, piece: &Piece) -> Result<(), AllocError>
    requires rising { AreRising edge found.old.items }
    requires proper { IsProper piece.now.area }
    requires near { IsNear piece.now.area }
    ensures { OnOk result (IsSetIn piece.now found.old.items found.new.items) }
{
    let first = rows_up_to(found.as_slice(), piece.area.ylo - 1);
    let last = rows_up_to(found.as_slice(), piece.area.yhi - 1);
    for index in first..last {
        let row = &mut found[index];
        let runs = with_piece(alloc, row.runs.items(), piece)?;
        row.runs = List::of(runs);
    }
    Ok(())
}

/// The heights from the lowest edge of the pieces up to the highest.
fn span_of(pieces: &[Piece]) -> Option<Range<i64>>
    requires proper { All (λ piece. IsProper piece.area) pieces.now }
    requires near { All (λ piece. IsNear piece.area) pieces.now }
    ensures none { IfNone result (pieces.now ≡ []) }
    ensures some { IfSome result (λ span. Spans span pieces.now) }
{
    let mut span: Option<Range<i64>> = None;
    for piece in pieces {
        let Piece { area, .. } = *piece;
        span = Some(match span {
            Some(old) => old.start.min(area.ylo)..old.end.max(area.yhi),
            None => area.ylo..area.yhi,
        });
    }
    span
}

/// Where the rows and the pieces begin and where the pieces end, each height once, from the lowest up.
fn heights(alloc: Global, rows: &[Row], pieces: &[Piece]) -> Result<Vec<i64>, AllocError>
    ensures { IfOk result (λ heights. AreHeights rows.now pieces.now heights.items) }
{
    let mut heights = all_heights(alloc, rows, pieces)?;
    heights.sort_unstable();
    heights.dedup();
    Ok(heights)
}

/// The same heights as they come.
fn all_heights(alloc: Global, rows: &[Row], pieces: &[Piece]) -> Result<Vec<i64>, AllocError>
    ensures { IfOk result (λ heights. heights.items ≡ all_heights rows.now pieces.now) }
{
    rows.iter()
        .map(|row| row.ylo)
        .chain(pieces.iter().map(|piece| piece.area.ylo))
        .chain(pieces.iter().map(|piece| piece.area.yhi))
        .collect(alloc)
}
