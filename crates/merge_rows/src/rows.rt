//! Rows of merges, onto which merges are pushed one by one.
ghost use Rattle.std.specs.Prelude.{◌≡◌, ◌↔◌, ◌∷◌, [], IfOk, IsTrue, OnOk};
ghost use Rattle.ext_model.specs.Rows.{GoesOn};
ghost use Rattle.merge_rows.specs.AddedMerges.{row_of, AddsToRows, GoesOnWithLast, IsLastLonger};

use crate::paths::{begins_indexed, raised_text};
use ext_model::{MergeRec, MergeRow};
use std::alloc::{AllocError, Global};

// Whether the measures are equal.
fn same_measures(one: &[(i128, i128)], other: &[(i128, i128)]) -> bool
    ensures { IsTrue result ↔ (one.now ≡ other.now) }
{
    one == other
}

// Whether the merge has the row's first path and adds the same.
fn adds_alike(row: &MergeRow, merge: &MergeRec) -> bool
    ensures { IsTrue result ↔ ((merge.now.first ≡ row.now.first) × (merge.now.cap ≡ row.now.cap) × (merge.now.measures ≡ row.now.measures)) }
{
    merge.cap == row.cap
        && merge.first == row.first
        && same_measures(merge.measures.items(), row.measures.items())
}

// Whether the merge goes on with the row.
fn goes_on(alloc: Global, row: &MergeRow, merge: &MergeRec) -> Result<bool, AllocError>
    ensures { IfOk result (λ goes. IsTrue goes ↔ GoesOn row.now (row_of merge.now)) }
{
    if !adds_alike(row, merge) || !begins_indexed(row.second.bytes()) {
        return Ok(false);
    }
    let next = raised_text(alloc, row.second.bytes(), row.count)?;
    Ok(merge.second.bytes() == next.as_slice())
}

// The merge as a row of its own.
fn row_of(merge: MergeRec) -> MergeRow
    ensures { result ≡ row_of merge }
{
    MergeRow {
        first: merge.first,
        second: merge.second,
        count: 1,
        cap: merge.cap,
        measures: merge.measures,
    }
}

// Whether the merge goes on with the last of the rows.
fn goes_on_with_last(alloc: Global, rows: &[MergeRow], merge: &MergeRec) -> Result<bool, AllocError>
    ensures { IfOk result (λ goes. IsTrue goes ↔ GoesOnWithLast rows.now merge.now) }
{
    match rows.last() {
        Some(last) => goes_on(alloc, last, merge),
        None => Ok(false),
    }
}

// Has the last of the rows count one merge more.
fn lengthen_last(rows: &mut Vec<MergeRow>) -> Result<(), AllocError>
    ensures { OnOk result (IsLastLonger rows.old.items rows.new.items) }
{
    if let Some(last) = rows.last_mut() {
        last.count = last.count.checked_add(1).ok_or(AllocError)?;
    }
    Ok(())
}

/// Pushes a merge onto rows: where it goes on with the last row, it is one more of that row, and else it begins a row.
///
/// It takes a step for each byte of the merge and of the last row. Want of memory refuses, and so does a row of 2^64 merges.
pub fn push_merge(
    alloc: Global,
    rows: &mut Vec<MergeRow>,
    merge: MergeRec,
) -> Result<(), AllocError>
    ensures { OnOk result (AddsToRows (merge ∷ []) rows.old.items rows.new.items) }
{
    if goes_on_with_last(alloc, rows.as_slice(), &merge)? {
        return lengthen_last(rows);
    }
    rows.push(row_of(merge))?;
    Ok(())
}
