//! The runs of a row, from the row to the next one.
ghost use Rattle.std.specs.Prelude.{◌≡◌, ◌⊎◌, ℤ, ◌≤ℤ◌, ◌<ℤ◌, Some, IfSome, IfNone, IfOk, OnOk};
ghost use Rattle.std.specs.Ordering.{int_cmp};
ghost use Rattle.std.specs.BTreeMap.{get};
ghost use Rattle.geo_core.specs.FiniteSets.Lists.{In};
ghost use Rattle.geo_strips.specs.declared.bars.Bar.{Bar as IsBar};
ghost use Rattle.geo_strips.specs.declared.row_runs.Run.{Run as IsRun};
ghost use Rattle.geo_strips.specs.RowRuns.{AreRuns, bar_of, IsLastRun, Touches, IsTaken, Changes, without, LiesClear, IsPlaced, IsCovered, IsUncovered};

use crate::bars::Bar;
use std::alloc::AllocError;
use std::collections::BTreeMap;

/// Where a run ends, and the row since which there is this run.
#[derive(Clone, Copy, Debug, PartialEq, Eq)]
pub struct Run {
    pub to: i64,
    pub since: i64,
}

/// The last run that begins no later than `x`, with its beginning.
fn last_run(runs: &BTreeMap<i64, Run>, x: i64) -> Option<(i64, Run)>
    ensures some { IfSome result (λ p. IsLastRun (get int_cmp runs.now) x p.0 p.1) }
    ensures none { IfNone result ((a : ℤ) (run : IsRun) → get int_cmp runs.now a ≡ Some run → x <ℤ a) }
{
    let (from, run) = runs.range(..=x).next_back()?;
    Some((*from, *run))
}

/// A run that meets the columns from `from` on and before `to`, or touches them.
fn touching_run(runs: &BTreeMap<i64, Run>, from: i64, to: i64) -> Option<(i64, Run)>
    requires { AreRuns (get int_cmp runs.now) }
    ensures some { IfSome result (λ p. Touches (get int_cmp runs.now) from to p.0 p.1) }
    ensures none { IfNone result ((a : ℤ) (run : IsRun) → get int_cmp runs.now a ≡ Some run → a ≤ℤ to → run.to <ℤ from) }
{
    let Some((start, run)) = last_run(runs, to) else {
        return None;
    };
    if run.to < from {
        return None;
    }
    Some((start, run))
}

/// Writes a run that ends at the row, if it has rows.
fn write(found: &mut Vec<Bar>, from: i64, run: Run, row: i64) -> Result<(), AllocError>
    ensures kept { OnOk result ((bar : IsBar) → In bar found.old.items → In bar found.new.items) }
    ensures ended { OnOk result (In (bar_of from run row) found.new.items ⊎ (row ≤ℤ run.since)) }
    ensures only { OnOk result ((bar : IsBar) → In bar found.new.items → In bar found.old.items ⊎ ((run.since <ℤ row) × (bar_of from run row ≡ bar))) }
{
    if run.since < row {
        found.push(Bar {
            low: from,
            high: run.to,
            from: run.since,
            to: row,
        })?;
    }
    Ok(())
}

/// Takes out and writes the runs that meet or touch the columns from `from` on and before `to`. The result is
/// the first column of these and of the runs, and the one after the last.
fn take(
    runs: &mut BTreeMap<i64, Run>,
    from: i64,
    to: i64,
    row: i64,
    found: &mut Vec<Bar>,
) -> Result<(i64, i64), AllocError>
    requires long { from ≤ℤ to }
    requires apart { AreRuns (get int_cmp runs.old) }
    ensures taken { IfOk result (λ p. IsTaken from to p.0 p.1 (get int_cmp runs.old) (get int_cmp runs.new)) }
    ensures apart { OnOk result (AreRuns (get int_cmp runs.new)) }
    ensures changes { OnOk result (Changes row (get int_cmp runs.old) (get int_cmp runs.new) found.old.items found.new.items) }
{
    let mut left = from;
    let mut right = to;
    while let Some((start, run)) = touching_run(runs, from, to) {
        runs.remove(&start);
        write(found, start, run, row)?;
        left = left.min(start);
        right = right.max(run.to);
    }
    Ok((left, right))
}

/// Puts in a run, if it has columns.
fn place(runs: &mut BTreeMap<i64, Run>, from: i64, to: i64, row: i64) -> Result<(), AllocError>
    requires apart { AreRuns (get int_cmp runs.old) }
    requires clear { LiesClear from to (get int_cmp runs.old) }
    ensures { OnOk result (IsPlaced from to row (get int_cmp runs.old) (get int_cmp runs.new)) }
{
    if from < to {
        runs.insert(from, Run { to, since: row })?;
    }
    Ok(())
}

/// Puts in a run, which has columns, instead of the one that begins there.
fn replace(runs: &mut BTreeMap<i64, Run>, from: i64, to: i64, row: i64) -> Result<(), AllocError>
    requires long { from <ℤ to }
    requires apart { AreRuns (get int_cmp runs.old) }
    requires clear { LiesClear from to (without from (get int_cmp runs.old)) }
    ensures { OnOk result (IsPlaced from to row (without from (get int_cmp runs.old)) (get int_cmp runs.new)) }
{
    runs.insert(from, Run { to, since: row })?;
    Ok(())
}

/// From this row on a run that was begun at the row has the columns from its end on and before `to` too.
fn lengthen(
    runs: &mut BTreeMap<i64, Run>,
    start: i64,
    run: Run,
    to: i64,
    row: i64,
    found: &mut Vec<Bar>,
) -> Result<(), AllocError>
    requires begins { get int_cmp runs.old start ≡ Some run }
    requires since { run.since ≡ row }
    requires before { run.to <ℤ to }
    requires apart { AreRuns (get int_cmp runs.old) }
    ensures { OnOk result (IsCovered run.to to row (get int_cmp runs.old) (get int_cmp runs.new) found.old.items found.new.items) }
{
    // The run itself does not touch the columns from `run.to + 1` on, so it is not taken out.
    let (_, right) = take(runs, run.to + 1, to, row, found)?;
    replace(runs, start, right, row)?;
    Ok(())
}

/// From this row on the columns from `from` on and before `to` are in runs.
pub fn cover(
    runs: &mut BTreeMap<i64, Run>,
    from: i64,
    to: i64,
    row: i64,
    found: &mut Vec<Bar>,
) -> Result<(), AllocError>
    requires long { from <ℤ to }
    requires apart { AreRuns (get int_cmp runs.old) }
    ensures { OnOk result (IsCovered from to row (get int_cmp runs.old) (get int_cmp runs.new) found.old.items found.new.items) }
{
    if let Some((start, run)) = last_run(runs, from) {
        if to <= run.to {
            return Ok(());
        }
        if from <= run.to && run.since == row {
            return lengthen(runs, start, run, to, row, found);
        }
    }
    let (left, right) = take(runs, from, to, row, found)?;
    place(runs, left, right, row)?;
    Ok(())
}

/// From this row on the columns from `from` on and before `to` are not in the run, which begins before them.
fn split(
    runs: &mut BTreeMap<i64, Run>,
    start: i64,
    run: Run,
    from: i64,
    to: i64,
    row: i64,
    found: &mut Vec<Bar>,
) -> Result<(), AllocError>
    requires begins { get int_cmp runs.old start ≡ Some run }
    requires before { start <ℤ from }
    requires long { from <ℤ to }
    requires after { to ≤ℤ run.to }
    requires apart { AreRuns (get int_cmp runs.old) }
    ensures { OnOk result (IsUncovered from to row (get int_cmp runs.old) (get int_cmp runs.new) found.old.items found.new.items) }
{
    write(found, start, run, row)?;
    replace(runs, start, from, row)?;
    place(runs, to, run.to, row)?;
    Ok(())
}

/// From this row on the columns from `from` on and before `to`, if there are any, are in no run.
pub fn uncover(
    runs: &mut BTreeMap<i64, Run>,
    from: i64,
    to: i64,
    row: i64,
    found: &mut Vec<Bar>,
) -> Result<(), AllocError>
    requires { AreRuns (get int_cmp runs.old) }
    ensures { OnOk result (IsUncovered from to row (get int_cmp runs.old) (get int_cmp runs.new) found.old.items found.new.items) }
{
    if to <= from {
        return Ok(());
    }
    if let Some((start, run)) = last_run(runs, from) {
        if start < from && to <= run.to {
            return split(runs, start, run, from, to, row, found);
        }
    }
    let (left, right) = take(runs, from, to, row, found)?;
    place(runs, left, from, row)?;
    place(runs, to, right, row)?;
    Ok(())
}
