//! The sweep over rows, which finds the runs of what rectangles cover.
ghost use Rattle.std.specs.Prelude.{ℤ, ◌<ℤ◌, IfOk, OnOk};
ghost use Rattle.geo_strips.specs.Coverage.{IsTopped, IsCut};
ghost use Rattle.geo_strips.specs.RowRuns.{AreRuns};
ghost use Rattle.geo_core.specs.Strips.{IsInUnion};
ghost use Rattle.geo_strips.specs.steps.Sweeping.{row_of, RectBegins, RectsEnd, AreRunBars};

use crate::bars::Bar;
use crate::coverage::{Coverage, Gap, uncovered};
use crate::row_events::{Event, events, sides};
use crate::row_runs::{Run, cover, uncover};
use geo_core::Rect;
use std::alloc::{AllocError, Global};
use std::collections::BTreeMap;

/// The sweep before a row: the runs that there are, what is covered from the row on, and the runs that have ended.
#[derive(Drop)]
struct Sweep {
    runs: BTreeMap<i64, Run>,
    coverage: Coverage,
    found: Vec<Bar>,
}

/// A rectangle begins.
fn begin(sweep: &mut Sweep, event: &Event) -> Result<(), AllocError>
    requires apart { AreRuns (row_of sweep.old) }
    requires topped { IsTopped sweep.old.coverage }
    requires long { event.now.from <ℤ event.now.to }
    requires from_cut { IsCut sweep.old.coverage event.now.from }
    requires to_cut { IsCut sweep.old.coverage event.now.to }
    ensures { OnOk result (RectBegins event.now sweep.old sweep.new) }
{
    cover(
        &mut sweep.runs,
        event.from,
        event.to,
        event.row,
        &mut sweep.found,
    )?;
    sweep
        .coverage
        .raise(Some(event.from), Some(event.to), event.top);
    Ok(())
}

/// Rectangles end in some columns.
fn end(alloc: Global, sweep: &mut Sweep, event: &Event) -> Result<(), AllocError>
    requires apart { AreRuns (row_of sweep.old) }
    requires topped { IsTopped sweep.old.coverage }
    ensures { OnOk result (RectsEnd event.now sweep.old sweep.new) }
{
    let mut gaps: Vec<Gap> = Vec::new(alloc);
    sweep
        .coverage
        .add_gaps(event.from, event.to, event.row, &mut gaps)?;
    for gap in &gaps {
        uncover(
            &mut sweep.runs,
            gap.from,
            gap.to,
            event.row,
            &mut sweep.found,
        )?;
    }
    Ok(())
}

/// The runs of what rectangles cover, as the columns that they are in and the rows from the first to the last.
pub fn runs(alloc: Global, rects: &[Rect]) -> Result<Vec<Bar>, AllocError>
    ensures { IfOk result (λ found. AreRunBars (IsInUnion rects.now) found.items) }
{
    let events = events(alloc, rects)?;
    let sides = sides(alloc, events.as_slice())?;
    let mut sweep = Sweep {
        runs: BTreeMap::new(alloc),
        coverage: uncovered(alloc, sides.as_slice(), i64::MIN)?,
        found: Vec::new(alloc),
    };
    for event in &events {
        // The proof learns from this that the row fits.
        let _row = event.row;
        if event.ends {
            end(alloc, &mut sweep, event)?;
        } else {
            begin(&mut sweep, event)?;
        }
    }
    Ok(sweep.found)
}
