//! The sweep over rows, which finds the runs of what two or more rectangles cover.
ghost use Rattle.std.specs.Prelude.{IfOk, OnOk};
ghost use Rattle.geo_core.specs.Covering.{IsInTwo};
ghost use Rattle.geo_strips.specs.steps.Sweeping.{AreRunBars};
ghost use Rattle.interact.specs.steps.Sweeps.{IsBetweenRows, SettlesRow};

use crate::counts::{Counts, SharedRuns, no_counts};
use crate::edges::{edges, sides};
use geo_core::Rect;
use geo_strips::Bar;
use std::alloc::{AllocError, Global};
use std::collections::BTreeMap;

/// The sweep at a row: how many rectangles cover each column, as far as edges have been counted, and the runs of shared columns below
/// the row.
#[derive(Drop)]
struct Sweep {
    row: i64,
    counts: Counts,
    shared: SharedRuns,
}

/// All edges at the sweep's row have been counted: from the row on the runs are as the counts say.
fn settle(sweep: &mut Sweep) -> Result<(), AllocError>
    requires { IsBetweenRows sweep.old }
    ensures { OnOk result (SettlesRow sweep.old sweep.new) }
{
    sweep
        .counts
        .settle(0, i64::MIN, i64::MAX, sweep.row, &mut sweep.shared)
}

/// The runs of what two or more of the rectangles cover, as the columns that they are in and the rows from the first to the last.
pub fn shared_runs(alloc: Global, rects: &[Rect]) -> Result<Vec<Bar>, AllocError>
    ensures { IfOk result (λ found. AreRunBars (IsInTwo rects.now) found.items) }
{
    let edges = edges(alloc, rects)?;
    let sides = sides(alloc, edges.as_slice())?;
    let mut sweep = Sweep {
        row: i64::MIN,
        counts: no_counts(alloc, sides.as_slice())?,
        shared: SharedRuns {
            runs: BTreeMap::new(alloc),
            ended: Vec::new(alloc),
        },
    };
    for edge in &edges {
        if sweep.row < edge.row {
            settle(&mut sweep)?;
            sweep.row = edge.row;
        }
        sweep
            .counts
            .add(Some(edge.from), Some(edge.to), edge.gain())?;
    }
    settle(&mut sweep)?;
    let Sweep { shared, .. } = sweep;
    Ok(shared.ended)
}
