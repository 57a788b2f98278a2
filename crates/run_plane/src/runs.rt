//! The runs of one row.
ghost use Rattle.std.specs.Prelude.{◌≡◌, IfOk};
ghost use Rattle.geo_core.specs.Areas.{IsNear};
ghost use Rattle.geo_core.specs.Covering.{IsProper};
ghost use Rattle.run_plane.specs.Rows.{value_at, edge, AreRuns};
ghost use Rattle.run_plane.specs.steps.Changes.{parts_before, parts_after, AreRunsWith};

use geo_core::Piece;
use std::alloc::{AllocError, Global};

/// The squares of a row from `xlo` on and below `xhi`, and their value, which is not 0.
#[derive(Clone, Copy, Debug, PartialEq, Eq)]
pub struct Run {
    pub xlo: i64,
    pub xhi: i64,
    pub value: u8,
}

/// The value at x, by a search for the first run that ends after it.
pub fn value_at(runs: &[Run], x: i64) -> u8
    requires { AreRuns edge runs.now }
    ensures { result ≡ value_at runs.now x }
{
    let first = runs.partition_point(|run| run.xhi <= x);
    let Some(run) = runs.get(first) else {
        return 0;
    };
    if run.xlo <= x { run.value } else { 0 }
}

/// The runs after the squares of the piece in this row are set.
pub fn with_piece(alloc: Global, runs: &[Run], piece: &Piece) -> Result<Vec<Run>, AllocError>
    requires ordered { AreRuns edge runs.now }
    requires proper { IsProper piece.now.area }
    requires near { IsNear piece.now.area }
    ensures { IfOk result (λ changed. AreRunsWith piece.now runs.now changed.items) }
{
    let mut changed = parts_before(alloc, runs, piece.area.xlo)?;
    if piece.value != 0 {
        changed.push(Run {
            xlo: piece.area.xlo,
            xhi: piece.area.xhi,
            value: piece.value,
        })?;
    }
    let mut after = parts_after(alloc, runs, piece.area.xhi)?;
    changed.append(&mut after)?;
    Ok(changed)
}

/// The parts of the runs left of x.
fn parts_before(alloc: Global, runs: &[Run], x: i64) -> Result<Vec<Run>, AllocError>
    ensures { IfOk result (λ parts. parts.items ≡ parts_before x runs.now) }
{
    runs.iter()
        .filter(|run| run.xlo < x)
        .map(|run| Run {
            xlo: run.xlo,
            xhi: run.xhi.min(x),
            value: run.value,
        })
        .collect(alloc)
}

/// The parts of the runs from x on.
fn parts_after(alloc: Global, runs: &[Run], x: i64) -> Result<Vec<Run>, AllocError>
    ensures { IfOk result (λ parts. parts.items ≡ parts_after x runs.now) }
{
    runs.iter()
        .filter(|run| x < run.xhi)
        .map(|run| Run {
            xlo: run.xlo.max(x),
            xhi: run.xhi,
            value: run.value,
        })
        .collect(alloc)
}
