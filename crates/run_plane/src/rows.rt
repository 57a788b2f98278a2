//! Rows of runs, one above the other.
ghost use Rattle.std.specs.Prelude.{◌≡◌, ◌≤◌, ◌≤ℤ◌, ◌<ℤ◌, [], length, take, drop, All};
ghost use Rattle.run_plane.specs.Rows.{runs_from, edge, AreRising};

use crate::runs::Run;
use names_lists::List;

/// The runs of all rows of squares from `ylo` on, up to where the next row begins.
#[derive(Debug, Drop)]
pub struct Row {
    pub ylo: i64,
    pub runs: List<Run>,
}

/// The number of rows that begin at y or below.
pub fn rows_up_to(rows: &[Row], y: i64) -> usize
    requires { AreRising edge rows.now }
    ensures within { result ≤ length rows.now }
    ensures below { All (λ row. row.ylo ≤ℤ y) (take result rows.now) }
    ensures above { All (λ row. y <ℤ row.ylo) (drop result rows.now) }
{
    rows.partition_point(|row| row.ylo <= y)
}

/// The runs of the squares at y. There are none below the lowest row.
pub fn runs_at(rows: &[Row], y: i64) -> &[Run]
    requires { AreRising edge rows.now }
    ensures { result.now ≡ runs_from [] rows.now y }
{
    let count = rows_up_to(rows, y);
    if count == 0 {
        &[]
    } else {
        rows[count - 1].runs.items()
    }
}
