//! Bands of rows.
ghost use Rattle.std.specs.Prelude.{◌≤ℤ◌, pos, IfOk};
ghost use Rattle.geo_core.specs.Covering.{IsProper};
ghost use Rattle.cell_library.specs.CellTree.Hulls.{SpansInRange};
ghost use Rattle.drc_check.specs.steps.Bands.{AreBandsOf};

use geo_core::Rect;
use std::alloc::{AllocError, Global};

/// About so many standing cells are to have something in a band.
const STANDINGS_OF_BAND: usize = 4096;

/// There are at most so many bands.
const MOST_BANDS: usize = 256;

/// How many rows the bands of a hull are to have, at and below whose cell so many stand.
fn rows_of_band(hull: &Rect, standings: usize) -> i64
    requires proper { IsProper hull.now }
    requires spans { SpansInRange hull.now }
    ensures some { pos 1 ≤ℤ result }
    ensures few { result ≤ℤ pos 134217728 }
{
    let bands = (standings / STANDINGS_OF_BAND).clamp(1, MOST_BANDS);
    let rows = (hull.yhi - hull.ylo) as usize;
    (rows / bands + 1) as i64
}

/// The hull cut into bands of rows, from the lowest on. Its cell has so many cells at and below it. Want of memory alone refuses.
pub fn bands_of(alloc: Global, hull: &Rect, standings: usize) -> Result<Vec<Rect>, AllocError>
    requires proper { IsProper hull.now }
    requires spans { SpansInRange hull.now }
    ensures { IfOk result (λ bands. AreBandsOf hull.now bands.items) }
{
    let rows = rows_of_band(hull, standings);
    let mut bands = Vec::new(alloc);
    let mut low = hull.ylo;
    while low < hull.yhi {
        let high = (low + rows).min(hull.yhi);
        bands.push(Rect {
            xlo: hull.xlo,
            ylo: low,
            xhi: hull.xhi,
            yhi: high,
        })?;
        low = high;
    }
    Ok(bands)
}
