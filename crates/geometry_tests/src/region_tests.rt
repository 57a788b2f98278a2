//! Regions of painted cells and their measures, worked by hand.
ghost use Rattle.std.specs.Prelude.{◌≡◌, length};

use crate::paint_tests::{Act, NM, Step, painted};
use cell_paint::CellPaint;
use flood_nodes::{Regions, regions};
use geo_core::Rect;
use measures::measure;
use std::alloc::{AllocError, Global};
use std::test::Fail;
use tech_file::read_tech;
use tech_model::Tech;

/// All squares that the cells of the table have.
const WINDOW: Rect = Rect {
    xlo: -9,
    ylo: -9,
    xhi: 9,
    yhi: 9,
};

/// A plane and a square of it.
type At = (u8, i64, i64);

/// Steps of paint, how many regions there are then, and for some places the measures of the place's region in the
/// three classes.
struct Row {
    steps: &'static [Step],
    count: usize,
    measures: &'static [(At, &'static [(i128, i128)])],
}

const ROWS: &[Row] = &[
    // Two rectangles side by side are one region, and two that share a corner are two.
    Row {
        steps: &[
            (Act::Paint, b"poly", [0, 0, 2, 2]),
            (Act::Paint, b"poly", [2, 0, 4, 2]),
        ],
        count: 1,
        measures: &[((0, 3, 1), &[(8, 12), (0, 0), (0, 0)])],
    },
    Row {
        steps: &[
            (Act::Paint, b"poly", [0, 0, 2, 2]),
            (Act::Paint, b"poly", [-2, -2, 0, 0]),
        ],
        count: 2,
        measures: &[
            ((0, 0, 0), &[(4, 8), (0, 0), (0, 0)]),
            ((0, -1, -1), &[(4, 8), (0, 0), (0, 0)]),
        ],
    },
    // The channel of a transistor is of poly's region and of no class, and parts diff.
    Row {
        steps: &[
            (Act::Paint, b"poly", [0, 2, 6, 4]),
            (Act::Paint, b"diff", [2, 0, 4, 6]),
        ],
        count: 3,
        measures: &[
            ((0, 2, 2), &[(8, 16), (0, 0), (0, 0)]),
            ((0, 3, 1), &[(0, 0), (4, 8), (0, 0)]),
            ((0, 3, 5), &[(0, 0), (4, 8), (0, 0)]),
        ],
    },
    // A contact joins two planes.
    Row {
        steps: &[
            (Act::Paint, b"pc", [0, 0, 2, 2]),
            (Act::Paint, b"metal", [2, 0, 5, 2]),
            (Act::Paint, b"metal", [7, 0, 8, 1]),
        ],
        count: 2,
        measures: &[
            ((0, 1, 1), &[(4, 8), (0, 0), (10, 14)]),
            ((1, 4, 1), &[(4, 8), (0, 0), (10, 14)]),
            ((1, 7, 0), &[(0, 0), (0, 0), (1, 4)]),
        ],
    },
    Row {
        steps: &[],
        count: 0,
        measures: &[],
    },
];

/// The regions of all that the cell has in the window.
fn regions_in(alloc: Global, tech: &Tech, cell: &CellPaint) -> Result<Regions, AllocError>
    requires kinds { cell.now.kinds ≡ tech.now.types }
    requires planes { length cell.now.planes ≡ length tech.now.planes }
{
    // The proof takes from these calls that the technology is well formed and the paint sound.
    let _ = tech.raw();
    let _ = cell.box_of();
    regions(alloc, tech, cell, WINDOW)
}

/// The number of the region of a place, if it has one.
fn region_at(regions: &Regions, at: At) -> Option<usize> {
    let (plane, x, y) = at;
    for tile in regions.tiles.items() {
        let area = &tile.area;
        if tile.plane == plane && area.xlo <= x && x < area.xhi && area.ylo <= y && y < area.yhi {
            return Some(tile.region);
        }
    }
    None
}

/// Whether the cell of a row has its regions with their measures.
fn is_measured(alloc: Global, tech: &Tech, row: &Row) -> Result<bool, Fail> {
    let cell = painted(alloc, tech, row.steps)?;
    let found = regions_in(alloc, tech, &cell)?;
    let made = measure(alloc, tech, &found)?;
    for (at, want) in row.measures {
        let Some(region) = region_at(&found, *at) else {
            return Ok(false);
        };
        let Some(row) = made.rows.items().get(region) else {
            return Ok(false);
        };
        if row.pairs.items() != *want {
            return Ok(false);
        }
    }
    Ok(found.count == row.count && made.rows.items().len() == row.count)
}

#[test]
fn regions_have_their_measures(rt: HostRuntime) -> Result<(), Fail> {
    let tech = read_tech(rt.alloc(), NM)?;
    for row in ROWS {
        assert!(rt; is_measured(rt.alloc(), &tech, row)?);
    }
    Ok(())
}
