//! Painted cells and their transistors.
ghost use Rattle.std.specs.Prelude.{◌≡◌, ◌<◌, length, IfOk, IfSome};

use crate::nm::NM;
use cell_paint::{CellPaint, PaintFault};
use fet_regions::{Fet, fets};
use flood_nodes::{Regions, regions};
use geo_core::{Rect, Square};
use std::alloc::{AllocError, Global};
use std::test::Fail;
use tech_file::read_tech;
use tech_model::{LayerId, Tech, TypeId};

/// All squares that the cells of the table have.
const WINDOW: Rect = Rect {
    xlo: -9,
    ylo: -9,
    xhi: 9,
    yhi: 9,
};

/// A square of the active plane.
type At = (i64, i64);

/// A transistor: the number of its type, its first square, its area and its perimeter, a square of its gate, and a square
/// of each terminal with the terminal's length.
struct Want {
    kind: u8,
    point: At,
    area: i128,
    perimeter: i128,
    gate: At,
    terminals: &'static [(At, i128)],
}

/// Layers that are painted over areas `xlo ylo xhi yhi`, and the transistors that there are then.
struct Row {
    paints: &'static [(&'static [u8], [i64; 4])],
    fets: &'static [Want],
}

const ROWS: &[Row] = &[
    // Poly and diff cross.
    Row {
        paints: &[(b"poly", [0, 2, 6, 4]), (b"diff", [2, 0, 4, 6])],
        fets: &[Want {
            kind: 3,
            point: (2, 2),
            area: 4,
            perimeter: 8,
            gate: (0, 2),
            terminals: &[((2, 0), 2), ((2, 4), 2)],
        }],
    },
    // The one below comes first, though it is to the right of the other.
    Row {
        paints: &[
            (b"poly", [-8, 5, -4, 6]),
            (b"diff", [-7, 4, -6, 7]),
            (b"poly", [0, 2, 4, 4]),
            (b"diff", [1, 0, 3, 6]),
        ],
        fets: &[
            Want {
                kind: 3,
                point: (1, 2),
                area: 4,
                perimeter: 8,
                gate: (3, 3),
                terminals: &[((1, 0), 2), ((2, 5), 2)],
            },
            Want {
                kind: 3,
                point: (-7, 5),
                area: 1,
                perimeter: 4,
                gate: (-8, 5),
                terminals: &[((-7, 4), 1), ((-7, 6), 1)],
            },
        ],
    },
    // One without a terminal.
    Row {
        paints: &[(b"dfet", [0, 0, 2, 2])],
        fets: &[Want {
            kind: 4,
            point: (0, 0),
            area: 4,
            perimeter: 8,
            gate: (1, 1),
            terminals: &[],
        }],
    },
    // One of two strips, whose first square is not the leftmost one.
    Row {
        paints: &[(b"dfet", [0, 0, 4, 2]), (b"dfet", [-1, 2, 1, 4])],
        fets: &[Want {
            kind: 4,
            point: (0, 0),
            area: 12,
            perimeter: 18,
            gate: (-1, 3),
            terminals: &[],
        }],
    },
    // A terminal in the corner of two strips, which touches both, is one.
    Row {
        paints: &[
            (b"dfet", [0, 0, 4, 2]),
            (b"dfet", [0, 2, 2, 4]),
            (b"diff", [2, 2, 4, 4]),
        ],
        fets: &[Want {
            kind: 4,
            point: (0, 0),
            area: 12,
            perimeter: 16,
            gate: (3, 1),
            terminals: &[((3, 3), 4)],
        }],
    },
    // So is one that leads round to the other side. Poly is no terminal.
    Row {
        paints: &[
            (b"dfet", [2, 2, 4, 4]),
            (b"diff", [0, 2, 2, 6]),
            (b"diff", [4, 2, 6, 6]),
            (b"diff", [0, 6, 6, 8]),
            (b"poly", [2, 0, 4, 2]),
        ],
        fets: &[Want {
            kind: 4,
            point: (2, 2),
            area: 4,
            perimeter: 8,
            gate: (2, 0),
            terminals: &[((0, 2), 4)],
        }],
    },
    // Channels of two types side by side are two, of one node. A contact is a terminal.
    Row {
        paints: &[
            (b"dfet", [0, 0, 2, 2]),
            (b"efet", [2, 0, 3, 2]),
            (b"dc", [-2, 0, 0, 2]),
        ],
        fets: &[
            Want {
                kind: 4,
                point: (0, 0),
                area: 4,
                perimeter: 8,
                gate: (2, 1),
                terminals: &[((-1, 1), 2)],
            },
            Want {
                kind: 3,
                point: (2, 0),
                area: 2,
                perimeter: 6,
                gate: (0, 0),
                terminals: &[],
            },
        ],
    },
    // No transistor.
    Row {
        paints: &[(b"poly", [0, 0, 2, 2]), (b"diff", [2, 0, 4, 2])],
        fets: &[],
    },
];

/// The layer of a name, if the technology has it.
fn layer_of(tech: &Tech, name: &[u8]) -> Option<LayerId>
    ensures { IfSome result (λ layer. layer.0 < length tech.now.layers) }
{
    let layer = tech.layer(name)?;
    if usize::from(layer.0) < tech.raw().layers.items().len() {
        Some(layer)
    } else {
        None
    }
}

/// Paints an area. A layer that there isn't changes nothing.
fn paint(tech: &Tech, cell: &mut CellPaint, name: &[u8], bounds: [i64; 4]) -> Result<(), PaintFault>
    requires { cell.old.kinds ≡ tech.now.types }
    ensures kinds { cell.new.kinds ≡ tech.now.types }
    ensures planes { length cell.new.planes ≡ length cell.old.planes }
{
    let [xlo, ylo, xhi, yhi] = bounds;
    match layer_of(tech, name) {
        Some(layer) => cell.paint(tech, layer, Rect { xlo, ylo, xhi, yhi }),
        None => Ok(()),
    }
}

/// A cell with that paint.
fn painted(
    alloc: Global,
    tech: &Tech,
    paints: &[(&[u8], [i64; 4])],
) -> Result<CellPaint, PaintFault>
    ensures kinds { IfOk result (λ cell. cell.kinds ≡ tech.now.types) }
    ensures planes { IfOk result (λ cell. length cell.planes ≡ length tech.now.planes) }
{
    let mut cell = CellPaint::new(alloc, tech)?;
    for (name, bounds) in paints {
        paint(tech, &mut cell, name, *bounds)?;
    }
    Ok(cell)
}

/// The regions of all that the cell has in the window.
fn regions_in(alloc: Global, tech: &Tech, cell: &CellPaint) -> Result<Regions, AllocError>
    requires kinds { cell.now.kinds ≡ tech.now.types }
    requires planes { length cell.now.planes ≡ length tech.now.planes }
{
    // The proof takes from these calls that the technology is well formed and the paint sound.
    let _ = tech.raw();
    let _ = cell.box_of();
    regions(alloc, tech, cell, WINDOW)
}

/// The number of the region of a square of the active plane, if it has one.
fn region_at(regions: &Regions, at: At) -> Option<usize> {
    let (x, y) = at;
    for tile in regions.tiles.items() {
        let area = &tile.area;
        if tile.plane == 0 && area.xlo <= x && x < area.xhi && area.ylo <= y && y < area.yhi {
            return Some(tile.region);
        }
    }
    None
}

/// Whether it is a terminal of the transistor, of this length.
fn has_terminal(regions: &Regions, fet: &Fet, at: At, length: i128) -> bool {
    match region_at(regions, at) {
        Some(region) => fet.terminals.items().contains(&(region, length)),
        None => false,
    }
}

/// Whether the transistor is the one that is wanted.
fn is_wanted(regions: &Regions, fet: &Fet, want: &Want) -> bool {
    let (x, y) = want.point;
    for &(at, length) in want.terminals {
        if !has_terminal(regions, fet, at, length) {
            return false;
        }
    }
    fet.terminals.items().len() == want.terminals.len()
        && fet.kind == TypeId(want.kind)
        && fet.point == Square { x, y }
        && fet.area == want.area
        && fet.perimeter == want.perimeter
        && region_at(regions, want.gate) == Some(fet.gate)
}

/// Whether the cell of a row has its transistors.
fn has_fets(alloc: Global, tech: &Tech, row: &Row) -> Result<bool, Fail> {
    let cell = painted(alloc, tech, row.paints)?;
    let regions = regions_in(alloc, tech, &cell)?;
    let found = fets(alloc, tech, &regions)?;
    for (fet, want) in found.iter().zip(row.fets) {
        if !is_wanted(&regions, fet, want) {
            return Ok(false);
        }
    }
    Ok(found.len() == row.fets.len())
}

#[test]
fn cells_have_their_transistors(rt: HostRuntime) -> Result<(), Fail> {
    let tech = read_tech(rt.alloc(), NM)?;
    for row in ROWS {
        assert!(rt; has_fets(rt.alloc(), &tech, row)?);
    }
    Ok(())
}
