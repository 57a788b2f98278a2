//! Painting and erasing in a technology with contacts and a composed type, worked by hand.
ghost use Rattle.std.specs.Prelude.{◌≡◌, ◌<◌, length, IfOk, IfSome, IsTrue};

use crate::areas::{Bounds, is_sound, pieces, rect, rects};
use cell_paint::{CellPaint, PaintFault};
use geo_core::{Piece, Plane, PlaneFault, Rect, Square};
use std::alloc::Global;
use std::test::Fail;
use tech_file::read_tech;
use tech_model::{LayerId, Layers, Tech, TypeId};

/// nMOS: contacts, a composed type, three classes. Its types are poly, diff, efet, dfet, pc, dc, metal,
/// pc/metal, dc/metal, numbered from 1.
pub const NM: &[u8] = b"\
tech\n nm\nend\n\
planes\n active\n metal\nend\n\
types\n active poly,p,red\n active diff,d,green\n active efet\n active dfet\n active pc\n active dc\n metal metal,m,blue\nend\n\
contact\n pc poly metal\n dc diff metal\nend\n\
compose\n compose efet poly diff\nend\n\
connect\n poly,pc/active,efet,dfet poly,pc/active,efet,dfet\n diff,dc/active diff,dc/active\n \
metal,pc/metal,dc/metal metal,pc/metal,dc/metal\nend\n\
extract\n resist poly,pc/active 30000\n resist diff,dc/active 10000\n resist metal,pc/metal,dc/metal 30\n \
cap poly,pc/active 400 100\n cap diff,dc/active 1000 200\n cap metal,pc/metal,dc/metal 300 100\n \
fet efet diff,dc efet GND!\n fet dfet diff,dc dfet GND!\nend\n";

/// What is done with a layer over an area.
#[derive(Clone, Copy)]
pub enum Act {
    Paint,
    Erase,
}

pub type Step = (Act, &'static [u8], Bounds);

/// Steps, and then the number of the type at `x y` on a plane, 0 being active and 1 metal.
struct Row {
    steps: &'static [Step],
    kinds: &'static [(u8, i64, i64, u8)],
}

const ROWS: &[Row] = &[
    // Where both stand, poly and diff are efet (3).
    Row {
        steps: &[
            (Act::Paint, b"poly", [0, 2, 6, 4]),
            (Act::Paint, b"diff", [2, 0, 4, 6]),
        ],
        kinds: &[
            (0, 0, 2, 1),
            (0, 2, 0, 2),
            (0, 2, 2, 3),
            (0, 3, 3, 3),
            (0, 4, 3, 1),
            (0, 2, 4, 2),
            (0, 4, 4, 0),
            (1, 2, 2, 0),
        ],
    },
    // Of efet one part is left where the other is erased, by an alias too.
    Row {
        steps: &[
            (Act::Paint, b"efet", [0, 0, 3, 3]),
            (Act::Erase, b"p", [0, 0, 1, 3]),
            (Act::Erase, b"diff", [2, 0, 3, 3]),
        ],
        kinds: &[(0, 0, 2, 2), (0, 1, 1, 3), (0, 2, 0, 1)],
    },
    // What does not stand whole is not erased.
    Row {
        steps: &[
            (Act::Paint, b"poly", [0, 0, 2, 2]),
            (Act::Erase, b"efet", [0, 0, 2, 2]),
        ],
        kinds: &[(0, 1, 1, 1)],
    },
    // A contact stands on both planes: dc (6) and dc/metal (9).
    Row {
        steps: &[(Act::Paint, b"dc", [0, 0, 2, 2])],
        kinds: &[(0, 0, 0, 6), (1, 0, 0, 9), (0, 2, 0, 0), (1, 2, 0, 0)],
    },
    // Poly over half of it takes the place of dc there, and the mark off metal.
    Row {
        steps: &[
            (Act::Paint, b"dc", [0, 0, 2, 2]),
            (Act::Paint, b"poly", [0, 0, 1, 2]),
        ],
        kinds: &[(0, 0, 1, 1), (1, 0, 1, 7), (0, 1, 1, 6), (1, 1, 1, 9)],
    },
    // Another contact takes its place.
    Row {
        steps: &[
            (Act::Paint, b"dc", [0, 0, 2, 2]),
            (Act::Paint, b"pc", [1, 0, 3, 2]),
        ],
        kinds: &[
            (0, 0, 0, 6),
            (1, 0, 0, 9),
            (0, 1, 0, 5),
            (1, 1, 0, 8),
            (0, 2, 0, 5),
            (1, 2, 0, 8),
        ],
    },
    // Erased metal takes the mark off active: diff is left.
    Row {
        steps: &[
            (Act::Paint, b"dc", [0, 0, 2, 2]),
            (Act::Erase, b"metal", [0, 0, 2, 1]),
        ],
        kinds: &[(0, 1, 0, 2), (1, 1, 0, 0), (0, 1, 1, 6), (1, 1, 1, 9)],
    },
    // An erased contact leaves nothing.
    Row {
        steps: &[
            (Act::Paint, b"dc", [0, 0, 2, 2]),
            (Act::Erase, b"dc", [1, 1, 2, 2]),
        ],
        kinds: &[(0, 1, 1, 0), (1, 1, 1, 0), (0, 0, 1, 6), (1, 0, 1, 9)],
    },
    // Layers of two planes do not meet, and a contact joins them.
    Row {
        steps: &[
            (Act::Paint, b"metal", [0, 0, 3, 3]),
            (Act::Paint, b"diff", [0, 0, 3, 3]),
            (Act::Paint, b"pc", [1, 1, 2, 2]),
        ],
        kinds: &[(0, 0, 0, 2), (1, 0, 0, 7), (0, 1, 1, 5), (1, 1, 1, 8)],
    },
    // The far corners of the range.
    Row {
        steps: &[
            (
                Act::Paint,
                b"poly",
                [67108857, 67108857, 67108858, 67108858],
            ),
            (
                Act::Paint,
                b"metal",
                [-67108858, -67108858, -67108857, -67108857],
            ),
        ],
        kinds: &[
            (0, 67108857, 67108857, 1),
            (0, 67108858, 67108857, 0),
            (1, -67108858, -67108858, 7),
            (1, -67108857, -67108858, 0),
        ],
    },
];

/// The layer of a name, if the technology has it.
fn layer_of(tech: &Tech, name: &[u8]) -> Option<LayerId>
    ensures { IfSome result (λ layer. layer.0 < length tech.now.layers) }
{
    let layer = tech.layer(name)?;
    if usize::from(layer.0) < tech.raw().layers.items().len() {
        Some(layer)
    } else {
        None
    }
}

/// Takes one step. A layer that there isn't changes nothing.
fn take(tech: &Tech, cell: &mut CellPaint, step: &Step) -> Result<(), PaintFault>
    requires { cell.old.kinds ≡ tech.now.types }
    ensures kinds { cell.new.kinds ≡ tech.now.types }
    ensures planes { length cell.new.planes ≡ length cell.old.planes }
{
    let (act, name, bounds) = *step;
    match layer_of(tech, name) {
        Some(layer) => match act {
            Act::Paint => cell.paint(tech, layer, rect(bounds)),
            Act::Erase => cell.erase(tech, layer, rect(bounds)),
        },
        None => Ok(()),
    }
}

/// A cell after these steps.
pub fn painted(alloc: Global, tech: &Tech, steps: &[Step]) -> Result<CellPaint, PaintFault>
    ensures kinds { IfOk result (λ cell. cell.kinds ≡ tech.now.types) }
    ensures planes { IfOk result (λ cell. length cell.planes ≡ length tech.now.planes) }
{
    let mut cell = CellPaint::new(alloc, tech)?;
    for step in steps {
        take(tech, &mut cell, step)?;
    }
    Ok(cell)
}

fn has_kinds(alloc: Global, tech: &Tech, row: &Row) -> Result<bool, PaintFault> {
    let cell = painted(alloc, tech, row.steps)?;
    for &(plane, x, y, kind) in row.kinds {
        if cell.kind_at(plane, Square { x, y }) != Some(TypeId(kind)) {
            return Ok(false);
        }
    }
    Ok(true)
}

#[test]
fn squares_get_their_types(rt: HostRuntime) -> Result<(), Fail> {
    let tech = read_tech(rt.alloc(), NM)?;
    for row in ROWS {
        assert!(rt; has_kinds(rt.alloc(), &tech, row)?);
    }
    Ok(())
}

/// Poly and diff that cross.
const CROSSING: &[Step] = &[
    (Act::Paint, b"poly", [0, 2, 6, 4]),
    (Act::Paint, b"diff", [2, 0, 4, 6]),
];

/// A question of the active plane of the crossing, and its answer.
#[derive(Clone, Copy)]
enum Asked {
    /// The tiles in an area.
    Tiles(Bounds, &'static [(Bounds, u8)]),
    /// The same, as `Layers` has them.
    Material(Bounds, &'static [(Bounds, u8)]),
    Strips(u8, &'static [Bounds]),
    /// The strips of a number on the plane that is kept.
    Stitched(u8, &'static [Bounds]),
    Box(Bounds),
}

const QUESTIONS: &[Asked] = &[
    Asked::Tiles(
        [3, 1, 5, 5],
        &[
            ([3, 1, 4, 2], 2),
            ([3, 2, 4, 4], 3),
            ([4, 2, 5, 4], 1),
            ([3, 4, 4, 5], 2),
        ],
    ),
    Asked::Material([-1, -1, 9, 1], &[([2, 0, 4, 1], 2)]),
    Asked::Strips(1, &[[0, 2, 2, 4], [4, 2, 6, 4]]),
    Asked::Strips(9, &[]),
    Asked::Stitched(2, &[[2, 0, 4, 2], [2, 4, 4, 6]]),
    Asked::Stitched(3, &[[2, 2, 4, 4]]),
    Asked::Box([0, 0, 6, 6]),
];

fn has_tiles(cell: &CellPaint, area: Rect, want: &[Piece]) -> Result<bool, PaintFault>
    requires { 0 < length cell.now.planes }
{
    if !is_sound(&area) {
        return Ok(false);
    }
    Ok(cell.tiles_in(0, area)?.as_slice() == want)
}

fn has_strips(cell: &CellPaint, kind: u8, want: &[Rect]) -> Result<bool, PaintFault>
    requires { 0 < length cell.now.planes }
{
    if kind == 0 {
        return Ok(false);
    }
    Ok(cell.strips(0, TypeId(kind))?.as_slice() == want)
}

fn has_stitched(cell: &CellPaint, value: u8, want: &[Rect]) -> Result<bool, PlaneFault>
    requires { 0 < length cell.now.planes }
{
    if value == 0 {
        return Ok(false);
    }
    Ok(cell.stitched(0).strips(value)?.as_slice() == want)
}

fn has_material(alloc: Global, cell: &CellPaint, area: Rect, want: &[Piece]) -> Result<bool, Fail> {
    if !is_sound(&area) {
        return Ok(false);
    }
    let mut found = Vec::new(alloc);
    for (area, kind) in cell.tiles(alloc, 0, area)? {
        found.push(Piece {
            area,
            value: kind.0,
        })?;
    }
    Ok(found.as_slice() == want)
}

/// Whether the crossing has planes and the question its answer.
fn is_answered(alloc: Global, cell: &CellPaint, asked: Asked) -> Result<bool, Fail>
    requires { 0 < length cell.now.planes }
{
    match asked {
        Asked::Tiles(area, want) => {
            Ok(has_tiles(cell, rect(area), pieces(alloc, want)?.as_slice())?)
        }
        Asked::Material(area, want) => {
            has_material(alloc, cell, rect(area), pieces(alloc, want)?.as_slice())
        }
        Asked::Strips(kind, want) => Ok(has_strips(cell, kind, rects(alloc, want)?.as_slice())?),
        Asked::Stitched(value, want) => {
            Ok(has_stitched(cell, value, rects(alloc, want)?.as_slice())?)
        }
        Asked::Box(want) => Ok(cell.box_of() == Some(rect(want))),
    }
}

/// Asks a question of a crossing.
fn is_told(alloc: Global, tech: &Tech, asked: Asked) -> Result<bool, Fail> {
    if tech.raw().planes.items().is_empty() {
        return Ok(false);
    }
    let cell = painted(alloc, tech, CROSSING)?;
    is_answered(alloc, &cell, asked)
}

#[test]
fn a_crossing_has_its_tiles_and_strips(rt: HostRuntime) -> Result<(), Fail> {
    let tech = read_tech(rt.alloc(), NM)?;
    for asked in QUESTIONS {
        assert!(rt; is_told(rt.alloc(), &tech, *asked)?);
    }
    Ok(())
}

/// Areas that are refused, and why.
const REFUSED: &[(Bounds, PaintFault)] = &[
    ([0, 0, 0, 5], PaintFault::EmptyRect),
    ([0, 5, 5, 5], PaintFault::EmptyRect),
    ([5, 0, 0, 5], PaintFault::EmptyRect),
    ([67108859, 0, 67108859, 1], PaintFault::EmptyRect),
    ([67108858, 0, 67108859, 1], PaintFault::OutOfRange),
    ([0, -67108859, 1, 0], PaintFault::OutOfRange),
];

/// Whether neither painting nor erasing is done, for the reason, and the cell stays empty.
fn is_refused(alloc: Global, tech: &Tech, area: Rect, why: PaintFault) -> Result<bool, PaintFault> {
    let Some(layer) = layer_of(tech, b"poly") else {
        return Ok(false);
    };
    let mut cell = CellPaint::new(alloc, tech)?;
    let refused = cell.paint(tech, layer, area) == Err(why)
        && cell.erase(tech, layer, area) == Err(why);
    Ok(refused && cell.box_of().is_none())
}

#[test]
fn bad_areas_are_refused(rt: HostRuntime) -> Result<(), Fail> {
    let tech = read_tech(rt.alloc(), NM)?;
    for (bounds, why) in REFUSED {
        assert!(rt; is_refused(rt.alloc(), &tech, rect(*bounds), *why)?);
    }
    Ok(())
}

/// Lists of areas of one layer, painted one list after the other. Areas overlap within a list and over lists.
const SECTIONS: &[(&[u8], &[Bounds])] = &[
    (
        b"poly",
        &[[0, 0, 6, 4], [4, 2, 9, 7], [5, 3, 6, 4], [12, 0, 13, 9]],
    ),
    (b"diff", &[[2, 1, 5, 9], [2, 1, 5, 3], [8, 0, 14, 2]]),
    (b"dc", &[[3, 5, 8, 8], [7, 7, 9, 9]]),
    (b"metal", &[[0, 6, 14, 7], [6, 0, 7, 14]]),
    (b"pc", &[]),
];

/// Paints a list of areas, all at once.
fn take_together(
    alloc: Global,
    tech: &Tech,
    cell: &mut CellPaint,
    name: &[u8],
    list: &[Bounds],
) -> Result<(), PaintFault>
    requires { cell.old.kinds ≡ tech.now.types }
    ensures { cell.new.kinds ≡ tech.now.types }
{
    match layer_of(tech, name) {
        Some(layer) => cell.paint_all(tech, layer, rects(alloc, list)?.as_slice()),
        None => Ok(()),
    }
}

/// Paints a list of areas, one after the other.
fn take_in_turn(
    tech: &Tech,
    cell: &mut CellPaint,
    name: &[u8],
    list: &[Bounds],
) -> Result<(), PaintFault>
    requires { cell.old.kinds ≡ tech.now.types }
    ensures { cell.new.kinds ≡ tech.now.types }
{
    for area in list {
        if let Some(layer) = layer_of(tech, name) {
            cell.paint(tech, layer, rect(*area))?;
        }
    }
    Ok(())
}

/// Whether two cells show the same types from -1 to 15 on the first three planes.
fn are_alike(cell: &CellPaint, other: &CellPaint) -> bool {
    for plane in 0..3 {
        for y in -1..16 {
            for x in -1..16 {
                if cell.kind_at(plane, Square { x, y }) != other.kind_at(plane, Square { x, y }) {
                    return false;
                }
            }
        }
    }
    true
}

/// Whether lists painted all at once give what they give one after the other, each time.
fn lists_are_painted(alloc: Global, tech: &Tech) -> Result<bool, PaintFault> {
    let mut cell = CellPaint::new(alloc, tech)?;
    let mut other = CellPaint::new(alloc, tech)?;
    for &(name, list) in SECTIONS {
        take_together(alloc, tech, &mut cell, name, list)?;
        take_in_turn(tech, &mut other, name, list)?;
        if !are_alike(&cell, &other) {
            return Ok(false);
        }
    }
    Ok(true)
}

#[test]
fn areas_are_painted_together(rt: HostRuntime) -> Result<(), Fail> {
    let tech = read_tech(rt.alloc(), NM)?;
    assert!(rt; lists_are_painted(rt.alloc(), &tech)?);
    Ok(())
}

/// Lists of areas that are refused for the first bad one, and why.
const REFUSED_LISTS: &[(&[Bounds], PaintFault)] = &[
    (
        &[[0, 0, 5, 5], [0, 0, 0, 5], [67108858, 0, 67108859, 1]],
        PaintFault::EmptyRect,
    ),
    (
        &[[0, 0, 5, 5], [67108858, 0, 67108859, 1], [0, 0, 0, 5]],
        PaintFault::OutOfRange,
    ),
];

/// Whether the list isn't painted, for the reason, and the cell stays empty.
fn is_list_refused(
    alloc: Global,
    tech: &Tech,
    list: &[Rect],
    why: PaintFault,
) -> Result<bool, PaintFault> {
    let Some(layer) = layer_of(tech, b"poly") else {
        return Ok(false);
    };
    let mut cell = CellPaint::new(alloc, tech)?;
    let refused = cell.paint_all(tech, layer, list) == Err(why);
    Ok(refused && cell.box_of().is_none())
}

#[test]
fn the_first_bad_area_of_a_list_is_told(rt: HostRuntime) -> Result<(), Fail> {
    let tech = read_tech(rt.alloc(), NM)?;
    for (list, why) in REFUSED_LISTS {
        let areas = rects(rt.alloc(), list)?;
        assert!(rt; is_list_refused(rt.alloc(), &tech, areas.as_slice(), *why)?);
    }
    Ok(())
}

/// Whether what stood in the area stands there again when it is put back, after a layer was erased there.
fn comes_back(alloc: Global, tech: &Tech, area: Rect) -> Result<bool, PaintFault> {
    let Some(layer) = layer_of(tech, b"diff") else {
        return Ok(false);
    };
    if !is_sound(&area) {
        return Ok(false);
    }
    let mut cell = painted(alloc, tech, CROSSING)?;
    cell.sound();
    let taken = cell.take_out(area)?;
    cell.erase(tech, layer, area)?;
    let whole = painted(alloc, tech, CROSSING)?;
    if are_alike(&cell, &whole) {
        return Ok(false);
    }
    cell.put_back(area, taken.as_slice())?;
    Ok(are_alike(&cell, &whole))
}

#[test]
fn what_was_taken_out_comes_back(rt: HostRuntime) -> Result<(), Fail> {
    let tech = read_tech(rt.alloc(), NM)?;
    assert!(rt; comes_back(rt.alloc(), &tech, rect([1, 1, 5, 5]))?);
    assert!(rt; comes_back(rt.alloc(), &tech, rect([-9, -9, 9, 9]))?);
    Ok(())
}
