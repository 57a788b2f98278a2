//! Painted parts, and where they spoil each other on the active plane.
ghost use Rattle.std.specs.Prelude.{◌≡◌, ◌<◌, IsTrue, IfOk, IfSome, All, length};
ghost use Rattle.geo_core.specs.Areas.{widened, IsNear};
ghost use Rattle.geo_core.specs.Covering.{IsProper};
ghost use Rattle.layout_model.specs.LayerTypes.{AreTypesOf};
ghost use Rattle.cell_paint.specs.Paints.{seen_kind};

use crate::nm::NM;
use crate::rects::{Bounds, are_listed, rect};
use cell_paint::{CellPaint, PaintFault};
use geo_core::Rect;
use offences::offending;
use std::alloc::Global;
use std::test::Fail;
use tech_file::read_tech;
use tech_model::{LayerId, Tech};

/// Layers that are painted over areas.
type Paints = &'static [(&'static [u8], Bounds)];

/// The paint of each part, the area that is asked for, and the strips of what offends in it.
type Row = (&'static [Paints], Bounds, &'static [Bounds]);

/// An area round all parts of the table.
const ALL: Bounds = [-9, -9, 9, 9];

/// A transistor of crossing wires.
const CROSSING: Paints = &[(b"poly", [0, 2, 6, 4]), (b"diff", [2, 0, 4, 6])];

/// A transistor with a terminal below its channel.
const CHANNEL: Paints = &[(b"dfet", [2, 2, 4, 4]), (b"diff", [2, 0, 4, 2])];

/// A piece on the right of those channels.
const BESIDE: Paints = &[(b"diff", [4, 2, 5, 4])];

/// A wire.
const LEFT_WIRE: Paints = &[(b"poly", [0, 0, 4, 2])];

/// One that lies over the right half of it.
const RIGHT_WIRE: Paints = &[(b"poly", [2, 0, 6, 2])];

/// A contact over both wires.
const CONTACT: Paints = &[(b"pc", [1, 0, 3, 2])];

const ROWS: &[Row] = &[
    (&[], ALL, &[]),
    // A part alone spoils nothing, nor do wires of one layer and a contact of theirs.
    (&[CROSSING], ALL, &[]),
    (&[LEFT_WIRE, RIGHT_WIRE, CONTACT], ALL, &[]),
    // Poly of one part crosses diff of another: a channel comes.
    (
        &[&[(b"poly", [0, 2, 6, 4])], &[(b"diff", [2, 0, 4, 6])]],
        ALL,
        &[[2, 2, 4, 4]],
    ),
    // No type is a contact to poly and diff together.
    (&[&[(b"diff", [0, 0, 4, 2])], CONTACT], ALL, &[[1, 0, 3, 2]]),
    // Diff over poly makes a channel wider: it is nobody's there, and the column beside it changes.
    (&[CROSSING, BESIDE], ALL, &[[3, 2, 5, 4]]),
    // Diff beside a channel gives it another terminal.
    (&[CHANNEL, BESIDE], ALL, &[[3, 2, 4, 4]]),
    // Over a terminal that the channel has it changes nothing.
    (&[&[(b"diff", [2, -1, 4, 2])], CHANNEL], ALL, &[]),
    // A channel of two parts.
    (&[CHANNEL, CHANNEL], ALL, &[[2, 2, 4, 4]]),
    // The area cuts what is found, though what stands outside it still counts.
    (&[CHANNEL, BESIDE], [2, 3, 4, 9], &[[3, 3, 4, 4]]),
    (&[CHANNEL, BESIDE], [0, 0, 3, 9], &[]),
];

/// The layer of a name, if the technology has it.
fn layer_of(tech: &Tech, name: &[u8]) -> Option<LayerId>
    ensures { IfSome result (λ layer. layer.0 < length tech.now.layers) }
{
    let layer = tech.layer(name)?;
    if usize::from(layer.0) < tech.raw().layers.items().len() {
        Some(layer)
    } else {
        None
    }
}

/// A part with that paint. A layer that there isn't adds nothing.
fn painted(alloc: Global, tech: &Tech, paints: &[(&[u8], Bounds)]) -> Result<CellPaint, PaintFault>
    ensures { IfOk result (λ part. AreTypesOf tech.now (seen_kind part)) }
{
    let mut part = CellPaint::new(alloc, tech)?;
    for (name, bounds) in paints {
        if let Some(layer) = layer_of(tech, name) {
            part.paint(tech, layer, rect(*bounds))?;
        }
    }
    // The proof takes from these calls that the technology is well formed and the paint sound.
    let _ = tech.raw();
    part.sound();
    Ok(part)
}

/// The parts with each of the paints.
fn painted_parts(alloc: Global, tech: &Tech, table: &[Paints]) -> Result<Vec<CellPaint>, Fail>
    ensures { IfOk result (λ parts. All (λ part. AreTypesOf tech.now (seen_kind part)) parts.items) }
{
    let mut parts = Vec::new(alloc);
    for paints in table {
        parts.push(painted(alloc, tech, paints)?)?;
    }
    Ok(parts)
}

/// Whether it is an area as the call asks for.
fn is_area(area: &Rect) -> bool
    ensures proper { IsTrue result → IsProper area.now }
    ensures near { IsTrue result → IsNear (widened area.now) }
{
    -1000 < area.xlo
        && -1000 < area.ylo
        && area.xlo < area.xhi
        && area.ylo < area.yhi
        && area.xhi < 1000
        && area.yhi < 1000
}

/// Whether the row's strips are what offends in its area.
fn is_right(alloc: Global, tech: &Tech, row: &Row) -> Result<bool, Fail> {
    let (parts, area, strips) = *row;
    let parts = painted_parts(alloc, tech, parts)?;
    let area = rect(area);
    if !is_area(&area) {
        return Ok(false);
    }
    let found = offending(alloc, tech, parts.as_slice(), 0, area)?;
    Ok(are_listed(alloc, found.as_slice(), strips)?)
}

#[test]
fn parts_spoil_each_other(rt: HostRuntime) -> Result<(), Fail> {
    let tech = read_tech(rt.alloc(), NM)?;
    for row in ROWS {
        assert!(rt; is_right(rt.alloc(), &tech, row)?);
    }
    Ok(())
}
