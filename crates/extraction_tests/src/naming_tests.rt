//! Painted cells with labels, and their nodes with names, worked by hand.
ghost use Rattle.std.specs.Prelude.{◌≡◌, ◌<◌, length, All, IfOk, IfSome, IsTrue};
ghost use Rattle.geo_core.specs.Areas.{IsNear, IsSmall};
ghost use Rattle.names.specs.Labels.{IsLabelOf, IsLayerOf};

use crate::nm::NM;
use crate::rects::{Bounds, rect};
use cell_paint::{CellPaint, PaintFault};
use flood_nodes::regions;
use geo_core::{PLANE_EDGE, Rect};
use names::{Named, NamedNode, name_nodes};
use names_lists::Name;
use std::alloc::Global;
use std::test::Fail;
use tech_file::read_tech;
use tech_model::{Label, LayerId, Tech};

/// All squares that the cells of the table have.
const WINDOW: Rect = Rect {
    xlo: -999,
    ylo: -999,
    xhi: 999,
    yhi: 999,
};

/// A layer, or `space`, an area and a text.
type LabelRow = (&'static [u8], Bounds, &'static [u8]);

/// A node: the plane, the column and the row of its least place, the number of the type there, how many regions it has, and
/// its names.
type NodeRow = (u8, i64, i64, u8, usize, &'static [&'static [u8]]);

/// What is painted, the labels, the nodes and the unattached labels.
struct Row {
    paint: &'static [(&'static [u8], Bounds)],
    labels: &'static [LabelRow],
    nodes: &'static [NodeRow],
    unattached: &'static [&'static [u8]],
}

const ROWS: &[Row] = &[
    // An inverter.
    Row {
        paint: &[
            (b"poly", [0, 4, 2, 6]),
            (b"poly", [4, 4, 6, 6]),
            (b"poly", [4, 12, 6, 14]),
            (b"diff", [2, 2, 4, 4]),
            (b"diff", [2, 6, 4, 8]),
            (b"diff", [2, 10, 4, 12]),
            (b"diff", [2, 14, 4, 18]),
            (b"efet", [2, 4, 4, 6]),
            (b"dfet", [2, 12, 4, 14]),
            (b"pc", [4, 10, 6, 12]),
            (b"dc", [2, 0, 4, 2]),
            (b"dc", [2, 8, 4, 10]),
            (b"dc", [2, 18, 4, 20]),
            (b"metal", [4, 8, 6, 10]),
        ],
        labels: &[
            (b"poly", [0, 4, 0, 6], b"in"),
            (b"metal", [4, 8, 6, 10], b"out"),
            (b"dc", [2, 0, 4, 2], b"GND!"),
            (b"dc", [2, 18, 4, 20], b"Vdd!"),
        ],
        nodes: &[
            (0, 2, 0, 6, 1, &[b"GND!"]),
            (0, 0, 4, 1, 1, &[b"in"]),
            (0, 2, 6, 2, 1, &[b"out"]),
            (0, 2, 14, 2, 1, &[b"Vdd!"]),
        ],
        unattached: &[],
    },
    // A point touches the four squares round it.
    Row {
        paint: &[
            (b"poly", [0, 0, 1, 1]),
            (b"poly", [-3, -3, -2, -2]),
            (b"poly", [4, 4, 5, 5]),
        ],
        labels: &[
            (b"poly", [1, 1, 1, 1], b"a"),
            (b"poly", [-2, -2, -2, -2], b"b"),
            (b"poly", [4, 5, 4, 5], b"c"),
            (b"poly", [6, 5, 6, 5], b"d"),
        ],
        nodes: &[
            (0, -3, -3, 1, 1, &[b"b"]),
            (0, 0, 0, 1, 1, &[b"a"]),
            (0, 4, 4, 1, 1, &[b"c"]),
        ],
        unattached: &[b"d"],
    },
    // Nothing is attached to where there is no material of the layer, nor to space.
    Row {
        paint: &[(b"poly", [0, 0, 2, 2])],
        labels: &[
            (b"poly", [5, 5, 6, 6], b"lost"),
            (b"space", [0, 0, 2, 2], b"s"),
            (b"metal", [0, 0, 2, 2], b"m"),
            (b"poly", [2, 0, 3, 2], b"beside"),
        ],
        nodes: &[(0, 0, 0, 1, 1, &[b"poly_0_0#"])],
        unattached: &[b"lost", b"s", b"m", b"beside"],
    },
    // Of two labels with one text the first that attaches counts.
    Row {
        paint: &[(b"poly", [0, 0, 1, 1]), (b"poly", [4, 0, 5, 1])],
        labels: &[
            (b"poly", [9, 9, 10, 10], b"w"),
            (b"poly", [4, 0, 5, 1], b"w"),
            (b"poly", [0, 0, 1, 1], b"w"),
        ],
        nodes: &[(0, 0, 0, 1, 1, &[b"poly_0_0#"]), (0, 4, 0, 1, 1, &[b"w"])],
        unattached: &[b"w", b"w"],
    },
    // Global names join regions to one node.
    Row {
        paint: &[
            (b"poly", [4, 0, 5, 1]),
            (b"poly", [0, 0, 1, 1]),
            (b"metal", [0, 0, 1, 1]),
            (b"diff", [8, 0, 9, 1]),
        ],
        labels: &[
            (b"poly", [4, 0, 5, 1], b"z"),
            (b"poly", [4, 0, 5, 1], b"y!"),
            (b"poly", [0, 0, 1, 1], b"y!"),
            (b"poly", [0, 0, 1, 1], b"x!"),
            (b"metal", [0, 0, 1, 1], b"x!"),
        ],
        nodes: &[
            (0, 0, 0, 1, 3, &[b"x!", b"y!", b"z"]),
            (0, 8, 0, 2, 1, &[b"diff_8_0#"]),
        ],
        unattached: &[],
    },
    // Texts that don't name, and the order of those that do.
    Row {
        paint: &[(b"metal", [-3, -2, -1, 0]), (b"poly", [0, 0, 3, 1])],
        labels: &[
            (b"metal", [-3, -2, -1, 0], b"a/b"),
            (b"metal", [-3, -2, -1, 0], b"a#"),
            (b"metal", [-3, -2, -1, 0], b"a b"),
            (b"metal", [-3, -2, -1, 0], b"a\"b"),
            (b"metal", [-3, -2, -1, 0], b""),
            (b"metal", [-3, -2, -1, 0], b"a\x7f"),
            (b"poly", [0, 0, 3, 1], b"bb"),
            (b"poly", [0, 0, 3, 1], b"c#d"),
            (b"poly", [0, 0, 3, 1], b"d"),
            (b"poly", [0, 0, 3, 1], b"long!"),
            (b"poly", [1, 0, 3, 1], b"long!"),
            (b"poly", [0, 0, 3, 1], b"B"),
        ],
        nodes: &[
            (0, 0, 0, 1, 1, &[b"long!", b"B", b"d", b"bb", b"c#d"]),
            (1, -3, -2, 7, 1, &[b"metal_n3_n2#"]),
        ],
        unattached: &[b"a/b", b"a#", b"a b", b"a\"b", b"", b"a\x7f"],
    },
    // Poly is within efet, and diff, which doesn't connect to it, is not; metal is within a contact's metal.
    Row {
        paint: &[(b"efet", [0, 0, 2, 2]), (b"pc", [5, 0, 7, 2])],
        labels: &[
            (b"diff", [0, 0, 2, 2], b"d"),
            (b"poly", [1, 1, 2, 2], b"g"),
            (b"metal", [5, 0, 7, 2], b"m"),
            (b"pc", [6, 1, 7, 2], b"p"),
            (b"dc", [5, 0, 7, 2], b"q"),
        ],
        nodes: &[(0, 0, 0, 3, 1, &[b"g"]), (0, 5, 0, 5, 1, &[b"m", b"p"])],
        unattached: &[b"d", b"q"],
    },
    // The least place that a label touches is looked for by row and then by column.
    Row {
        paint: &[
            (b"poly", [0, 0, 1, 9]),
            (b"poly", [2, 3, 3, 4]),
            (b"poly", [4, 2, 5, 9]),
        ],
        labels: &[
            (b"poly", [1, 0, 9, 9], b"low"),
            (b"poly", [-9, 1, 9, 9], b"left"),
            (b"poly", [2, 3, 5, 4], b"next"),
        ],
        nodes: &[
            (0, 0, 0, 1, 1, &[b"left"]),
            (0, 4, 2, 1, 1, &[b"low"]),
            (0, 2, 3, 1, 1, &[b"next"]),
        ],
        unattached: &[],
    },
    Row {
        paint: &[],
        labels: &[(b"poly", [0, 0, 1, 1], b"a!")],
        nodes: &[],
        unattached: &[b"a!"],
    },
];

/// The layer of a name, if the technology has it.
fn layer_of(tech: &Tech, name: &[u8]) -> Option<LayerId>
    ensures { IsLayerOf tech.now result }
{
    let layer = tech.layer(name)?;
    if usize::from(layer.0) < tech.raw().layers.items().len() {
        Some(layer)
    } else {
        None
    }
}

/// Whether a coordinate lies between the edges of planes.
fn is_small(z: i64) -> bool
    ensures { IsTrue result → IsSmall z }
{
    -PLANE_EDGE < z && z < PLANE_EDGE
}

/// Whether a rectangle lies between the edges of planes.
fn is_near(area: &Rect) -> bool
    ensures { IsTrue result → IsNear area.now }
{
    is_small(area.xlo) && is_small(area.ylo) && is_small(area.xhi) && is_small(area.yhi)
}

/// Paints a layer over an area. A layer that there isn't changes nothing.
fn paint(tech: &Tech, cell: &mut CellPaint, name: &[u8], area: Rect) -> Result<(), PaintFault>
    requires { cell.old.kinds ≡ tech.now.types }
    ensures kinds { cell.new.kinds ≡ tech.now.types }
    ensures planes { length cell.new.planes ≡ length cell.old.planes }
{
    match layer_of(tech, name) {
        Some(layer) => cell.paint(tech, layer, area),
        None => Ok(()),
    }
}

/// A cell with this paint.
fn painted(
    alloc: Global,
    tech: &Tech,
    areas: &[(&'static [u8], Bounds)],
) -> Result<CellPaint, PaintFault>
    ensures kinds { IfOk result (λ cell. cell.kinds ≡ tech.now.types) }
    ensures planes { IfOk result (λ cell. length cell.planes ≡ length tech.now.planes) }
{
    let mut cell = CellPaint::new(alloc, tech)?;
    for (name, bounds) in areas {
        paint(tech, &mut cell, name, rect(*bounds))?;
    }
    Ok(cell)
}

/// A label, if its area lies between the edges of planes.
fn label_of(alloc: Global, tech: &Tech, row: &LabelRow) -> Result<Label, Fail>
    ensures { IfOk result (IsLabelOf tech.now) }
{
    let (layer, bounds, text) = *row;
    let area = rect(bounds);
    if !is_near(&area) {
        return Err("far".into());
    }
    Ok(Label {
        layer: layer_of(tech, layer),
        area,
        position: 0,
        text: Name::of(alloc, text)?,
    })
}

fn labels_of(alloc: Global, tech: &Tech, rows: &[LabelRow]) -> Result<Vec<Label>, Fail>
    ensures { IfOk result (λ labels. All (IsLabelOf tech.now) labels.items) }
{
    let mut labels = Vec::new(alloc);
    for row in rows {
        labels.push(label_of(alloc, tech, row)?)?;
    }
    Ok(labels)
}

/// The nodes of all that the cell has in the window.
fn named_in(alloc: Global, tech: &Tech, cell: &CellPaint, labels: &[Label]) -> Result<Named, Fail>
    requires kinds { cell.now.kinds ≡ tech.now.types }
    requires planes { length cell.now.planes ≡ length tech.now.planes }
    requires labels { All (IsLabelOf tech.now) labels.now }
{
    // The proof takes from these calls that the technology is well formed and the paint sound.
    let _ = tech.raw();
    let _ = cell.box_of();
    let found = regions(alloc, tech, cell, WINDOW)?;
    Ok(name_nodes(alloc, tech, &found, labels)?)
}

/// Whether the names are these texts.
fn are_texts(names: &[Name], want: &[&'static [u8]]) -> bool {
    names.len() == want.len()
        && names
            .iter()
            .zip(want)
            .all(|(name, text)| name.bytes() == *text)
}

fn is_node(node: &NamedNode, want: &NodeRow) -> bool {
    let (plane, x, y, kind, count, names) = *want;
    node.plane == plane
        && node.least.x == x
        && node.least.y == y
        && node.kind.0 == kind
        && node.regions.items().len() == count
        && are_texts(node.names.items(), names)
}

fn are_nodes(nodes: &[NamedNode], want: &[NodeRow]) -> bool {
    if nodes.len() != want.len() {
        return false;
    }
    for k in 0..nodes.len() {
        if !is_node(&nodes[k], &want[k]) {
            return false;
        }
    }
    true
}

fn is_named(alloc: Global, tech: &Tech, row: &Row) -> Result<bool, Fail> {
    let cell = painted(alloc, tech, row.paint)?;
    let labels = labels_of(alloc, tech, row.labels)?;
    let named = named_in(alloc, tech, &cell, labels.as_slice())?;
    Ok(
        are_nodes(named.nodes.items(), row.nodes)
            && are_texts(named.unattached.items(), row.unattached),
    )
}

#[test]
fn nodes_have_their_names(rt: HostRuntime) -> Result<(), Fail> {
    let tech = read_tech(rt.alloc(), NM)?;
    for row in ROWS {
        assert!(rt; is_named(rt.alloc(), &tech, row)?);
    }
    Ok(())
}
