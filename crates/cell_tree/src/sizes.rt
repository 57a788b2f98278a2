//! Hulls, numbers of elements and depths.
ghost use Rattle.std.specs.Prelude.{◌≡◌, ◌↔◌, ℕ, ◌+◌, ◌-◌, ◌*◌, ◌^◌, ◌<◌, ◌≤◌, ℤ, pos, neg_ℤ, ◌+ℤ◌, ◌≤ℤ◌, length, take, drop, IsTrue, Some};
ghost use Rattle.std.specs.Int.{int_min, int_max, w32};
ghost use Rattle.std.specs.Int.RustNames.{FitsSigned};
ghost use Rattle.geo_core.specs.declared.grids.Grid.{Grid as IsGrid};
ghost use Rattle.geo_core.specs.Elements.{indices};
ghost use Rattle.geo_core.specs.Reach.{SpansInReach};
ghost use Rattle.cell_tree.specs.declared.sizes.Dimension.{Dimension as IsDimension};
ghost use Rattle.cell_tree.specs.declared.use_tables.UseBody.{UseBody as IsUse};
ghost use Rattle.cell_tree.specs.Uses.{IsShift, IsLawfulGrid, IsLawfulUse, displacements};
ghost use Rattle.cell_tree.specs.Hulls.{IsPaintable, SpansInRange, round_both, round_all, element_hulls, way_of, spread_area};
ghost use Rattle.cell_tree.specs.Sizes.{size_at, size_of, IsHullInRange, IsWithin, added, with_use, grown, own_size, with_dimension};
ghost use Rattle.cell_tree.specs.Sizes.{with_or_without, AreAlike, AreUsesBelow, AreChildrenWithin};

use crate::limits::{
    MOST_DEPTH, MOST_ELEMENTS_BELOW, MOST_ELEMENTS_OF_USE, MOST_USES, SPREAD_EDGE,
};
use crate::use_tables::{UseBody, UseTable};
use geo_core::{Grid, MOST_ELEMENTS, PAINT_EDGE, Rect};

/// What stands at and below a cell: the smallest rectangle round all of it, how many elements that are, and how many cells the
/// longest chain of uses has.
#[derive(Clone, Copy, Debug, PartialEq, Eq)]
pub struct Size {
    pub hull: Option<Rect>,
    pub elements: u64,
    pub depth: u64,
}

/// What is measured of a cell, in the order in which limits refuse.
#[derive(Clone, Copy, Debug, PartialEq, Eq)]
pub enum Dimension {
    Depth,
    Elements,
    Hull,
}

/// The size of a cell without uses.
pub fn own_size(own: Option<Rect>) -> Size
    ensures { result ≡ own_size own }
{
    Size {
        hull: own,
        elements: 1,
        depth: 1,
    }
}

/// Whether the size keeps within the limit of this dimension.
pub fn is_within(dimension: Dimension, size: &Size) -> bool
    ensures { IsTrue result ↔ IsWithin dimension size.now }
{
    match dimension {
        Dimension::Depth => size.depth <= MOST_DEPTH,
        Dimension::Elements => size.elements <= MOST_ELEMENTS_BELOW,
        Dimension::Hull => is_near(&size.hull),
    }
}

// Whether the hull lies within the range of paint.
fn is_near(hull: &Option<Rect>) -> bool
    ensures { IsTrue result ↔ IsHullInRange hull.now }
{
    match hull {
        Some(area) => spans_in_range(area),
        None => true,
    }
}

// Whether the rectangle lies within the range of paint.
fn spans_in_range(area: &Rect) -> bool
    ensures { IsTrue result ↔ SpansInRange area.now }
{
    are_paintable(area.xlo, area.xhi) && are_paintable(area.ylo, area.yhi)
}

// Whether paint may have both coordinates.
fn are_paintable(low: i64, high: i64) -> bool
    ensures { IsTrue result ↔ (IsPaintable low × IsPaintable high) }
{
    is_paintable(low) && is_paintable(high)
}

// Whether paint may have this coordinate.
fn is_paintable(z: i64) -> bool
    ensures { IsTrue result ↔ IsPaintable z }
{
    -PAINT_EDGE <= z && z <= PAINT_EDGE
}

/// How many elements a use has.
fn count(grid: &Option<Grid>) -> u64
    requires { (g : IsGrid) → grid.now ≡ Some g → IsLawfulGrid g }
    ensures count { result ≡ length (displacements grid.now) }
    ensures few { result ≤ MOST_ELEMENTS }
{
    match grid {
        Some(grid) => grid.count(),
        None => 1,
    }
}

/// The smallest rectangle round both.
fn round_both(a: Option<Rect>, b: Option<Rect>) -> Option<Rect>
    ensures { result ≡ round_both a b }
{
    match (a, b) {
        (Some(a), Some(b)) => Some(a.joined(&b)),
        (Some(a), None) => Some(a),
        (None, b) => b,
    }
}

// The ends of a side, spread by so many steps of this length to one side.
fn spread(low: i64, high: i64, way: i64) -> (i64, i64)
    requires low_near { IsPaintable low }
    requires high_near { IsPaintable high }
    requires way_low { neg_ℤ SPREAD_EDGE ≤ℤ way }
    requires way_high { way ≤ℤ SPREAD_EDGE }
    ensures low { result.0 ≡ low +ℤ int_min way (pos 0) }
    ensures high { result.1 ≡ high +ℤ int_max way (pos 0) }
{
    (low + way.min(0), high + way.max(0))
}

// How far the last element is displaced along an index from `from` to `to`.
fn way(from: i64, to: i64, step: i64) -> i64
    requires few { indices from to ≤ MOST_ELEMENTS }
    requires from { FitsSigned w32 from }
    requires to { FitsSigned w32 to }
    requires step { IsShift step }
    ensures way { result ≡ way_of from to step }
    ensures low { neg_ℤ SPREAD_EDGE ≤ℤ result }
    ensures high { result ≤ℤ SPREAD_EDGE }
{
    from.abs_diff(to) as i64 * step
}

// The smallest rectangle round a child in all elements of a grid, in the child's coordinates.
fn spread_area(grid: &Grid, area: Rect) -> Rect
    requires grid { IsLawfulGrid grid.now }
    requires area { SpansInRange area }
    ensures spread { result ≡ spread_area grid.now area }
    ensures reach { SpansInReach result }
{
    let (xlo, xhi) = spread(area.xlo, area.xhi, way(grid.xlo, grid.xhi, grid.xsep));
    let (ylo, yhi) = spread(area.ylo, area.yhi, way(grid.ylo, grid.yhi, grid.ysep));
    Rect { xlo, ylo, xhi, yhi }
}

/// The smallest rectangle round the hulls of all elements of a use, for the hull of its child.
pub fn hull_below(used: &UseBody, hull: Option<Rect>) -> Option<Rect>
    requires lawful { IsLawfulUse used.now }
    requires near { IsHullInRange hull }
    ensures { result ≡ round_all (element_hulls used.now hull) }
{
    let Some(hull) = hull else { return None };
    let all = match &used.grid {
        Some(grid) => spread_area(grid, hull),
        None => hull,
    };
    Some(used.placed.rect(all))
}

/// A size with one more use, whose child has this size, as far as this dimension goes.
pub fn add_use(dimension: Dimension, size: &Size, used: &UseBody, child: &Size) -> Size
    requires lawful { IsLawfulUse used.now }
    requires within { IsWithin dimension child.now }
    requires few { size.now.elements < 2 ^ 62 }
    requires flat { size.now.depth ≤ MOST_DEPTH + 1 }
    ensures added { result ≡ added dimension size.now used.now child.now }
    ensures few { result.elements ≤ size.now.elements + MOST_ELEMENTS_OF_USE }
    ensures flat { result.depth ≤ MOST_DEPTH + 1 }
{
    match dimension {
        Dimension::Depth => Size {
            depth: size.depth.max(child.depth + 1),
            ..*size
        },
        Dimension::Elements => Size {
            elements: size.elements + count(&used.grid) * child.elements,
            ..*size
        },
        Dimension::Hull => Size {
            hull: round_both(size.hull, hull_below(used, child.hull)),
            ..*size
        },
    }
}

/// A size with one more use.
pub fn with_use(size: &Size, used: &UseBody, child: &Size) -> Size
    requires lawful { IsLawfulUse used.now }
    requires within { (dimension : IsDimension) → IsWithin dimension child.now }
    requires size_within { (dimension : IsDimension) → IsWithin dimension size.now }
    ensures { result ≡ with_use size.now used.now child.now }
{
    let deep = add_use(Dimension::Depth, size, used, child);
    let many = add_use(Dimension::Elements, &deep, used, child);
    add_use(Dimension::Hull, &many, used, child)
}

/// A size with the uses from one place of the table on, below another, as far as this dimension goes.
pub fn add_uses(
    dimension: Dimension,
    size: &Size,
    uses: &UseTable,
    from: usize,
    to: usize,
    sizes: &[Size],
) -> Size
    requires range { from ≤ to }
    requires end { to ≤ length uses.now.entries }
    requires most { to ≤ MOST_USES }
    requires lawful { AreUsesBelow (length sizes.now) uses.now.entries }
    requires within { AreChildrenWithin dimension (size_at sizes.now) uses.now.entries }
    requires few { size.now.elements ≤ 1 + from * MOST_ELEMENTS_OF_USE }
    requires flat { size.now.depth ≤ MOST_DEPTH + 1 }
    ensures grown { result ≡ grown dimension (size_at sizes.now) size.now (take (to - from) (drop from uses.now.entries)) }
    ensures few { result.elements ≤ 1 + to * MOST_ELEMENTS_OF_USE }
    ensures flat { result.depth ≤ MOST_DEPTH + 1 }
{
    let mut grown = *size;
    for k in from..to {
        let used = uses.body(k);
        let child = used.child.0;
        grown = add_use(dimension, &grown, used, &sizes[child]);
    }
    grown
}

/// What a cell measures in this dimension: the rest of the size says nothing.
pub fn measured(dimension: Dimension, own: Option<Rect>, uses: &UseTable, sizes: &[Size]) -> Size
    requires most { length uses.now.entries ≤ MOST_USES }
    requires lawful { AreUsesBelow (length sizes.now) uses.now.entries }
    requires within { AreChildrenWithin dimension (size_at sizes.now) uses.now.entries }
    ensures { AreAlike dimension result (size_of (size_at sizes.now) (record { own = own; uses = uses.now.entries })) }
{
    add_uses(dimension, &own_size(own), uses, 0, uses.len(), sizes)
}

/// A size whose value in this dimension is that of another.
pub fn with_dimension(dimension: Dimension, size: &Size, from: &Size) -> Size
    ensures { result ≡ with_dimension dimension size.now from.now }
{
    match dimension {
        Dimension::Depth => Size {
            depth: from.depth,
            ..*size
        },
        Dimension::Elements => Size {
            elements: from.elements,
            ..*size
        },
        Dimension::Hull => Size {
            hull: from.hull,
            ..*size
        },
    }
}

// A size as it was with the uses of the cell, in this dimension, but with another at a place, or none there.
fn refolded(
    dimension: Dimension,
    size: &Size,
    uses: &UseTable,
    at: usize,
    used: &Option<UseBody>,
    sizes: &[Size],
) -> Size
    requires at { at < length uses.now.entries }
    requires most { length uses.now.entries ≤ MOST_USES }
    requires lawful { AreUsesBelow (length sizes.now) uses.now.entries }
    requires body { (body : IsUse) → used.now ≡ Some body → IsLawfulUse body × (body.child.0 < length sizes.now) }
    requires within { (key : ℕ) → IsWithin dimension (size_at sizes.now key) }
    requires few { size.now.elements ≤ 1 }
    requires flat { size.now.depth ≤ 1 }
    ensures { result ≡ grown dimension (size_at sizes.now) size.now (with_or_without uses.now.entries at used.now) }
{
    let before = add_uses(dimension, size, uses, 0, at, sizes);
    let there = match used {
        Some(body) => {
            let child = body.child.0;
            add_use(dimension, &before, body, &sizes[child])
        }
        None => before,
    };
    add_uses(dimension, &there, uses, at + 1, uses.len(), sizes)
}

/// The size of a cell with this own box and these uses, but with another use at a place, or none there.
pub fn size_with(
    own: Option<Rect>,
    uses: &UseTable,
    at: usize,
    used: &Option<UseBody>,
    sizes: &[Size],
) -> Size
    requires at { at < length uses.now.entries }
    requires most { length uses.now.entries ≤ MOST_USES }
    requires lawful { AreUsesBelow (length sizes.now) uses.now.entries }
    requires body { (body : IsUse) → used.now ≡ Some body → IsLawfulUse body × (body.child.0 < length sizes.now) }
    requires within { (dimension : IsDimension) (key : ℕ) → IsWithin dimension (size_at sizes.now key) }
    ensures { result ≡ size_of (size_at sizes.now) (record { own = own; uses = with_or_without uses.now.entries at used.now }) }
{
    let own = own_size(own);
    let deep = refolded(Dimension::Depth, &own, uses, at, used, sizes);
    let many = refolded(Dimension::Elements, &own, uses, at, used, sizes);
    let wide = refolded(Dimension::Hull, &own, uses, at, used, sizes);
    Size {
        hull: wide.hull,
        elements: many.elements,
        depth: deep.depth,
    }
}
