//! The paint of a cell.
ghost use Rattle.std.specs.Prelude.{◌≡◌, ◌≢◌, ◌⊎◌, ◌<◌, ◌↔◌, ◌&&◌, false, true, length, IfOk, IfErr, IfSome, IsNone, OnOk};
ghost use Rattle.std.specs.Prelude.{OnErr, IsErrOf, IsOkUnless, Some, None, map, All, AllPairs, vec_len, [], ◌∷◌, ◌++◌};
ghost use Rattle.geo_core.specs.declared.squares.Square.{Square as OneSquare};
ghost use Rattle.geo_core.specs.Areas.{AreDisjoint, has_square, IsNear};
ghost use Rattle.geo_core.specs.Covering.{is_covered, IsProper};
ghost use Rattle.geo_core.specs.Planes.{HasValue, AreTilesIn};
ghost use Rattle.geo_core.specs.Strips.{IsInUnion, IsStrips};
ghost use Rattle.tech_model.specs.LayerTiles.{AreTilesOf};
ghost use Rattle.tech_model.specs.Columns.{brushed_column};
ghost use Rattle.layout_model.specs.Places.{Place};
ghost use Rattle.cell_paint.specs.Painting.{kinds_on, with_columns_where, is_in_some, with_paint, with_all_painted, with_erased};
ghost use Rattle.cell_paint.specs.Painting.{is_coordinate, is_in_range, area_fault, first_area_fault};
ghost use Rattle.cell_paint.specs.Paints.{layout_of, layout_on, number_on, KeepsTypes, IsPaintBox, IsSoundPaint, AreCellPlanes};
ghost use Rattle.cell_paint.specs.Pieces.{with_pieces, AreTakenOut, CanStandIn};
ghost use Rattle.cell_paint.specs.steps.Settings.{AreAllChanges};

use crate::brushes::Stroke;
use crate::changes::changes_on;
use crate::faults::PaintFault;
use crate::planes::{PaintPlane, box_of, commit_all, kind_at, reserve_all};
use crate::restorations::{put_back_on, tiles_of_all};
use geo_core::{PAINT_EDGE, Piece, Plane, Rect, Square};
use geo_strips::strips;
use names_lists::List;
use std::alloc::{AllocError, Global};
use std::marker::Model;
use tech_model::{Brush, LayerId, Layers, Tech, TypeId, TypeRec};
use tile_plane::TilePlane;

/// All squares that may have paint.
pub const PAINT_RANGE: Rect = Rect {
    xlo: -PAINT_EDGE,
    ylo: -PAINT_EDGE,
    xhi: PAINT_EDGE,
    yhi: PAINT_EDGE,
};

/// The paint of a cell: the tile type at each square of each plane of a technology.
///
/// Each plane has types of its own and space alone, all paint lies from `-PAINT_EDGE` to `PAINT_EDGE`, and where one
/// image of a contact stands, all of them stand. A call that is handed a technology asks for the one that the
/// paint was made for, which it knows by its tile types.
pub struct CellPaint {
    alloc: Global,
    kinds: List<TypeRec>,
    planes: Vec<PaintPlane>,
}

impl Drop for CellPaint {
    fn drop(self) {
        let CellPaint {
            alloc: _,
            kinds: _,
            planes: _,
        } = self;
    }
}

impl Model for CellPaint {
    ghost use Rattle.cell_paint.specs.Paints.{Paint, paint_code, AreCellPlanes};

    ghost Value = { Paint };

    ghost coded = { paint_code };

    ghost view = { λ paint. record { kinds = paint.kinds; planes = paint.planes.items } };

    ghost invariant = { λ paint. AreCellPlanes paint.kinds paint.planes.items };
}

impl CellPaint {
    /// No paint, for this technology. Want of memory alone refuses.
    pub fn new(alloc: Global, tech: &Tech) -> Result<CellPaint, PaintFault>
        ensures kinds { IfOk result (λ paint. paint.kinds ≡ tech.now.types) }
        ensures planes { IfOk result (λ paint. length paint.planes ≡ length tech.now.planes) }
        ensures empty { IfOk result (λ paint. (place : Place) → layout_of paint place ≡ 0) }
        ensures memory { IsOkUnless result PaintFault.Memory }
    {
        let raw = tech.raw();
        let kinds = List::of(Vec::from_slice(alloc, raw.types.items())?);
        let planes = empty_planes(alloc, raw.planes.items().len())?;
        Ok(CellPaint {
            alloc,
            kinds,
            planes,
        })
    }

    /// What holds of every cell's paint.
    pub fn sound(&self)
        ensures { IsSoundPaint self.now.kinds (layout_of self.now) }
    {
        let _ = &self.kinds;
    }

    /// Paints the layer over the area: on each plane of the layer a square gets the type with the parts of what stood
    /// there and of the layer's image, where there is one, and else the image.
    ///
    /// An area without a square is refused, and then one that goes past the range. A refusal changes nothing.
    pub fn paint(&mut self, tech: &Tech, layer: LayerId, area: Rect) -> Result<(), PaintFault>
        requires kinds { self.old.kinds ≡ tech.now.types }
        requires layer { layer.0 < length tech.now.layers }
        ensures painted { OnOk result ((place : Place) → layout_of self.new place ≡ with_paint tech.now layer.0 area (layout_of self.old) place) }
        ensures refused { OnErr result ((place : Place) → layout_of self.new place ≡ layout_of self.old place) }
        ensures kinds { self.new.kinds ≡ self.old.kinds }
        ensures planes { length self.new.planes ≡ length self.old.planes }
        ensures empty { IsErrOf result PaintFault.EmptyRect ↔ (has_square area ≡ false) }
        ensures range { IsErrOf result PaintFault.OutOfRange ↔ ((has_square area ≡ true) × (is_in_range area ≡ false)) }
        ensures never { IsErrOf result PaintFault.TooManyTiles → ⊥ }
    {
        let stroke = Stroke {
            tech,
            brush: Brush::Paint,
            layer,
        };
        self.change_one(&stroke, area)
    }

    /// Paints the layer over each of the areas in order, and takes the time of one paint of what they cover.
    ///
    /// It is refused for the first of the areas for which `paint` would be. A refusal changes nothing.
    pub fn paint_all(
        &mut self,
        tech: &Tech,
        layer: LayerId,
        areas: &[Rect],
    ) -> Result<(), PaintFault>
        requires kinds { self.old.kinds ≡ tech.now.types }
        requires layer { layer.0 < length tech.now.layers }
        ensures painted { OnOk result ((place : Place) → layout_of self.new place ≡ with_all_painted tech.now layer.0 areas.now (layout_of self.old) place) }
        ensures refused { OnErr result ((place : Place) → layout_of self.new place ≡ layout_of self.old place) }
        ensures kinds { self.new.kinds ≡ self.old.kinds }
        ensures planes { length self.new.planes ≡ length self.old.planes }
        ensures fits { OnOk result (first_area_fault areas.now ≡ None) }
        ensures fault { IfErr result (λ fault. (first_area_fault areas.now ≡ Some fault) ⊎ ((first_area_fault areas.now ≡ None) × (fault ≡ PaintFault.Memory))) }
    {
        // The proof takes from this call that the technology keeps the rules.
        let _ = tech.raw();
        let stroke = Stroke {
            tech,
            brush: Brush::Paint,
            layer,
        };
        self.change(&stroke, areas)
    }

    /// Erases the layer from the area: on each plane of the layer the parts of its image are taken away where all of
    /// them stand.
    ///
    /// It is refused as `paint` is, and a refusal changes nothing.
    pub fn erase(&mut self, tech: &Tech, layer: LayerId, area: Rect) -> Result<(), PaintFault>
        requires kinds { self.old.kinds ≡ tech.now.types }
        requires layer { layer.0 < length tech.now.layers }
        ensures erased { OnOk result ((place : Place) → layout_of self.new place ≡ with_erased tech.now layer.0 area (layout_of self.old) place) }
        ensures refused { OnErr result ((place : Place) → layout_of self.new place ≡ layout_of self.old place) }
        ensures kinds { self.new.kinds ≡ self.old.kinds }
        ensures planes { length self.new.planes ≡ length self.old.planes }
        ensures empty { IsErrOf result PaintFault.EmptyRect ↔ (has_square area ≡ false) }
        ensures range { IsErrOf result PaintFault.OutOfRange ↔ ((has_square area ≡ true) × (is_in_range area ≡ false)) }
        ensures never { IsErrOf result PaintFault.TooManyTiles → ⊥ }
    {
        let stroke = Stroke {
            tech,
            brush: Brush::Erase,
            layer,
        };
        self.change_one(&stroke, area)
    }

    // What `paint` and `erase` do.
    fn change_one(&mut self, stroke: &Stroke, area: Rect) -> Result<(), PaintFault>
        requires kinds { self.old.kinds ≡ stroke.now.tech.now.types }
        requires layer { stroke.now.layer.0 < length stroke.now.tech.now.layers }
        ensures changed { OnOk result ((place : Place) → layout_of self.new place
            ≡ with_columns_where (brushed_column stroke.now.tech.now stroke.now.brush stroke.now.layer.0) (is_covered area) (layout_of self.old) place) }
        ensures refused { OnErr result ((place : Place) → layout_of self.new place ≡ layout_of self.old place) }
        ensures kinds { self.new.kinds ≡ self.old.kinds }
        ensures planes { length self.new.planes ≡ length self.old.planes }
        ensures empty { IsErrOf result PaintFault.EmptyRect ↔ (has_square area ≡ false) }
        ensures range { IsErrOf result PaintFault.OutOfRange ↔ ((has_square area ≡ true) × (is_in_range area ≡ false)) }
        ensures never { IsErrOf result PaintFault.TooManyTiles → ⊥ }
    {
        self.change(stroke, &[area])
    }

    // Changes the paint as the stroke goes over the areas.
    fn change(&mut self, stroke: &Stroke, areas: &[Rect]) -> Result<(), PaintFault>
        requires kinds { self.old.kinds ≡ stroke.now.tech.now.types }
        requires layer { stroke.now.layer.0 < length stroke.now.tech.now.layers }
        ensures changed { OnOk result ((place : Place) → layout_of self.new place
            ≡ with_columns_where (brushed_column stroke.now.tech.now stroke.now.brush stroke.now.layer.0) (is_in_some areas.now) (layout_of self.old) place) }
        ensures refused { OnErr result ((place : Place) → layout_of self.new place ≡ layout_of self.old place) }
        ensures kinds { self.new.kinds ≡ self.old.kinds }
        ensures planes { length self.new.planes ≡ length self.old.planes }
        ensures fits { OnOk result (first_area_fault areas.now ≡ None) }
        ensures fault { IfErr result (λ fault. (first_area_fault areas.now ≡ Some fault) ⊎ ((first_area_fault areas.now ≡ None) × (fault ≡ PaintFault.Memory))) }
        ensures sound { KeepsTypes self.old.kinds (layout_of self.old) }
    {
        let planes = self.planes.as_mut_slice();
        check_areas(areas)?;
        change_planes(self.alloc, stroke, planes, areas)
    }

    /// The strips of every type of the plane that meet the area, each cut to it, by the `ylo` and then the `xlo` of the
    /// cut pieces. Want of memory alone refuses.
    pub fn tiles_in(&self, plane: u8, area: Rect) -> Result<Vec<Piece>, PaintFault>
        requires plane { plane < length self.now.planes }
        requires proper { IsProper area }
        requires near { IsNear area }
        ensures tiles { IfOk result (λ tiles. AreTilesIn (kinds_on (layout_of self.now) plane) area tiles.items) }
        ensures sound { IsSoundPaint self.now.kinds (layout_of self.now) }
        ensures memory { IsOkUnless result PaintFault.Memory }
    {
        let tiles = self.planes[usize::from(plane)].tiles_in(area)?;
        Ok(tiles)
    }

    /// The tiles of every plane in the area, plane by plane: with the number of its plane each strip of a type other than space that meets
    /// the area, cut to it. Want of memory alone refuses.
    pub fn take_out(&self, area: Rect) -> Result<Vec<(u8, Piece)>, PaintFault>
        requires proper { IsProper area }
        requires near { IsNear area }
        ensures taken { IfOk result (λ taken. AreTakenOut (layout_of self.now) area taken.items) }
        ensures pieces { IfOk result (λ taken. CanStandIn area (length self.now.planes) taken.items) }
        ensures memory { IsOkUnless result PaintFault.Memory }
    {
        let taken = tiles_of_all(self.alloc, self.planes.as_slice(), area)?;
        Ok(taken)
    }

    /// Puts the pieces in the area, and space between them. It takes its memory first. Want of memory alone refuses, and then no square
    /// changes.
    pub fn put_back(&mut self, area: Rect, pieces: &[(u8, Piece)]) -> Result<(), PaintFault>
        requires proper { IsProper area }
        requires near { IsNear area }
        requires pieces { CanStandIn area (length self.old.planes) pieces.now }
        requires sound { IsSoundPaint self.old.kinds (with_pieces area pieces.now (layout_of self.old)) }
        ensures put { OnOk result ((place : Place) → layout_of self.new place ≡ with_pieces area pieces.now (layout_of self.old) place) }
        ensures refused { OnErr result ((place : Place) → layout_of self.new place ≡ layout_of self.old place) }
        ensures kinds { self.new.kinds ≡ self.old.kinds }
        ensures planes { length self.new.planes ≡ length self.old.planes }
        ensures memory { IsOkUnless result PaintFault.Memory }
    {
        put_back_on(self.alloc, self.planes.as_mut_slice(), area, pieces)?;
        Ok(())
    }

    /// The strips of a type other than space on the plane. Want of memory alone refuses.
    pub fn strips(&self, plane: u8, kind: TypeId) -> Result<Vec<Rect>, PaintFault>
        requires plane { plane < length self.now.planes }
        requires kind { kind.0 ≢ 0 }
        ensures strips { IfOk result (λ strips. IsStrips (HasValue (kinds_on (layout_of self.now) plane) kind.0) strips.items) }
        ensures near { IfOk result (λ strips. All IsNear strips.items) }
        ensures memory { IsOkUnless result PaintFault.Memory }
    {
        let strips = self.planes[usize::from(plane)].strips(kind.0)?;
        Ok(strips)
    }

    /// The plane that is kept: its value at each square is the number of the type there. It takes no memory.
    pub fn stitched(&self, plane: u8) -> &TilePlane
        requires { plane < length self.now.planes }
        ensures { (square : OneSquare) → number_on result.now square ≡ kinds_on (layout_of self.now) plane square }
    {
        &self.planes[usize::from(plane)]
    }

    /// The smallest rectangle that holds all paint. It takes no memory.
    pub fn box_of(&self) -> Option<Rect>
        ensures none { IsNone result ↔ ((place : Place) → layout_of self.now place ≡ 0) }
        ensures smallest { IfSome result (IsPaintBox (layout_of self.now)) }
        ensures sound { IsSoundPaint self.now.kinds (layout_of self.now) }
    {
        box_of(self.planes.as_slice())
    }
}

impl Layers for CellPaint {
    ghost use Rattle.cell_paint.specs.Paints.{seen_kind};

    ghost kind = { seen_kind };

    fn kind_at(&self, plane: u8, square: Square) -> Option<TypeId> {
        Some(kind_at(self.planes.as_slice(), usize::from(plane), square))
    }

    fn tiles(
        &self,
        alloc: Global,
        plane: u8,
        area: Rect,
    ) -> Result<Vec<(Rect, TypeId)>, AllocError> {
        let Some(plane) = self.planes.get(usize::from(plane)) else {
            return Ok(Vec::new(alloc));
        };
        let Ok(tiles) = plane.tiles_in(area) else {
            return Err(AllocError);
        };
        let found = with_types(alloc, tiles.as_slice())?;
        Ok(found)
    }
}

// So many planes without paint.
fn empty_planes(alloc: Global, count: usize) -> Result<Vec<PaintPlane>, PaintFault>
    ensures count { IfOk result (λ planes. vec_len planes ≡ count) }
    ensures empty { IfOk result (λ planes. (place : Place) → layout_on planes.items place ≡ 0) }
    ensures memory { IsOkUnless result PaintFault.Memory }
{
    let mut planes = Vec::with_capacity(alloc, count)?;
    for _ in 0..count {
        let plane = PaintPlane::new(alloc)?;
        add_plane(&mut planes, plane)?;
    }
    Ok(planes)
}

// Adds the next plane.
fn add_plane(planes: &mut Vec<PaintPlane>, plane: PaintPlane) -> Result<(), AllocError>
    ensures { OnOk result (planes.new.items ≡ planes.old.items ++ plane ∷ []) }
{
    planes.push(plane)?;
    Ok(())
}

// Changes the planes as the stroke goes over areas, which paint may.
fn change_planes(
    alloc: Global,
    stroke: &Stroke,
    planes: &mut [PaintPlane],
    areas: &[Rect],
) -> Result<(), PaintFault>
    requires layer { stroke.now.layer.0 < length stroke.now.tech.now.layers }
    requires whole { AreCellPlanes stroke.now.tech.now.types planes.old }
    requires fits { first_area_fault areas.now ≡ None }
    ensures changed { OnOk result ((place : Place) → layout_on planes.new place
        ≡ with_columns_where (brushed_column stroke.now.tech.now stroke.now.brush stroke.now.layer.0) (is_in_some areas.now) (layout_on planes.old) place) }
    ensures refused { OnErr result ((place : Place) → layout_on planes.new place ≡ layout_on planes.old place) }
    ensures whole { AreCellPlanes stroke.now.tech.now.types planes.new }
    ensures memory { IsOkUnless result PaintFault.Memory }
{
    // The contract of this call says that the lists of the technology fit together.
    let _ = stroke.tech.raw();
    let apart = strips_of(alloc, areas)?;
    let changes = all_changes(alloc, stroke, planes, apart.as_slice())?;
    reserve_all(planes, changes.as_slice())?;
    commit_all(planes, changes.as_slice());
    Ok(())
}

// The strips of what the areas cover, which paint may go over.
fn strips_of(alloc: Global, areas: &[Rect]) -> Result<Vec<Rect>, PaintFault>
    requires fits { first_area_fault areas.now ≡ None }
    ensures proper { IfOk result (λ found. All IsProper found.items) }
    ensures near { IfOk result (λ found. All IsNear found.items) }
    ensures apart { IfOk result (λ found. AllPairs AreDisjoint found.items) }
    ensures same { IfOk result (λ found. (square : OneSquare) → is_in_some found.items square ≡ is_in_some areas.now square) }
    ensures memory { IsOkUnless result PaintFault.Memory }
{
    let found = strips(alloc, areas)?;
    Ok(found)
}

// The changes of each plane.
fn all_changes(
    alloc: Global,
    stroke: &Stroke,
    planes: &[PaintPlane],
    areas: &[Rect],
) -> Result<Vec<Vec<Piece>>, PaintFault>
    requires layer { stroke.now.layer.0 < length stroke.now.tech.now.layers }
    requires whole { AreCellPlanes stroke.now.tech.now.types planes.now }
    requires proper { All IsProper areas.now }
    requires near { All IsNear areas.now }
    requires apart { AllPairs AreDisjoint areas.now }
    ensures one_each { IfOk result (λ changes. vec_len changes ≡ length planes.now) }
    ensures changes { IfOk result (λ changes. AreAllChanges (layout_on planes.now)
        (with_columns_where (brushed_column stroke.now.tech.now stroke.now.brush stroke.now.layer.0) (is_in_some areas.now) (layout_on planes.now)) changes.items) }
    ensures memory { IsOkUnless result PaintFault.Memory }
{
    let mut changes = Vec::with_capacity(alloc, planes.len())?;
    for plane in 0..planes.len() {
        add_changes(
            &mut changes,
            changes_on(alloc, stroke, planes, plane, areas)?,
        )?;
    }
    Ok(changes)
}

// Adds the changes of the next plane.
fn add_changes(changes: &mut Vec<Vec<Piece>>, more: Vec<Piece>) -> Result<(), AllocError>
    ensures { OnOk result (changes.new.items ≡ changes.old.items ++ more ∷ []) }
{
    changes.push(more)?;
    Ok(())
}

// The areas of tiles with their types.
fn with_types(alloc: Global, tiles: &[Piece]) -> Result<Vec<(Rect, TypeId)>, AllocError>
    ensures { IfOk result (λ found. found.items ≡ map (λ tile. (tile.area, record { 0 = tile.value })) tiles.now) }
{
    tiles
        .iter()
        .map(|tile| (tile.area, TypeId(tile.value)))
        .collect(alloc)
}

// Whether paint may go over the areas.
fn check_areas(areas: &[Rect]) -> Result<(), PaintFault>
    ensures fits { OnOk result (first_area_fault areas.now ≡ None) }
    ensures fault { IfErr result (λ fault. first_area_fault areas.now ≡ Some fault) }
{
    for area in areas {
        if let Some(fault) = area_fault(area) {
            return Err(fault);
        }
    }
    Ok(())
}

// Why paint may not go over the area.
fn area_fault(area: &Rect) -> Option<PaintFault>
    ensures { result ≡ area_fault area.now }
{
    if !area.has_square() {
        return Some(PaintFault::EmptyRect);
    }
    if !is_in_range(area) {
        return Some(PaintFault::OutOfRange);
    }
    None
}

fn is_in_range(area: &Rect) -> bool
    ensures { result ≡ is_in_range area.now }
{
    are_coordinates(area.xlo, area.ylo) && are_coordinates(area.xhi, area.yhi)
}

fn are_coordinates(first: i64, second: i64) -> bool
    ensures { result ≡ (is_coordinate first && is_coordinate second) }
{
    is_coordinate(first) && is_coordinate(second)
}

/// Whether paint may have the coordinate.
pub fn is_coordinate(value: i64) -> bool
    ensures { result ≡ is_coordinate value }
{
    -PAINT_EDGE <= value && value <= PAINT_EDGE
}
