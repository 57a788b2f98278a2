//! Setting a piece.

ghost use Rattle.std.specs.Prelude.{◌≡◌, ℕ, ℤ, ◌-ℤ◌, pos, ◌≤ℤ◌, ◌<ℤ◌, OnOk, IfOk, [], ◌∷◌};
ghost use Rattle.geo_core.specs.Areas.{IsNear, corner_of};
ghost use Rattle.geo_core.specs.Covering.{IsProper};
ghost use Rattle.geo_core.specs.Planes.{AreSame, AreSet, plane_range};
ghost use Rattle.tile_plane.specs.Tiles.{tile_at, IsTaken, Owns, IsPartition, HasStitches, value_at};
ghost use Rattle.tile_plane.specs.Walks.{square_at};
ghost use Rattle.tile_plane.specs.Tall.{AreStrips, AreGrown, IsWideAt};
ghost use Rattle.tile_plane.specs.steps.Bands.{IsTileCut, IsLaid, IsOfBand, IsLaidLeft, IsLaidRight, IsBandFree, IsBandLaid, AreHigh, band_of, IsOpenFrom};
ghost use Rattle.tile_plane.specs.steps.Bands.{IsBanded, AreKept, AreColumnsTall};

use crate::cuts::{cut_across, cut_along, cut_in_two, part_from};
use crate::joins::{join_column, join_right};
use crate::stores::Store;
use crate::walks::{above_at, find, left_at, right_at};
use geo_core::{Piece, Rect};
use tile_arena::ArenaFault;

/// The part of a tile below the height y, cut out of it where it goes on above.
fn cut_top(store: &mut Store, id: u32, y: i64) -> Result<u32, ArenaFault>
    requires partition { IsPartition store.old }
    requires stitches { HasStitches store.old }
    requires taken { IsTaken store.old id }
    requires from { (tile_at store.old id).area.ylo <ℤ y }
    requires to { y ≤ℤ (tile_at store.old id).area.yhi }
    ensures partition { OnOk result (IsPartition store.new) }
    ensures stitches { OnOk result (HasStitches store.new) }
    ensures cut { OnOk result (IsTileCut id y store.old store.new) }
    ensures area { IfOk result (λ part. (tile_at store.new part).area ≡ record (tile_at store.old id).area { yhi = y }) }
    ensures value { IfOk result (λ part. (tile_at store.new part).value ≡ (tile_at store.old id).value) }
{
    if y < store.get(id).area.yhi {
        let parts = cut_in_two(store, id, y)?;
        return Ok(parts.0);
    }
    Ok(id)
}

/// What a tile has of the rows of an area, cut out of it.
fn part_of(store: &mut Store, id: u32, rows: &Rect) -> Result<u32, ArenaFault>
    requires partition { IsPartition store.old }
    requires stitches { HasStitches store.old }
    requires taken { IsTaken store.old id }
    requires high { rows.now.ylo <ℤ rows.now.yhi }
    requires from { (tile_at store.old id).area.ylo ≤ℤ rows.now.ylo }
    requires to { rows.now.yhi ≤ℤ (tile_at store.old id).area.yhi }
    ensures partition { OnOk result (IsPartition store.new) }
    ensures stitches { OnOk result (HasStitches store.new) }
    ensures laid { IfOk result (λ part. IsLaid (record (tile_at store.old id).area { ylo = rows.now.ylo; yhi = rows.now.yhi })
        (tile_at store.old id).value part store.old store.new) }
{
    let rest = part_from(store, id, rows.ylo)?;
    let part = cut_top(store, rest, rows.yhi)?;
    Ok(part)
}

/// What a tile has of the rows of a band, with the band's value.
fn set_part(store: &mut Store, id: u32, band: &Piece) -> Result<u32, ArenaFault>
    requires partition { IsPartition store.old }
    requires stitches { HasStitches store.old }
    requires taken { IsTaken store.old id }
    requires high { band.now.area.ylo <ℤ band.now.area.yhi }
    requires from { (tile_at store.old id).area.ylo ≤ℤ band.now.area.ylo }
    requires to { band.now.area.yhi ≤ℤ (tile_at store.old id).area.yhi }
    ensures partition { OnOk result (IsPartition store.new) }
    ensures stitches { OnOk result (HasStitches store.new) }
    ensures laid { IfOk result (λ part. IsLaid (record (tile_at store.old id).area { ylo = band.now.area.ylo; yhi = band.now.area.yhi })
        band.now.value part store.old store.new) }
{
    let part = part_of(store, id, &band.area)?;
    store.set_value(part, band.value);
    Ok(part)
}

/// The tile to the right of another at the lowest row of an area.
fn right_of(store: &Store, id: u32, rows: &Rect) -> u32
    requires partition { IsPartition store.now }
    requires stitches { HasStitches store.now }
    requires taken { IsTaken store.now id }
    requires from { (tile_at store.now id).area.ylo ≤ℤ rows.now.ylo }
    requires to { rows.now.ylo <ℤ (tile_at store.now id).area.yhi }
    requires inside { (tile_at store.now id).area.xhi <ℤ plane_range.xhi }
    ensures { Owns store.now result (square_at (tile_at store.now id).area.xhi rows.now.ylo) }
{
    right_at(store, id, rows.ylo)
}

/// The tile to the left of another at the lowest row of an area.
fn left_of(store: &Store, id: u32, rows: &Rect) -> u32
    requires partition { IsPartition store.now }
    requires stitches { HasStitches store.now }
    requires taken { IsTaken store.now id }
    requires from { (tile_at store.now id).area.ylo ≤ℤ rows.now.ylo }
    requires to { rows.now.ylo <ℤ (tile_at store.now id).area.yhi }
    requires inside { plane_range.xlo <ℤ (tile_at store.now id).area.xlo }
    ensures { Owns store.now result (square_at ((tile_at store.now id).area.xlo -ℤ pos 1) rows.now.ylo) }
{
    left_at(store, id, rows.ylo)
}

/// Sets what the tile to the right of a tile of the band has of its rows, and joins it.
fn take_right(store: &mut Store, id: u32, band: &Piece) -> Result<(), ArenaFault>
    requires partition { IsPartition store.old }
    requires stitches { HasStitches store.old }
    requires taken { IsTaken store.old id }
    requires of_band { IsOfBand band.now (tile_at store.old id) }
    requires inside { (tile_at store.old id).area.xhi <ℤ plane_range.xhi }
    requires reach { (k : ℕ) → Owns store.old k (square_at (tile_at store.old id).area.xhi band.now.area.ylo) →
        band.now.area.yhi ≤ℤ (tile_at store.old k).area.yhi }
    ensures partition { OnOk result (IsPartition store.new) }
    ensures stitches { OnOk result (HasStitches store.new) }
    ensures laid { OnOk result ((k : ℕ) → Owns store.old k (square_at (tile_at store.old id).area.xhi band.now.area.ylo) →
        IsLaid (record (tile_at store.old id).area { xhi = (tile_at store.old k).area.xhi }) band.now.value id store.old store.new) }
{
    let next = right_of(store, id, &band.area);
    let part = set_part(store, next, band)?;
    join_right(store, id, part);
    Ok(())
}

/// Joins a tile of a band with what the tile to its left has of its rows, if that has its value.
fn join_left_of(store: &mut Store, id: u32, band: &Piece) -> Result<u32, ArenaFault>
    requires partition { IsPartition store.old }
    requires stitches { HasStitches store.old }
    requires taken { IsTaken store.old id }
    requires of_band { IsOfBand band.now (tile_at store.old id) }
    requires inside { plane_range.xlo <ℤ (tile_at store.old id).area.xlo }
    requires reach { (k : ℕ) → Owns store.old k (square_at ((tile_at store.old id).area.xlo -ℤ pos 1) band.now.area.ylo) →
        band.now.area.yhi ≤ℤ (tile_at store.old k).area.yhi }
    ensures partition { OnOk result (IsPartition store.new) }
    ensures stitches { OnOk result (HasStitches store.new) }
    ensures laid { IfOk result (λ whole. (k : ℕ) → Owns store.old k (square_at ((tile_at store.old id).area.xlo -ℤ pos 1) band.now.area.ylo) →
        IsLaidLeft band.now (tile_at store.old id) (tile_at store.old k) whole store.old store.new) }
{
    let left = left_of(store, id, &band.area);
    if store.get(left).value != band.value {
        return Ok(id);
    }
    let part = set_part(store, left, band)?;
    join_right(store, part, id);
    Ok(part)
}

/// Joins it with what the tile to its right has of its rows, if that has its value.
fn join_right_of(store: &mut Store, id: u32, band: &Piece) -> Result<(), ArenaFault>
    requires partition { IsPartition store.old }
    requires stitches { HasStitches store.old }
    requires taken { IsTaken store.old id }
    requires of_band { IsOfBand band.now (tile_at store.old id) }
    requires inside { (tile_at store.old id).area.xhi <ℤ plane_range.xhi }
    requires reach { (k : ℕ) → Owns store.old k (square_at (tile_at store.old id).area.xhi band.now.area.ylo) →
        band.now.area.yhi ≤ℤ (tile_at store.old k).area.yhi }
    ensures partition { OnOk result (IsPartition store.new) }
    ensures stitches { OnOk result (HasStitches store.new) }
    ensures laid { OnOk result ((k : ℕ) → Owns store.old k (square_at (tile_at store.old id).area.xhi band.now.area.ylo) →
        IsLaidRight band.now (tile_at store.old id) (tile_at store.old k) id store.old store.new) }
{
    let right = right_of(store, id, &band.area);
    if store.get(right).value == band.value {
        take_right(store, id, band)?;
    }
    Ok(())
}

/// Makes the squares of a band one tile, from the first of its tiles on.
fn fill_band(store: &mut Store, first: u32, band: &Piece) -> Result<u32, ArenaFault>
    requires partition { IsPartition store.old }
    requires stitches { HasStitches store.old }
    requires proper { IsProper band.now.area }
    requires near { IsNear band.now.area }
    requires owns { Owns store.old first (corner_of band.now.area) }
    requires free { IsBandFree band.now.area store.old }
    ensures partition { OnOk result (IsPartition store.new) }
    ensures stitches { OnOk result (HasStitches store.new) }
    ensures laid { IfOk result (λ id. IsLaid band.now.area band.now.value id store.old store.new) }
{
    let id = set_part(store, first, band)?;
    'row: while store.get(id).area.xhi < band.area.xhi {
        take_right(store, id, band)?;
    }
    Ok(id)
}

/// Sets a band, and joins it with what is beside it.
fn set_band(store: &mut Store, first: u32, band: &Piece) -> Result<u32, ArenaFault>
    requires partition { IsPartition store.old }
    requires stitches { HasStitches store.old }
    requires proper { IsProper band.now.area }
    requires near { IsNear band.now.area }
    requires owns { Owns store.old first (corner_of band.now.area) }
    requires free { IsBandFree band.now.area store.old }
    ensures partition { OnOk result (IsPartition store.new) }
    ensures stitches { OnOk result (HasStitches store.new) }
    ensures laid { IfOk result (λ whole. IsBandLaid band.now whole store.old store.new) }
{
    let id = fill_band(store, first, band)?;
    let whole = join_left_of(store, id, band)?;
    join_right_of(store, whole, band)?;
    Ok(whole)
}

/// The tile above another at the left side of an area, at whose top it ends.
fn above_of(store: &Store, id: u32, area: &Rect) -> u32
    requires partition { IsPartition store.now }
    requires stitches { HasStitches store.now }
    requires taken { IsTaken store.now id }
    requires from { (tile_at store.now id).area.xlo ≤ℤ area.now.xlo }
    requires to { area.now.xlo <ℤ (tile_at store.now id).area.xhi }
    requires ends { (tile_at store.now id).area.yhi ≡ area.now.yhi }
    requires inside { area.now.yhi <ℤ plane_range.yhi }
    ensures { Owns store.now result (square_at area.now.xlo area.now.yhi) }
{
    above_at(store, id, area.xlo)
}

/// The lesser of a height and that at which a tile ends.
fn lower_top(store: &Store, id: u32, top: i64) -> i64
    requires { IsTaken store.now id }
    ensures within { result ≤ℤ top }
    ensures reach { result ≤ℤ (tile_at store.now id).area.yhi }
    ensures above { (y : ℤ) → y <ℤ top → y <ℤ (tile_at store.now id).area.yhi → y <ℤ result }
{
    let end = store.get(id).area.yhi;
    if end < top { end } else { top }
}

/// How far up all tiles go on that have squares in the lowest row of an area or beside it, at most to the top of the
/// area. The first is that of the lowest row.
fn band_top(store: &Store, first: u32, area: &Rect) -> i64
    requires partition { IsPartition store.now }
    requires stitches { HasStitches store.now }
    requires proper { IsProper area.now }
    requires near { IsNear area.now }
    requires owns { Owns store.now first (corner_of area.now) }
    requires begins { (tile_at store.now first).area.xlo ≡ area.now.xlo }
    ensures above { area.now.ylo <ℤ result }
    ensures within { result ≤ℤ area.now.yhi }
    ensures high { AreHigh area.now area.now.ylo result store.now }
{
    let left = left_of(store, first, area);
    let beside = lower_top(store, left, area.yhi);
    let mut id = first;
    let mut top = lower_top(store, first, beside);
    'row: while store.get(id).area.xhi <= area.xhi {
        id = right_of(store, id, area);
        top = lower_top(store, id, top);
    }
    top
}

/// The lowest band of a piece.
fn lowest_band(store: &Store, first: u32, piece: &Piece) -> Piece
    requires partition { IsPartition store.now }
    requires stitches { HasStitches store.now }
    requires proper { IsProper piece.now.area }
    requires near { IsNear piece.now.area }
    requires owns { Owns store.now first (corner_of piece.now.area) }
    requires begins { (tile_at store.now first).area.xlo ≡ piece.now.area.xlo }
    ensures band { result ≡ band_of piece.now piece.now.area.ylo result.area.yhi }
    ensures above { piece.now.area.ylo <ℤ result.area.yhi }
    ensures within { result.area.yhi ≤ℤ piece.now.area.yhi }
    ensures high { AreHigh piece.now.area piece.now.area.ylo result.area.yhi store.now }
{
    Piece {
        area: Rect {
            yhi: band_top(store, first, &piece.area),
            ..piece.area
        },
        value: piece.value,
    }
}

/// Sets a piece where no tile goes over its left or right side. Tiles that lie side by side have other
/// values after it in all rows.
fn set_bands(store: &mut Store, piece: &Piece, hint: u32) -> Result<u32, ArenaFault>
    requires partition { IsPartition store.old }
    requires stitches { HasStitches store.old }
    requires taken { IsTaken store.old hint }
    requires proper { IsProper piece.now.area }
    requires near { IsNear piece.now.area }
    requires state { IsOpenFrom piece.now.area piece.now.area.ylo store.old }
    ensures partition { OnOk result (IsPartition store.new) }
    ensures stitches { OnOk result (HasStitches store.new) }
    ensures taken { IfOk result (IsTaken store.new) }
    ensures banded { OnOk result (IsBanded piece.now store.old store.new) }
{
    let mut rest = *piece;
    let mut id = find(store, piece.area.corner(), hint);
    'bands: while rest.area.ylo < rest.area.yhi {
        let band = lowest_band(store, id, &rest);
        id = set_band(store, id, &band)?;
        rest = above_band(&rest, &band);
        if rest.area.ylo < rest.area.yhi {
            id = above_of(store, id, &band.area);
        }
    }
    Ok(id)
}

/// What is left of a piece above a band of it.
fn above_band(piece: &Piece, band: &Piece) -> Piece
    ensures { result ≡ band_of piece.now band.now.area.yhi piece.now.area.yhi }
{
    Piece {
        area: Rect {
            ylo: band.area.yhi,
            ..piece.area
        },
        value: piece.value,
    }
}

/// Cuts tiles along the four sides of an area, so that none goes over its left or right side. The result is a tile
/// near it.
fn cut_around(store: &mut Store, area: &Rect, hint: u32) -> Result<u32, ArenaFault>
    requires partition { IsPartition store.old }
    requires stitches { HasStitches store.old }
    requires taken { IsTaken store.old hint }
    requires wide { (y : ℤ) → IsWideAt store.old y }
    requires proper { IsProper area.now }
    requires near { IsNear area.now }
    ensures partition { OnOk result (IsPartition store.new) }
    ensures stitches { OnOk result (HasStitches store.new) }
    ensures taken { IfOk result (IsTaken store.new) }
    ensures same { OnOk result (AreSame (value_at store.old) (value_at store.new)) }
    ensures state { OnOk result (IsOpenFrom area.now area.now.ylo store.new) }
    ensures kept { OnOk result (AreKept area.now store.old store.new) }
{
    // The walks begin at tiles of the row of the area: those above may be as wide as the plane, and
    // their stitches lead far away.
    let low = cut_across(store, area, area.ylo, hint)?;
    let _high = cut_across(store, area, area.yhi, low)?;
    let _right = cut_along(store, area, area.xhi, low)?;
    let first = cut_along(store, area, area.xlo, low)?;
    Ok(first)
}

/// Joins the tiles of the column left of an area, of its first and of the one right of it. The result is a tile near
/// it: the hint, if that is still one.
fn join_columns(store: &mut Store, area: &Rect, hint: u32) -> u32
    requires partition { IsPartition store.old }
    requires stitches { HasStitches store.old }
    requires taken { IsTaken store.old hint }
    requires proper { IsProper area.now }
    requires near { IsNear area.now }
    ensures partition { IsPartition store.new }
    ensures stitches { HasStitches store.new }
    ensures taken { IsTaken store.new result }
    ensures same { AreSame (value_at store.old) (value_at store.new) }
    ensures grown { AreGrown store.old store.new }
    ensures tall { AreColumnsTall area.now store.new }
{
    // The walks begin at the hint: the tiles at which they end may be as wide as the plane.
    let right = join_column(store, area.xhi, area.ylo, area.yhi, hint);
    let near = tile_or(store, hint, right);
    let left = join_column(store, area.xlo - 1, area.ylo, area.yhi, near);
    let near = tile_or(store, hint, left);
    let first = join_column(store, area.xlo, area.ylo, area.yhi, near);
    tile_or(store, hint, first)
}

/// The first number where it still stands for a tile, and else the second.
fn tile_or(store: &Store, id: u32, other: u32) -> u32
    requires { IsTaken store.now other }
    ensures { IsTaken store.now result }
{
    if store.has_tile(id) { id } else { other }
}

/// Sets a piece. The tiles are strips before and after. The result is a tile near it.
pub fn set_piece(store: &mut Store, piece: &Piece, hint: u32) -> Result<u32, ArenaFault>
    requires partition { IsPartition store.old }
    requires stitches { HasStitches store.old }
    requires strips { AreStrips store.old }
    requires taken { IsTaken store.old hint }
    requires proper { IsProper piece.now.area }
    requires near { IsNear piece.now.area }
    ensures partition { OnOk result (IsPartition store.new) }
    ensures stitches { OnOk result (HasStitches store.new) }
    ensures strips { OnOk result (AreStrips store.new) }
    ensures taken { IfOk result (IsTaken store.new) }
    ensures set { OnOk result (AreSet (value_at store.old) (value_at store.new) (piece.now ∷ [])) }
{
    let first = cut_around(store, &piece.area, hint)?;
    let band = set_bands(store, piece, first)?;
    let id = join_columns(store, &piece.area, band);
    Ok(id)
}
