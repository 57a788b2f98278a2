//! The plane.
ghost use Rattle.std.specs.Prelude.{◌≡◌, List as Items, All, AllPairs, IfOk, IfSome, OnOk, OnErr, IsOkUnless};
ghost use Rattle.geo_core.specs.declared.squares.Square.{Square as OneSquare};
ghost use Rattle.geo_core.specs.declared.squares.Piece.{Piece as OnePiece};
ghost use Rattle.geo_core.specs.Areas.{AreDisjoint, IsNear};
ghost use Rattle.geo_core.specs.Covering.{IsProper};
ghost use Rattle.geo_core.specs.Planes.{AreSame};
ghost use Rattle.tile_plane.specs.Contents.{value_in, IsReady};
ghost use Rattle.tile_plane.specs.Listings.{ArePiecesIn};

use crate::listings;
use crate::sheets::{Second, Sheet};
use geo_core::{Piece, Plane, PlaneFault, Rect, Square};
use std::alloc::{AllocError, Global};
use std::marker::Model;

/// Setting a piece takes about the time in which so many tiles are copied.
const TILES_FOR_A_PIECE: usize = 32;

/// A plane as corner-stitched tiles.
///
/// A change is made ready on a second sheet of tiles, which a commit exchanges for the first. So setting pieces takes twice the
/// time of setting them in place, and a plane twice the memory.
#[derive(Drop)]
pub struct TilePlane {
    alloc: Global,
    first: Sheet,
    second: Second,
}

impl Model for TilePlane {
    ghost use Rattle.tile_plane.specs.Contents.{Contents, contents_code};

    ghost Value = { Contents };

    ghost coded = { contents_code };

    ghost use Rattle.tile_plane.specs.Sheets.{next_of, AreSheets};

    ghost view = { λ plane. record { tiles = plane.first.store; next = next_of plane.second } };

    ghost invariant = { λ plane. AreSheets plane.first plane.second };
}

impl TilePlane {
    /// A plane whose squares are all 0.
    ///
    /// # Errors
    ///
    /// `Memory` alone.
    pub fn new(alloc: Global) -> Result<TilePlane, PlaneFault>
        ensures space { IfOk result (λ plane. (square : OneSquare) → value_in plane square ≡ 0) }
        ensures memory { IsOkUnless result PlaneFault.Memory }
    {
        let first = Sheet::new(alloc)?;
        Ok(TilePlane {
            alloc,
            first,
            second: Second::Missing,
        })
    }

    /// The areas cut into pieces of one value each, those of value 0 too. It takes the time of the pieces where the areas stand in
    /// the order of rows.
    ///
    /// # Errors
    ///
    /// `Memory` alone.
    pub fn pieces_in(&self, areas: &[Rect]) -> Result<Vec<Piece>, PlaneFault>
        requires proper { All IsProper areas.now }
        requires near { All IsNear areas.now }
        requires apart { AllPairs AreDisjoint areas.now }
        ensures pieces { IfOk result (λ pieces. ArePiecesIn (value_in self.now) areas.now pieces.items) }
        ensures memory { IsOkUnless result PlaneFault.Memory }
    {
        let pieces = listings::pieces_in(
            self.alloc,
            &self.first.store,
            areas,
            self.first.near_first(areas),
        )?;
        Ok(pieces)
    }
}

impl Plane for TilePlane {
    ghost value_at = { value_in };

    ghost ready = { IsReady };

    fn at(&self, square: Square) -> u8 {
        self.first.at(square)
    }

    /// It is never `Full`.
    fn reserve(&mut self, pieces: &[Piece]) -> Result<(), PlaneFault>
        requires proper { All (λ piece. IsProper piece.area) pieces.now }
        requires near { All (λ piece. IsNear piece.area) pieces.now }
        requires apart { AllPairs (λ a b. AreDisjoint a.area b.area) pieces.now }
        ensures ready { OnOk result (IsReady self.new pieces.now) }
        ensures same { AreSame (value_in self.old) (value_in self.new) }
        ensures still_ready { OnErr result ((others : Items OnePiece) → IsReady self.old others → IsReady self.new others) }
        ensures memory { IsOkUnless result PlaneFault.Memory }
    {
        let again = again(self.alloc, pieces, self.first.store.len())?;
        let base = self.second.base(&self.first)?;
        let next = base.with_pieces(pieces)?;
        self.second = Second::Ahead(next, again);
        Ok(())
    }

    fn commit(&mut self, _pieces: &[Piece]) {
        self.second.exchange(&mut self.first);
    }

    fn tiles_in(&self, area: Rect) -> Result<Vec<Piece>, PlaneFault> {
        let tiles = listings::tiles_in(
            self.alloc,
            &self.first.store,
            &area,
            self.first.near(area.corner()),
        )?;
        Ok(tiles)
    }

    fn strips(&self, value: u8) -> Result<Vec<Rect>, PlaneFault> {
        let strips = listings::strips(self.alloc, &self.first.store, value)?;
        Ok(strips)
    }

    fn box_of(&self) -> Option<Rect> {
        listings::box_of(&self.first.store)
    }
}

/// The pieces, to be set again on the other sheet, where that is less work than to copy so many tiles.
fn again(alloc: Global, pieces: &[Piece], tiles: u32) -> Result<Option<Vec<Piece>>, AllocError>
    ensures { IfOk result (λ again. IfSome again (λ found. found.items ≡ pieces.now)) }
{
    if pieces.len() < tiles as usize / TILES_FOR_A_PIECE {
        let kept = pieces.to_vec(alloc)?;
        return Ok(Some(kept));
    }
    Ok(None)
}
