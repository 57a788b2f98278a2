//! Planes: a number for each square.
ghost use Rattle.std.specs.Prelude.{◌≡◌, ◌≢◌, ◌↔◌, ℕ, List as Items, [], ◌∷◌, All, AllPairs, IfOk, IfSome, OnOk, OnErr, IsErrOf, IsNone, IsOkUnless};
ghost use Rattle.geo_core.specs.declared.squares.Square.{Square as OneSquare};
ghost use Rattle.geo_core.specs.declared.squares.Piece.{Piece as OnePiece};
ghost use Rattle.geo_core.specs.Areas.{AreDisjoint, IsNear};
ghost use Rattle.geo_core.specs.Covering.{Covers, IsProper};
ghost use Rattle.geo_core.specs.Planes.{HasValue, AreSame, AreSet, AreTilesIn, IsBox, PassesTileLimit};
ghost use Rattle.geo_core.specs.Strips.{IsStrips};

use crate::squares::{Piece, Rect, Square};
use std::alloc::AllocError;
use thiserror::Error;

/// Why a call of a plane is refused.
#[derive(Clone, Copy, Debug, PartialEq, Eq, Error)]
pub enum PlaneFault {
    /// There are too many strips for the tiles that a plane may have.
    #[error("too many tiles")]
    Full,
    #[error("out of memory")]
    Memory,
}

impl From<AllocError> for PlaneFault {
    ghost use Rattle.geo_core.specs.declared.planes.PlaneFault.TheVariants.{Memory};

    ghost from_gives = { λ _ fault. fault ≡ Memory };

    fn from(_error: AllocError) -> PlaneFault {
        PlaneFault::Memory
    }
}

/// A number from 0 to 255 for each square of the grid: 0, which is space, for all but finitely many.
///
/// Areas have a square, and their bounds are below `PLANE_EDGE` in absolute value.
/// A change takes two calls: `reserve` takes the memory for it, and `commit` then makes it without any.
pub trait Plane {
    /// The number at each square.
    ghost value_at: { Self → OneSquare → ℕ };

    /// The pieces can be set without more memory.
    ghost ready: { Self → Items OnePiece → Type 0 };

    /// The number at the square.
    fn at(&self, square: Square) -> u8
        ensures { result ≡ value_at self.now square };

    /// Takes what setting the pieces needs. No square changes, and after a refusal the plane is ready
    /// for whatever it was ready for.
    fn reserve(&mut self, pieces: &[Piece]) -> Result<(), PlaneFault>
        requires proper { All (λ piece. IsProper piece.area) pieces.now }
        requires near { All (λ piece. IsNear piece.area) pieces.now }
        requires apart { AllPairs (λ a b. AreDisjoint a.area b.area) pieces.now }
        ensures ready { OnOk result (ready self.new pieces.now) }
        ensures same { AreSame (value_at self.old) (value_at self.new) }
        ensures still_ready { OnErr result ((others : Items OnePiece) → ready self.old others → ready self.new others) }
        ensures full { IsErrOf result PlaneFault.Full → PassesTileLimit (value_at self.old) pieces.now };

    /// Sets pieces that the plane is ready for. It takes no memory.
    fn commit(&mut self, pieces: &[Piece])
        requires proper { All (λ piece. IsProper piece.area) pieces.now }
        requires near { All (λ piece. IsNear piece.area) pieces.now }
        requires ready { ready self.old pieces.now }
        ensures { AreSet (value_at self.old) (value_at self.new) pieces.now };

    /// Gives the squares of the area this value: `reserve` and `commit` of one piece.
    fn set_rect(&mut self, area: Rect, value: u8) -> Result<(), PlaneFault>
        requires proper { IsProper area }
        requires near { IsNear area }
        ensures set { OnOk result ((square : OneSquare) → Covers area square → value_at self.new square ≡ value) }
        ensures others { OnOk result ((square : OneSquare) → (Covers area square → ⊥) →
            value_at self.new square ≡ value_at self.old square) }
        ensures refused { OnErr result (AreSame (value_at self.old) (value_at self.new)) }
        ensures still_ready { OnErr result ((others : Items OnePiece) → ready self.old others → ready self.new others) }
        ensures full { IsErrOf result PlaneFault.Full →
            PassesTileLimit (value_at self.old) (record { area = area; value = value } ∷ []) }
    {
        let pieces = [Piece { area, value }];
        self.reserve(&pieces)?;
        self.commit(&pieces);
        Ok(())
    }

    /// The strips of every value other than 0 that meet the area, each cut to it, by the `ylo` and then
    /// the `xlo` of the cut pieces. `Memory` alone refuses.
    fn tiles_in(&self, area: Rect) -> Result<Vec<Piece>, PlaneFault>
        requires proper { IsProper area }
        requires near { IsNear area }
        ensures tiles { IfOk result (λ tiles. AreTilesIn (value_at self.now) area tiles.items) }
        ensures memory { IsOkUnless result PlaneFault.Memory };

    /// The strips of a value other than 0. `Memory` alone refuses.
    fn strips(&self, value: u8) -> Result<Vec<Rect>, PlaneFault>
        requires { value ≢ 0 }
        ensures strips { IfOk result (λ strips. IsStrips (HasValue (value_at self.now) value) strips.items) }
        ensures near { IfOk result (λ strips. All IsNear strips.items) }
        ensures memory { IsOkUnless result PlaneFault.Memory };

    /// The smallest rectangle that covers all squares with a value other than 0. It takes no memory.
    fn box_of(&self) -> Option<Rect>
        ensures none { IsNone result ↔ ((square : OneSquare) → value_at self.now square ≡ 0) }
        ensures smallest { IfSome result (IsBox (value_at self.now)) }
        ensures near { IfSome result IsNear };
}
