//! Layers: the types of a layout at each place.
ghost use Rattle.std.specs.Prelude.{◌≡◌, ℕ, Option as Maybe, IfOk};
ghost use Rattle.std.specs.Option.{option_map};
ghost use Rattle.geo_core.specs.declared.squares.Square.{Square as OneSquare};
ghost use Rattle.geo_core.specs.Areas.{IsNear};
ghost use Rattle.geo_core.specs.Covering.{IsProper};
ghost use Rattle.tech_model.specs.LayerTiles.{AreTilesOf};
ghost use Rattle.tech_model.specs.Types.{type_number};

use crate::raw::TypeId;
use geo_core::{Rect, Square};
use std::alloc::{AllocError, Global};

/// A type for each plane and square: a number of a tile type, 0 for space, or none where the type is
/// undefined, since no type has the set of what stands there.
pub trait Layers {
    /// The type at the square on the plane.
    ghost kind: { Self → ℕ → OneSquare → Maybe ℕ };

    /// The type at the square on the plane. None is the undefined type.
    fn kind_at(&self, plane: u8, square: Square) -> Option<TypeId>
        ensures { result ≡ option_map type_number (kind self.now plane square) };

    /// The defined material of the area, as rectangles inside it that lie apart, each of one type other than
    /// space. The bounds of the area are below 2^28 in absolute value.
    fn tiles(&self, alloc: Global, plane: u8, area: Rect) -> Result<Vec<(Rect, TypeId)>, AllocError>
        requires proper { IsProper area }
        requires near { IsNear area }
        ensures { IfOk result (λ tiles. AreTilesOf (kind self.now plane) area tiles.items) };
}
