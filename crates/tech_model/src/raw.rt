//! The lists of a technology, with all names resolved.
ghost use Rattle.std.specs.Prelude.{◌≡◌, ◌==◌};
ghost use Rattle.std.specs.List.{list_any};
ghost use Rattle.tech_model.specs.ChannelRoles.{is_channel, is_terminal};
ghost use Rattle.tech_model.specs.Types.{parts_of};

use geo_core::Rect;
use names_lists::{List, Name};

/// The number of a tile type: 0 is space, and the others count from 1 in the order of their records.
#[derive(Clone, Copy, Debug, PartialEq, Eq)]
pub struct TypeId(pub u8);

/// The number of a layer, from 0 in the order of their records.
#[derive(Clone, Copy, Debug, PartialEq, Eq)]
pub struct LayerId(pub u8);

/// A set of parts: atoms of material and marks of contacts, a bit for each.
///
/// The bit of the atom with type number `t` is `t - 1`, and the mark of a contact has a bit from `FIRST_MARK` on.
#[derive(Clone, Copy, Debug, PartialEq, Eq)]
pub struct PartSet(pub u128);

/// A label of a cell: its layer, where no layer means space, the area that it touches, the position of
/// its text from 0 (centre) to 8 (north, then clockwise), and the text.
#[derive(Debug, Drop)]
pub struct Label {
    pub layer: Option<LayerId>,
    pub area: Rect,
    pub position: u8,
    pub text: Name,
}

/// A layer: its name and then its aliases, and its images, the one on its own plane first.
///
/// A layer with one image is an atom or composed. One with more is a contact.
#[derive(Debug)]
pub struct LayerRec {
    pub names: List<Name>,
    pub images: List<TypeId>,
}

impl Drop for LayerRec {
    fn drop(self) {
        let LayerRec {
            names: _,
            images: _,
        } = self;
    }
}

/// A tile type: its plane, the layer that it is an image of, and its set.
#[derive(Clone, Copy, Debug, PartialEq, Eq)]
pub struct TypeRec {
    pub plane: u8,
    pub layer: LayerId,
    pub parts: PartSet,
}

/// A class of tile types that are measured together.
#[derive(Debug, Drop)]
pub struct ClassRec {
    /// The value of its `resist` line: its resistance, in milliohms per square.
    pub value: u64,
    /// Its capacitance, in attofarads for each square of its area.
    pub per_area: u64,
    /// Its capacitance, in attofarads for each edge of its perimeter.
    pub per_perimeter: u64,
    pub types: List<TypeId>,
}

/// A transistor type: the tile type of its channel, the types of its terminals, its name and the name of
/// its substrate.
#[derive(Debug)]
pub struct FetRule {
    pub kind: TypeId,
    pub terminals: List<TypeId>,
    pub name: Name,
    pub substrate: Name,
}

impl Drop for FetRule {
    fn drop(self) {
        let FetRule {
            kind: _,
            terminals: _,
            name: _,
            substrate: _,
        } = self;
    }
}

/// The lists of a technology file, in its order.
///
/// Planes count from 0. A pair says that its two types connect: each pair stands once, where a `connect`
/// line first gave it, and so does each type in a list of a class or of terminals.
#[derive(Debug)]
pub struct RawTech {
    pub name: Name,
    pub planes: List<Name>,
    pub layers: List<LayerRec>,
    pub types: List<TypeRec>,
    pub pairs: List<(TypeId, TypeId)>,
    pub classes: List<ClassRec>,
    pub fets: List<FetRule>,
}

impl Drop for RawTech {
    fn drop(self) {
        let RawTech {
            name: _,
            planes: _,
            layers: _,
            types: _,
            pairs: _,
            classes: _,
            fets: _,
        } = self;
    }
}

/// Whether the type is one of those.
fn lists(types: &[TypeId], kind: TypeId) -> bool
    ensures { result ≡ list_any (λ t. t.0 == kind.0) types.now }
{
    types.iter().any(|t| t.0 == kind.0)
}

impl RawTech {
    /// The set of a type, which is empty for space and for a number that is no type's.
    pub fn parts_of(&self, kind: TypeId) -> PartSet
        ensures { result.0 ≡ parts_of self.now kind.0 }
    {
        if kind.0 == 0 {
            return PartSet(0);
        }
        let place = usize::from(kind.0 - 1);
        let types = self.types.items();
        if place < types.len() {
            types[place].parts
        } else {
            PartSet(0)
        }
    }

    /// Whether channels are of the type.
    pub fn is_channel(&self, kind: TypeId) -> bool
        ensures { result ≡ is_channel self.now kind.0 }
    {
        self.fets.items().iter().any(|fet| fet.kind.0 == kind.0)
    }

    /// Whether the second type is listed as a terminal beside channels of the first.
    pub fn is_terminal(&self, channel: TypeId, kind: TypeId) -> bool
        ensures { result ≡ is_terminal self.now channel.0 kind.0 }
    {
        self.fets.items().iter().any(|fet| fet.kind.0 == channel.0
            && lists(fet.terminals.items(), kind))
    }
}
