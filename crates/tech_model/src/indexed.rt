//! The lists of a technology with their indexes, before the rules are checked.
ghost use Rattle.std.specs.Prelude.{◌≡◌, ◌≤◌, ◌<◌, ℕ, List, Some, None, if◌then◌else◌, length, IfOk, IfSome, OnOk, IsTrue, find};
ghost use Rattle.std.specs.Option.{option_map, option_or};
ghost use Rattle.std.specs.List.{list_any, position_from};
ghost use Rattle.std.specs.Str.{bytes_eq};
ghost use Rattle.tech_model.specs.LayerWords.{layer_in};
ghost use Rattle.tech_model.specs.Types.{has_name, layer_number, type_number, is_type, type_at, parts_of, connects, is_within};
ghost use Rattle.tech_model.specs.Types.{plane_of, layer_named, image_on, joined, is_proper_subset, is_on, is_kind, type_name};
ghost use Rattle.tech_model.specs.Types.{layer_at, layer_of, first_name, plane_name, is_own_image};
ghost use Rattle.tech_model.specs.WellFormed.{IsWellFormed};

use crate::index::LayerIndex;
use crate::limits::MOST_TYPES;
use crate::pair_table::PairTable;
use crate::raw::{LayerId, LayerRec, PartSet, RawTech, TypeId, TypeRec};
use names_lists::Name;
use std::alloc::{AllocError, Global};
use std::marker::Model;

// What stands in the place of a record that is not there.
const NO_TYPE: TypeRec = TypeRec {
    plane: 0,
    layer: LayerId(0),
    parts: PartSet(0),
};

/// The lists of a technology, with an index of its layers' names and a table of its pairs.
#[derive(Drop)]
pub(crate) struct Indexed {
    raw: RawTech,
    words: LayerIndex,
    pairs: PairTable,
}

impl Model for Indexed {
    ghost use Rattle.tech_model.specs.declared.raw.RawTech.{RawTech as Lists};
    ghost use Rattle.tech_model.specs.Indexes.{IsIndexed};

    ghost Value = { Lists };

    ghost view = { λ indexed. indexed.raw };

    ghost invariant = { λ indexed. IsIndexed indexed.raw indexed.words indexed.pairs.rows.items };
}

impl Indexed {
    /// The lists with their indexes.
    pub(crate) fn new(alloc: Global, raw: RawTech) -> Result<Indexed, AllocError>
        requires { IsWellFormed raw }
        ensures { IfOk result (λ indexed. indexed ≡ raw) }
    {
        let words = index_words(alloc, raw.layers.items())?;
        let pairs = PairTable::of(alloc, raw.pairs.items())?;
        Ok(Indexed { raw, words, pairs })
    }

    /// The lists.
    pub(crate) fn raw(&self) -> &RawTech
        ensures value { result.now ≡ self.now }
        ensures well_formed { IsWellFormed self.now }
    {
        &self.raw
    }

    /// The layer that has this name or alias.
    pub(crate) fn layer(&self, name: &[u8]) -> Option<LayerId>
        ensures { result ≡ option_map layer_number (layer_named self.now name.now) }
    {
        self.words.find(name)
    }

    /// How many types there are, without space.
    pub(crate) fn type_count(&self) -> u8
        ensures count { result ≡ length self.now.types }
        ensures limit { result ≤ MOST_TYPES }
    {
        self.raw.types.items().len() as u8
    }

    /// Whether the number is that of a type other than space.
    pub(crate) fn is_type(&self, t: TypeId) -> bool
        ensures { result ≡ is_type self.now t.0 }
    {
        1 <= t.0 && usize::from(t.0) <= self.raw.types.items().len()
    }

    /// The record of a type other than space.
    fn kind(&self, t: TypeId) -> TypeRec
        ensures { result ≡ type_at self.now t.0 }
    {
        let place = usize::from(t.0).saturating_sub(1);
        match self.raw.types.items().get(place) {
            Some(kind) => *kind,
            None => NO_TYPE,
        }
    }

    /// The plane of a type other than space.
    pub(crate) fn plane(&self, t: TypeId) -> u8
        ensures { result ≡ plane_of self.now t.0 }
    {
        self.kind(t).plane
    }

    /// The set of a type, where space has the empty set.
    pub(crate) fn parts(&self, t: TypeId) -> PartSet
        ensures { result.0 ≡ parts_of self.now t.0 }
    {
        if self.is_type(t) {
            self.kind(t).parts
        } else {
            PartSet(0)
        }
    }

    /// The image of the layer on the plane.
    pub(crate) fn image(&self, layer: LayerId, plane: u8) -> Option<TypeId>
        requires { layer.0 < length self.now.layers }
        ensures { result ≡ image_on self.now layer.0 plane }
    {
        let images = self.raw.layers.items()[usize::from(layer.0)].images.items();
        self.first_on(plane, images)
    }

    fn first_on(&self, plane: u8, types: &[TypeId]) -> Option<TypeId>
        ensures { result ≡ find (is_on self.now plane) types.now }
    {
        types.iter().copied().find(|&t| self.plane(t) == plane)
    }

    /// The type of the plane that has the set.
    pub(crate) fn joined(&self, plane: u8, set: PartSet) -> Option<TypeId>
        ensures { result ≡ option_map type_number (joined self.now plane set.0) }
    {
        if set.0 == 0 {
            return Some(TypeId(0));
        }
        let place = place_of(self.raw.types.items(), plane, set)?;
        Some(TypeId(place as u8 + 1))
    }

    /// The name of a type other than space.
    pub(crate) fn type_name(&self, alloc: Global, t: TypeId) -> Result<Name, AllocError>
        requires { IsTrue (is_type self.now t.0) }
        ensures { IfOk result (λ name. name ≡ type_name self.now t.0) }
    {
        let text = self.type_text(alloc, t)?;
        Name::of(alloc, text.as_slice())
    }

    #[tactic(auto, unfolding(crate::specs::Types::type_name))]
    fn type_text(&self, alloc: Global, t: TypeId) -> Result<Vec<u8>, AllocError>
        requires { IsTrue (is_type self.now t.0) }
        ensures { IfOk result (λ text. text.items ≡ type_name self.now t.0) }
    {
        let mut text = Vec::from_slice(alloc, self.layer_name(t))?;
        if !self.is_own_image(t) {
            text.push(b'/')?;
            text.extend_from_slice(self.plane_name(t))?;
        }
        Ok(text)
    }

    /// The first name of the layer of a type.
    pub(crate) fn layer_name(&self, t: TypeId) -> &[u8]
        requires { IsTrue (is_type self.now t.0) }
        ensures { result.now ≡ first_name (layer_at self.now (layer_of self.now t.0)) }
    {
        let layer = self.kind(t).layer;
        let names = self.raw.layers.items()[usize::from(layer.0)].names.items();
        names[0].bytes()
    }

    fn plane_name(&self, t: TypeId) -> &[u8]
        requires { IsTrue (is_type self.now t.0) }
        ensures { result.now ≡ plane_name self.now (plane_of self.now t.0) }
    {
        self.raw.planes.items()[usize::from(self.plane(t))].bytes()
    }

    // Whether the type is the image of its layer on the layer's own plane.
    fn is_own_image(&self, t: TypeId) -> bool
        requires { IsTrue (is_type self.now t.0) }
        ensures { result ≡ is_own_image self.now t.0 }
    {
        let layer = self.kind(t).layer;
        self.raw.layers.items()[usize::from(layer.0)].images.items()[0] == t
    }

    /// Whether the two types connect.
    #[tactic(auto, unfolding(crate::specs::Types::connects))]
    pub(crate) fn connects(&self, s: TypeId, t: TypeId) -> bool
        ensures { result ≡ connects self.now s.0 t.0 }
    {
        self.is_type(s)
            && self.is_type(t)
            && (s == t || self.pairs.has(s, t) || self.kind(s).layer == self.kind(t).layer)
    }

    /// Whether s is within t.
    #[tactic(auto, unfolding(crate::specs::Types::is_within))]
    pub(crate) fn within(&self, s: TypeId, t: TypeId) -> bool
        ensures { result ≡ is_within self.now s.0 t.0 }
    {
        s == t || (is_proper_subset(self.parts(s), self.parts(t)) && self.connects(s, t))
    }
}

/// The place of the record with this plane and set.
fn place_of(kinds: &[TypeRec], plane: u8, set: PartSet) -> Option<usize>
    ensures first { result ≡ position_from (is_kind plane set.0) 0 kinds.now }
    ensures within { IfSome result (λ place. place < length kinds.now) }
{
    kinds
        .iter()
        .position(|kind| kind.plane == plane && kind.parts == set)
}

/// Whether a is a part of b and not all of it.
fn is_proper_subset(a: PartSet, b: PartSet) -> bool
    ensures { result ≡ is_proper_subset a.0 b.0 }
{
    a.0 & b.0 == a.0 && a != b
}

/// An index of the names and aliases of the layers.
fn index_words(alloc: Global, layers: &[LayerRec]) -> Result<LayerIndex, AllocError>
    requires { length layers.now ≤ MOST_TYPES }
    ensures { IfOk result (λ words. (word : List ℕ)
        → layer_in words word ≡ position_from (has_name word) 0 layers.now) }
{
    let mut words = LayerIndex::new(alloc);
    for (place, layer) in layers.iter().enumerate() {
        add_names(&mut words, layer.names.items(), LayerId(place as u8))?;
    }
    Ok(words)
}

/// Lets each name that is not there yet name the layer.
fn add_names(words: &mut LayerIndex, names: &[Name], layer: LayerId) -> Result<(), AllocError>
    ensures { OnOk result ((word : List ℕ) → layer_in words.new word ≡ option_or
        (layer_in words.old word) (if list_any (bytes_eq word) names.now then Some layer.0 else None)) }
{
    for name in names {
        let word = name.bytes();
        if words.find(word).is_none() {
            words.add(word, layer)?;
        }
    }
    Ok(())
}
