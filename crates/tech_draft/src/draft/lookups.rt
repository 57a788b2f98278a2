// What words stand for in a draft.
ghost use Rattle.std.specs.Prelude.{◌≡◌, ◌<◌, fold, is_some, slice_index_or, Some, None, IfOk, OnOk};
ghost use Rattle.std.specs.List.{list_any};
ghost use Rattle.std.specs.Option.{option_map};
ghost use Rattle.tech_model.specs.Types.{plane_of, parts_of, images_of, layer_named, layer_number, type_number};
ghost use Rattle.tech_draft.specs.Lookups.{plane_named, named_types, first_on, type_on, entry_types, has_type, with_type_once};
ghost use Rattle.tech_draft.specs.Lookups.{types_of_list};
ghost use Rattle.tech_draft.specs.Lookups.{type_of_word, plane_of_word, layer_of_word, is_contact, class_of, is_classed};

use super::{Draft, parts_in};
use crate::parts::{Parted, each_part};
use crate::words::{has_slash, parts_of_entry};
use std::alloc::AllocError;
use tech_model::{LayerId, MOST_TYPES, TypeId};

/// Whether the type is one of these.
pub(super) fn has_type(types: &[TypeId], kind: TypeId) -> bool
    ensures { result ≡ has_type types.now kind }
{
    types.iter().any(|other| other.0 == kind.0)
}

/// The first of these types, and space where there is none.
fn first_type(types: &[TypeId]) -> TypeId
    ensures { result ≡ slice_index_or types.now 0 (type_number 0) }
{
    match types.first() {
        Some(&kind) => kind,
        None => TypeId(0),
    }
}

/// Puts each of these types at the end that is not there.
fn push_each_once(types: &mut Vec<TypeId>, more: &[TypeId]) -> Result<(), AllocError>
    ensures { OnOk result (types.new.items ≡ fold with_type_once types.old.items more.now) }
{
    for &kind in more {
        push_once(types, kind)?;
    }
    Ok(())
}

/// Puts a type at the end, unless it is there.
fn push_once(types: &mut Vec<TypeId>, kind: TypeId) -> Result<(), AllocError>
    ensures { OnOk result (types.new.items ≡ with_type_once types.old.items kind) }
{
    if !has_type(types, kind) {
        types.push(kind)?;
    }
    Ok(())
}

impl Draft {
    /// The number of the plane with this name.
    pub(super) fn plane_named(&self, word: &[u8]) -> Option<usize>
        ensures { result ≡ plane_named self.now.raw word.now }
    {
        self.planes.iter().position(|plane| word == plane.bytes())
    }

    /// The layer that has the word as a name.
    fn layer_named(&self, word: &[u8]) -> Option<LayerId>
        ensures { result ≡ option_map layer_number (layer_named self.now.raw word.now) }
    {
        self.index.find(word)
    }

    /// The number of the layer that the word names, 0 where it names none.
    pub(super) fn layer_of_word(&self, word: &[u8]) -> LayerId
        ensures value { result.0 ≡ layer_of_word self.now.raw word.now }
        ensures in_range { result.0 < MOST_TYPES }
    {
        let _ = &self.layers;
        self.layer_named(word).unwrap_or(LayerId(0))
    }

    pub(super) fn plane_of(&self, kind: TypeId) -> u8
        ensures { result ≡ plane_of self.now.raw kind.0 }
    {
        let place = usize::from(kind.0).saturating_sub(1);
        match self.types.get(place) {
            Some(record) => record.plane,
            None => 0,
        }
    }

    /// The set of a type, and the empty set for space.
    pub(super) fn parts_of(&self, kind: TypeId) -> u128
        ensures { result ≡ parts_of self.now.raw kind.0 }
    {
        parts_in(&self.types, kind)
    }

    fn images_of(&self, layer: LayerId) -> &[TypeId]
        ensures { result.now ≡ images_of self.now.raw layer.0 }
    {
        match self.layers.get(usize::from(layer.0)) {
            Some(record) => record.images.items(),
            None => &[],
        }
    }

    /// The images of the layer that the word names, none where it names no layer.
    fn named_types(&self, word: &[u8]) -> &[TypeId]
        ensures { result.now ≡ named_types self.now.raw word.now }
    {
        match self.layer_named(word) {
            Some(layer) => self.images_of(layer),
            None => &[],
        }
    }

    /// The first of the types that stands on the plane, alone.
    fn first_on<'a>(&self, plane: usize, types: &'a [TypeId]) -> &'a [TypeId]
        ensures { result.now ≡ first_on self.now.raw plane types.now }
    {
        let mut rest = types;
        while let [kind, others @ ..] = rest {
            if usize::from(self.plane_of(*kind)) == plane {
                return &rest[..1];
            }
            rest = others;
        }
        &[]
    }

    /// The types that an entry means: with a plane the image on that plane, and else all images.
    pub(super) fn entry_types(&self, entry: &[u8]) -> &[TypeId]
        ensures { result.now ≡ entry_types self.now.raw entry.now }
    {
        if !has_slash(entry) {
            return self.named_types(entry);
        }
        let (name, plane) = parts_of_entry(entry);
        match self.plane_named(plane) {
            Some(plane) => self.first_on(plane, self.named_types(name)),
            None => &[],
        }
    }

    /// The types that the entries of a list mean, each once, where it is first meant.
    pub(super) fn types_of_list(&self, list: &[u8]) -> Result<Vec<TypeId>, AllocError>
        ensures { IfOk result (λ types. types.items ≡ types_of_list self.now.raw list.now) }
    {
        let mut types = Vec::new(self.alloc);
        for entry in each_part(Parted::Listed(list)) {
            push_each_once(&mut types, self.entry_types(entry))?;
        }
        Ok(types)
    }

    /// The first type that the word means: of a layer it is the image on the layer's own plane.
    pub(super) fn type_of_word(&self, word: &[u8]) -> TypeId
        ensures { result ≡ type_of_word self.now.raw word.now }
    {
        first_type(self.entry_types(word))
    }

    pub(super) fn plane_of_word(&self, word: &[u8]) -> u8
        ensures { result ≡ plane_of_word self.now.raw word.now }
    {
        self.plane_of(self.type_of_word(word))
    }

    /// Whether the word names a layer with more than one image.
    #[tactic(auto, unfolding(crate::specs::Lookups::is_contact))]
    pub(super) fn is_contact(&self, word: &[u8]) -> bool
        ensures { result ≡ is_contact self.now.raw word.now }
    {
        self.entry_types(word).len() > 1
    }

    /// The number of the class that the type belongs to.
    pub(super) fn class_of(&self, kind: TypeId) -> Option<usize>
        ensures { result ≡ class_of self.now.raw kind }
    {
        self.classes
            .iter()
            .position(|class| has_type(class.types.items(), kind))
    }

    /// Whether a type of the entry is in a class.
    #[tactic(auto, unfolding(crate::specs::Lookups::is_classed))]
    pub(super) fn is_classed(&self, entry: &[u8]) -> bool
        ensures { result ≡ is_classed self.now.raw entry.now }
    {
        self.entry_types(entry)
            .iter()
            .any(|&kind| self.class_of(kind).is_some())
    }
}
