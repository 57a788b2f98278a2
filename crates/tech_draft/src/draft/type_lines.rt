// Lines of the sections `tech`, `planes` and `types`.
ghost use Rattle.std.specs.Prelude.{◌≡◌, ◌≢◌, ◌<◌, ◌++◌, [], ◌∷◌, ℕ, List, length, Some, None, Ok, Err, IfOk, OnOk, IfErr, if◌then◌else◌};
ghost use Rattle.std.specs.List.{list_any};
ghost use Rattle.std.specs.Str.{bytes_eq};
ghost use Rattle.text_scan.specs.Words.{words_of};
ghost use Rattle.tech_model.specs.declared.faults.TechFault.TheVariants.{Memory};
ghost use Rattle.tech_model.specs.declared.raw.RawTech.{RawTech as RawValue};
ghost use Rattle.tech_model.specs.LayerWords.{layer_in};
ghost use Rattle.tech_model.specs.Types.{layer_named};
ghost use Rattle.tech_draft.specs.Words.{pieces_of};
ghost use Rattle.tech_draft.specs.TypeLines.{new_name, name_line, new_plane, plane_line, new_names, atom_on, atom_layer, new_atom};
ghost use Rattle.tech_draft.specs.TypeLines.{new_type, type_line};

use super::Draft;
use crate::parts::{Parted, each_part};
use crate::words::{WordForm, all_have, push};
use names_lists::{List, Name};
use std::alloc::{AllocError, Global};
use tech_model::{
    LayerId, LayerIndex, LayerRec, LimitedList, MOST_PLANES, MOST_TYPES, PartSet, TechFault,
    TypeId, TypeRec,
};
use text_scan::{is_plain_name, words};

// Lets each name of the list name the layer. Refuses the first that names a layer already: the index may then have the
// names before it.
fn index_names(
    alloc: Global,
    index: &mut LayerIndex,
    list: &[u8],
    layer: LayerId,
) -> Result<Vec<Name>, TechFault>
    ensures names { IfOk result (λ names. names.items ≡ pieces_of list.now) }
    ensures indexed { OnOk result ((word : List ℕ) → layer_in index.new word
        ≡ (if list_any (bytes_eq word) (pieces_of list.now) then Some layer.0 else layer_in index.old word)) }
    ensures passed { OnOk result ((raw : RawValue) → ((word : List ℕ) → layer_in index.old word ≡ layer_named raw word)
        → new_names raw [] (pieces_of list.now) ≡ Ok tt) }
    ensures refused { IfErr result (λ fault. fault ≢ Memory → (raw : RawValue)
        → ((word : List ℕ) → layer_in index.old word ≡ layer_named raw word)
        → new_names raw [] (pieces_of list.now) ≡ Err fault) }
{
    let mut names = Vec::new(alloc);
    for name in each_part(Parted::Listed(list)) {
        if index.find(name).is_some() {
            return Err(TechFault::Twice(Name::of(alloc, name)?));
        }
        index.add(name, layer)?;
        push(&mut names, Name::of(alloc, name)?)?;
    }
    Ok(names)
}

// Puts the next type at the end, on this plane, and its layer with these names.
fn push_atom(
    alloc: Global,
    types: &mut Vec<TypeRec>,
    layers: &mut Vec<LayerRec>,
    plane: u8,
    names: Vec<Name>,
) -> Result<(), AllocError>
    requires types_room { length types.old.items < MOST_TYPES }
    requires layers_room { length layers.old.items < MOST_TYPES }
    ensures types { OnOk result ((raw : RawValue) → types.old.items ≡ raw.types → layers.old.items ≡ raw.layers
        → types.new.items ≡ raw.types ++ atom_on raw plane ∷ []) }
    ensures layers { OnOk result ((raw : RawValue) → types.old.items ≡ raw.types
        → layers.old.items ≡ raw.layers → layers.new.items ≡ raw.layers ++ atom_layer raw names.items ∷ []) }
{
    let number = types.len() as u8;
    let mut images = Vec::new(alloc);
    images.push(TypeId(number + 1))?;
    let layer = LayerId(layers.len() as u8);
    let parts = PartSet(1u128 << number);
    types.push(TypeRec {
        plane,
        layer,
        parts,
    })?;
    layers.push(LayerRec {
        names: List::of(names),
        images: List::of(images),
    })?;
    Ok(())
}

impl Draft {
    /// Reads a line of the section `tech`.
    #[tactic(auto, unfolding(crate::specs::TypeLines::name_line))]
    pub(super) fn read_name(&mut self, line: &[u8]) -> Result<(), TechFault>
        ensures read { OnOk result (name_line self.old (words_of line.now) ≡ Ok self.new) }
        ensures refused { IfErr result (λ fault. fault ≢ Memory → name_line self.old (words_of line.now) ≡ Err fault) }
    {
        let mut words = words(line);
        match (words.next(), words.next()) {
            (Some(name), None) => self.set_name(name),
            _ => Err(TechFault::BadForm),
        }
    }

    fn set_name(&mut self, name: &[u8]) -> Result<(), TechFault>
        ensures read { OnOk result (new_name self.old name.now ≡ Ok self.new) }
        ensures refused { IfErr result (λ fault. fault ≢ Memory → new_name self.old name.now ≡ Err fault) }
    {
        if self.name_is_read() || !is_plain_name(name) {
            return Err(TechFault::BadForm);
        }
        self.name = Name::of(self.alloc, name)?;
        Ok(())
    }

    fn has_plane(&self, word: &[u8]) -> bool
        ensures { result ≡ list_any (bytes_eq word.now) self.now.raw.planes }
    {
        self.planes.iter().any(|plane| word == plane.bytes())
    }

    /// Reads a line of the section `planes`.
    #[tactic(auto, unfolding(crate::specs::TypeLines::plane_line))]
    pub(super) fn read_plane(&mut self, line: &[u8]) -> Result<(), TechFault>
        ensures read { OnOk result (plane_line self.old (words_of line.now) ≡ Ok self.new) }
        ensures refused { IfErr result (λ fault. fault ≢ Memory → plane_line self.old (words_of line.now) ≡ Err fault) }
    {
        let mut words = words(line);
        match (words.next(), words.next()) {
            (Some(name), None) => self.add_plane(name),
            _ => Err(TechFault::BadForm),
        }
    }

    fn add_plane(&mut self, name: &[u8]) -> Result<(), TechFault>
        ensures read { OnOk result (new_plane self.old name.now ≡ Ok self.new) }
        ensures refused { IfErr result (λ fault. fault ≢ Memory → new_plane self.old name.now ≡ Err fault) }
    {
        if !is_plain_name(name) {
            return Err(TechFault::BadForm);
        }
        let word = Name::of(self.alloc, name)?;
        if self.has_plane(name) {
            return Err(TechFault::Twice(word));
        }
        if self.planes.len() >= MOST_PLANES {
            return Err(TechFault::TooMany(LimitedList::Planes));
        }
        push(&mut self.planes, word)
    }

    /// Reads a line of the section `types`.
    #[tactic(auto, unfolding(crate::specs::TypeLines::type_line))]
    pub(super) fn read_type(&mut self, line: &[u8]) -> Result<(), TechFault>
        ensures read { OnOk result (type_line self.old (words_of line.now) ≡ Ok self.new) }
        ensures refused { IfErr result (λ fault. fault ≢ Memory → type_line self.old (words_of line.now) ≡ Err fault) }
    {
        let mut words = words(line);
        match (words.next(), words.next(), words.next()) {
            (Some(plane), Some(list), None) => self.add_type(plane, list),
            _ => Err(TechFault::BadForm),
        }
    }

    fn add_type(&mut self, plane: &[u8], list: &[u8]) -> Result<(), TechFault>
        ensures read { OnOk result (new_type self.old plane.now (pieces_of list.now) ≡ Ok self.new) }
        ensures refused { IfErr result (λ fault. fault ≢ Memory
            → new_type self.old plane.now (pieces_of list.now) ≡ Err fault) }
    {
        if !is_plain_name(plane) || !all_have(WordForm::LayerName, Parted::Listed(list)) {
            return Err(TechFault::BadForm);
        }
        match self.plane_named(plane) {
            Some(plane) => self.add_atom(list, plane as u8),
            None => Err(TechFault::NoPlane(Name::of(self.alloc, plane)?)),
        }
    }

    fn add_atom(&mut self, list: &[u8], plane: u8) -> Result<(), TechFault>
        ensures read { OnOk result (new_atom self.old (pieces_of list.now) plane ≡ Ok self.new) }
        ensures refused { IfErr result (λ fault. fault ≢ Memory
            → new_atom self.old (pieces_of list.now) plane ≡ Err fault) }
    {
        let layer = LayerId(self.layers.len() as u8);
        let names = match index_names(self.alloc, &mut self.index, list, layer) {
            Ok(names) => names,
            Err(fault) => {
                *self = Draft::new(self.alloc);
                return Err(fault);
            }
        };
        if self.types.len() >= MOST_TYPES {
            *self = Draft::new(self.alloc);
            return Err(TechFault::TooMany(LimitedList::Types));
        }
        if let Err(fault) = push_atom(self.alloc, &mut self.types, &mut self.layers, plane, names) {
            *self = Draft::new(self.alloc);
            return Err(fault.into());
        }
        Ok(())
    }
}
