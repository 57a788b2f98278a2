// Lines of the sections `contact` and `compose`.
ghost use Rattle.std.specs.Prelude.{◌≡◌, ◌≢◌, ◌==◌, ◌<◌, ◌≤◌, ◌+◌, ◌-◌, ◌++◌, ◌∷◌, [], length, map, slice_set, slice_index_or, Ok, Err};
ghost use Rattle.std.specs.Prelude.{OnOk, IfOk, IfErr};
ghost use Rattle.std.specs.List.{list_any, range_with_len};
ghost use Rattle.text_scan.specs.Words.{words_of};
ghost use Rattle.tech_model.specs.declared.faults.TechFault.TheVariants.{Memory};
ghost use Rattle.tech_model.specs.Types.{no_layer, type_number};
ghost use Rattle.tech_draft.specs.SetLines.{has_number, are_misplaced, is_part, other_residues, image_record, next_types};
ghost use Rattle.tech_draft.specs.SetLines.{with_images};
ghost use Rattle.tech_draft.specs.SetLines.{residues_of_layer, with_contact, new_contact, contacted, contact_line};
ghost use Rattle.tech_draft.specs.SetLines.{are_composable, is_settled, with_union, new_union, composed, compose_line};

use super::lookups::has_type;
use super::word_rules::WordRule;
use super::{Draft, set_parts};
use crate::parts::Parted;
use crate::words::{WordForm, all_have};
use names_lists::{List, Name};
use std::alloc::{AllocError, Global};
use tech_model::{LayerId, LayerRec, LimitedList, MOST_TYPES, PartSet, TechFault, TypeId, TypeRec};
use text_scan::{split_word, words};

fn has_number(numbers: &[u8], number: u8) -> bool
    ensures { result ≡ has_number numbers.now number }
{
    numbers.iter().any(|&other| other == number)
}

// The own image of a contact, and so many types from this number on.
fn numbered_images(
    alloc: Global,
    own: TypeId,
    first: usize,
    count: usize,
) -> Result<List<TypeId>, AllocError>
    requires { first + count ≤ u8.MAX }
    ensures { IfOk result (λ images. images ≡ own ∷ map type_number (range_with_len first count)) }
{
    let mut images = Vec::new(alloc);
    images.push(own)?;
    for number in first..first + count {
        images.push(TypeId(number as u8))?;
    }
    Ok(List::of(images))
}

// Puts these types at the end, and gives the layer these images.
fn put_images(
    types: &mut Vec<TypeRec>,
    layers: &mut Vec<LayerRec>,
    records: &[TypeRec],
    layer: LayerId,
    images: List<TypeId>,
) -> Result<(), AllocError>
    ensures types { OnOk result (types.new.items ≡ types.old.items ++ records.now) }
    ensures layers { OnOk result (layers.new.items ≡ slice_set layers.old.items layer.0
        (record (slice_index_or layers.old.items layer.0 no_layer) { images = images })) }
{
    types.extend_from_slice(records)?;
    set_images(layers, layer, images);
    Ok(())
}

// Gives a layer these images.
fn set_images(layers: &mut [LayerRec], layer: LayerId, images: List<TypeId>)
    ensures { layers.new ≡ slice_set layers.old layer.0
        (record (slice_index_or layers.old layer.0 no_layer) { images = images }) }
{
    let place = usize::from(layer.0);
    if place < layers.len() {
        layers[place].images = images;
    }
}

impl Draft {
    // Whether two residues stand on one plane, or none stands on the base's plane.
    #[tactic(auto, unfolding(crate::specs::SetLines::are_misplaced))]
    fn are_misplaced(&self, base: &[u8], residues: &[u8]) -> Result<bool, AllocError>
        ensures { IfOk result (λ misplaced. misplaced ≡ are_misplaced self.now.raw base.now (words_of residues.now)) }
    {
        let mut planes = Vec::new(self.alloc);
        for residue in words(residues) {
            let plane = self.plane_of_word(residue);
            if has_number(&planes, plane) {
                return Ok(true);
            }
            planes.push(plane)?;
        }
        Ok(!has_number(&planes, self.plane_of_word(base)))
    }

    fn is_residue(&self, kind: TypeId) -> bool
        ensures { result ≡ list_any (λ pair. pair.1.0 == kind.0) self.now.residues }
    {
        self.residues.iter().any(|pair| pair.1.0 == kind.0)
    }

    // Whether the type is a residue of a contact or a part of a composed type.
    #[tactic(auto, unfolding(crate::specs::SetLines::is_part))]
    fn is_part(&self, kind: TypeId) -> bool
        ensures { result ≡ is_part self.now kind }
    {
        self.is_residue(kind) || has_type(&self.used, kind)
    }

    // The residues on other planes than the base's, in order.
    fn other_residues(&self, base: &[u8], residues: &[u8]) -> Result<Vec<TypeId>, AllocError>
        ensures { IfOk result (λ others. others.items ≡ other_residues self.now.raw base.now (words_of residues.now)) }
    {
        let plane = self.plane_of_word(base);
        words(residues)
            .filter(|word| self.plane_of_word(word) != plane)
            .map(|word| self.type_of_word(word))
            .collect(self.alloc)
    }

    // The records of images of this layer on the planes of these residues.
    fn image_records(&self, layer: LayerId, others: &[TypeId]) -> Result<Vec<TypeRec>, AllocError>
        ensures { IfOk result (λ records. records.items ≡ map (image_record self.now.raw layer.0) others.now) }
    {
        others
            .iter()
            .map(|&residue| TypeRec {
                plane: self.plane_of(residue),
                layer,
                parts: PartSet(0),
            })
            .collect(self.alloc)
    }

    // Gives the layer its own image and one for each of these residues.
    fn add_images(
        &mut self,
        layer: LayerId,
        own: TypeId,
        others: &[TypeId],
    ) -> Result<(), AllocError>
        requires { length self.old.raw.types + length others.now ≤ MOST_TYPES }
        ensures { OnOk result (self.new ≡ record self.old { raw = with_images self.old.raw layer.0 own others.now }) }
    {
        let records = self.image_records(layer, others)?;
        let images = numbered_images(self.alloc, own, self.types.len() + 1, others.len())?;
        if let Err(fault) = put_images(&mut self.types, &mut self.layers, &records, layer, images) {
            *self = Draft::new(self.alloc);
            return Err(fault);
        }
        Ok(())
    }

    // The layer with each of these residues.
    fn residues_of_layer(
        &self,
        layer: LayerId,
        residues: &[u8],
    ) -> Result<Vec<(LayerId, TypeId)>, AllocError>
        ensures { IfOk result (λ pairs. pairs.items ≡ residues_of_layer self.now.raw layer.0 (words_of residues.now)) }
    {
        words(residues)
            .map(|word| (layer, self.type_of_word(word)))
            .collect(self.alloc)
    }

    // The residues on other planes than the base's, where the base may become a contact with all of them.
    fn check_contact(&self, base: &[u8], residues: &[u8]) -> Result<Vec<TypeId>, TechFault>
        ensures passed { OnOk result (new_contact self.now base.now (words_of residues.now)
            ≡ Ok (with_contact self.now base.now (words_of residues.now))) }
        ensures others { IfOk result (λ others. others.items ≡ other_residues self.now.raw base.now (words_of residues.now)) }
        ensures room { IfOk result (λ others. length self.now.raw.types + length others.items ≤ MOST_TYPES) }
        ensures refused { IfErr result (λ fault. fault ≢ Memory
            → new_contact self.now base.now (words_of residues.now) ≡ Err fault) }
    {
        if self.are_misplaced(base, residues)? {
            return Err(TechFault::BadForm);
        }
        let own = self.type_of_word(base);
        if self.is_contact(base) {
            return Err(TechFault::Twice(Name::of(self.alloc, base)?));
        }
        if self.is_part(own) {
            return Err(TechFault::ContactPart(Name::of(self.alloc, base)?));
        }
        self.refuse(WordRule::ContactOr(own), Parted::Line(residues))?;
        let others = self.other_residues(base, residues)?;
        if self.types.len().saturating_add(others.len()) > MOST_TYPES {
            return Err(TechFault::TooMany(LimitedList::Types));
        }
        Ok(others)
    }

    fn add_contact(&mut self, base: &[u8], residues: &[u8]) -> Result<(), TechFault>
        ensures read { OnOk result (new_contact self.old base.now (words_of residues.now) ≡ Ok self.new) }
        ensures refused { IfErr result (λ fault. fault ≢ Memory
            → new_contact self.old base.now (words_of residues.now) ≡ Err fault) }
    {
        let others = self.check_contact(base, residues)?;
        let layer = self.layer_of_word(base);
        let own = self.type_of_word(base);
        let pairs = self.residues_of_layer(layer, residues)?;
        self.residues.extend_from_slice(&pairs)?;
        self.add_images(layer, own, &others)?;
        Ok(())
    }

    /// Reads a line of the section `contact`.
    #[tactic(auto, unfolding(crate::specs::SetLines::contact_line))]
    pub(super) fn read_contact(&mut self, line: &[u8]) -> Result<(), TechFault>
        ensures read { OnOk result (contact_line self.old (words_of line.now) ≡ Ok self.new) }
        ensures refused { IfErr result (λ fault. fault ≢ Memory → contact_line self.old (words_of line.now) ≡ Err fault) }
    {
        let Some((base, residues)) = split_word(line) else {
            return Err(TechFault::BadForm);
        };
        let mut words = words(residues);
        match (words.next(), words.next()) {
            (Some(_), Some(_)) => self.contact(line, base, residues),
            _ => Err(TechFault::BadForm),
        }
    }

    // The words of the line are the base and its residues.
    fn contact(&mut self, line: &[u8], base: &[u8], residues: &[u8]) -> Result<(), TechFault>
        requires { words_of line.now ≡ base.now ∷ words_of residues.now }
        ensures read { OnOk result (contacted self.old base.now (words_of residues.now) ≡ Ok self.new) }
        ensures refused { IfErr result (λ fault. fault ≢ Memory
            → contacted self.old base.now (words_of residues.now) ≡ Err fault) }
    {
        if !all_have(WordForm::LayerTerm, Parted::Line(line)) {
            return Err(TechFault::BadForm);
        }
        self.check_layers(line)?;
        self.add_contact(base, residues)
    }

    #[tactic(auto, unfolding(crate::specs::SetLines::are_composable))]
    fn are_composable(&self, whole: TypeId, first: TypeId, second: TypeId) -> bool
        ensures { result ≡ are_composable self.now.raw whole first second }
    {
        let plane = self.plane_of(whole);
        self.plane_of(first) == plane
            && self.plane_of(second) == plane
            && first.0 != whole.0
            && second.0 != whole.0
            && first.0 != second.0
    }

    // Whether a `compose` line made the type or used it.
    #[tactic(auto, unfolding(crate::specs::SetLines::is_settled))]
    fn is_settled(&self, kind: TypeId) -> bool
        ensures { result ≡ is_settled self.now kind }
    {
        has_type(&self.results, kind) || has_type(&self.used, kind)
    }

    // Gives the whole the union of the sets of its parts.
    fn unite(&mut self, whole: TypeId, first: TypeId, second: TypeId) -> Result<(), AllocError>
        ensures { OnOk result (self.new ≡ with_union self.old whole first second) }
    {
        let parts = self.parts_of(first) | self.parts_of(second);
        self.used.push(first)?;
        self.used.push(second)?;
        self.results.push(whole)?;
        set_parts(&mut self.types, whole, PartSet(parts));
        Ok(())
    }

    // The three words of the line are the whole and its parts.
    fn add_union(
        &mut self,
        line: &[u8],
        whole: &[u8],
        first: &[u8],
        second: &[u8],
    ) -> Result<(), TechFault>
        requires { words_of line.now ≡ whole.now ∷ first.now ∷ second.now ∷ [] }
        ensures read { OnOk result (new_union self.old whole.now first.now second.now ≡ Ok self.new) }
        ensures refused { IfErr result (λ fault. fault ≢ Memory
            → new_union self.old whole.now first.now second.now ≡ Err fault) }
    {
        let (whole_type, first, second) = (
            self.type_of_word(whole),
            self.type_of_word(first),
            self.type_of_word(second),
        );
        if !self.are_composable(whole_type, first, second) {
            return Err(TechFault::BadForm);
        }
        if self.is_settled(whole_type) {
            return Err(TechFault::Twice(Name::of(self.alloc, whole)?));
        }
        self.refuse(WordRule::Contact, Parted::Line(line))?;
        self.unite(whole_type, first, second)?;
        Ok(())
    }

    fn compose(
        &mut self,
        line: &[u8],
        whole: &[u8],
        first: &[u8],
        second: &[u8],
    ) -> Result<(), TechFault>
        requires { words_of line.now ≡ whole.now ∷ first.now ∷ second.now ∷ [] }
        ensures read { OnOk result (composed self.old whole.now first.now second.now ≡ Ok self.new) }
        ensures refused { IfErr result (λ fault. fault ≢ Memory
            → composed self.old whole.now first.now second.now ≡ Err fault) }
    {
        if !all_have(WordForm::LayerTerm, Parted::Line(line)) {
            return Err(TechFault::BadForm);
        }
        self.check_layers(line)?;
        self.add_union(line, whole, first, second)
    }

    /// Reads a line of the section `compose`.
    #[tactic(auto, unfolding(crate::specs::SetLines::compose_line))]
    pub(super) fn read_compose(&mut self, line: &[u8]) -> Result<(), TechFault>
        ensures read { OnOk result (compose_line self.old (words_of line.now) ≡ Ok self.new) }
        ensures refused { IfErr result (λ fault. fault ≢ Memory → compose_line self.old (words_of line.now) ≡ Err fault) }
    {
        let Some((key, rest)) = split_word(line) else {
            return Err(TechFault::BadForm);
        };
        if key != b"compose".as_slice() {
            return Err(TechFault::BadForm);
        }
        let mut words = words(rest);
        match (words.next(), words.next(), words.next(), words.next()) {
            (Some(whole), Some(first), Some(second), None) => self.compose(
                rest, whole, first, second,
            ),
            _ => Err(TechFault::BadForm),
        }
    }
}
