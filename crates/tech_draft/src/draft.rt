//! A technology as far as the lines of its text were read.
ghost use Rattle.std.specs.Prelude.{◌≡◌, ◌≢◌, ◌<◌, ◌-◌, ◌&&◌, nat_le, if◌then◌else◌, [], length, find, map, ◌↔◌, slice_set, slice_index_or};
ghost use Rattle.std.specs.Prelude.{Ok, Err, OnOk, IfOk, IfErr, IfSome, IsTrue};
ghost use Rattle.text_scan.specs.Words.{words_of};
ghost use Rattle.text_scan.specs.PlainNames.{is_plain_name};
ghost use Rattle.tech_model.specs.declared.faults.TechFault.TheVariants.{Memory};
ghost use Rattle.tech_model.specs.Types.{no_type};
ghost use Rattle.tech_model.specs.WellFormed.{IsWellFormed};
ghost use Rattle.tech_draft.specs.Drafts.{empty_draft};
ghost use Rattle.tech_draft.specs.Lines.{line_in};
ghost use Rattle.tech_draft.specs.Finished.{is_residue_of, mark_bit, set_with, finished_type, finished};
ghost use Rattle.tech_draft.specs.Sound.{IsSound};

use self::pair_list::PairList;
use names_lists::{List, Name};
use std::alloc::{AllocError, Global};
use std::marker::Model;
use tech_model::{
    ClassRec, FIRST_MARK, FetRule, LayerId, LayerIndex, LayerRec, MOST_TYPES, PartSet, RawTech,
    Section, TechFault, TypeId, TypeRec,
};

mod list_lines;
mod lookups;
mod pair_list;
mod set_lines;
mod type_lines;
mod word_rules;

/// A technology as far as the lines of its text were read.
#[derive(Drop)]
pub struct Draft {
    alloc: Global,
    index: LayerIndex,
    name: Name,
    planes: Vec<Name>,
    layers: Vec<LayerRec>,
    types: Vec<TypeRec>,
    pairs: PairList,
    classes: Vec<ClassRec>,
    fets: Vec<FetRule>,
    residues: Vec<(LayerId, TypeId)>,
    used: Vec<TypeId>,
    results: Vec<TypeId>,
    capped: Vec<usize>,
}

impl Model for Draft {
    ghost use Rattle.tech_draft.specs.Drafts.{Drafted};

    ghost Value = { Drafted };

    ghost use Rattle.tech_draft.specs.Kept.{draft_of, IsKept};

    ghost view = { draft_of };

    ghost invariant = { IsKept };
}

impl Draft {
    /// A draft of which no line was read. It takes no memory.
    pub fn new(alloc: Global) -> Draft
        ensures { result ≡ empty_draft }
    {
        Draft {
            alloc,
            index: LayerIndex::new(alloc),
            name: Name::empty(alloc),
            planes: Vec::new(alloc),
            layers: Vec::new(alloc),
            types: Vec::new(alloc),
            pairs: PairList::new(alloc),
            classes: Vec::new(alloc),
            fets: Vec::new(alloc),
            residues: Vec::new(alloc),
            used: Vec::new(alloc),
            results: Vec::new(alloc),
            capped: Vec::new(alloc),
        }
    }

    /// Whether the line with the technology's name was read.
    pub fn name_is_read(&self) -> bool
        ensures { IsTrue result ↔ (self.now.raw.name ≢ []) }
    {
        !self.name.bytes().is_empty()
    }

    /// Reads a line of the section. Words are read where they stand, and copied only where they are kept.
    ///
    /// # Errors
    ///
    /// The first rule that the line breaks, or want of memory. The draft is not to be used again then.
    pub fn read_line(&mut self, section: Section, line: &[u8]) -> Result<(), TechFault>
        ensures read { OnOk result (line_in section self.old (words_of line.now) ≡ Ok self.new) }
        ensures refused { IfErr result (λ fault. fault ≢ Memory
            → line_in section self.old (words_of line.now) ≡ Err fault) }
        ensures sound { IsSound self.old → OnOk result (IsSound self.new) }
    {
        self.read_in(section, line)
    }

    #[tactic(auto, unfolding(crate::specs::Lines::line_in))]
    fn read_in(&mut self, section: Section, line: &[u8]) -> Result<(), TechFault>
        ensures read { OnOk result (line_in section self.old (words_of line.now) ≡ Ok self.new) }
        ensures refused { IfErr result (λ fault. fault ≢ Memory
            → line_in section self.old (words_of line.now) ≡ Err fault) }
    {
        match section {
            Section::Tech => self.read_name(line),
            Section::Planes => self.read_plane(line),
            Section::Types => self.read_type(line),
            Section::Contact => self.read_contact(line),
            Section::Compose => self.read_compose(line),
            Section::Connect => self.read_connect(line),
            Section::Extract => self.read_extract(line),
        }
    }

    /// The technology of the lines: each image of a contact has the set of its residue and the mark. The lists of
    /// a sound draft with a name fit together.
    ///
    /// # Errors
    ///
    /// Want of memory.
    pub fn into_raw(self) -> Result<RawTech, TechFault>
        ensures value { IfOk result (λ raw. raw ≡ finished self) }
        ensures well_formed { IsSound self → IsTrue (is_plain_name self.raw.name) → IfOk result IsWellFormed }
        ensures only_memory { IfErr result (λ fault. fault ≡ Memory) }
    {
        self.finish()
    }

    #[tactic(auto, unfolding(crate::specs::Finished::finished))]
    fn finish(self) -> Result<RawTech, TechFault>
        ensures value { IfOk result (λ raw. raw ≡ finished self) }
        ensures only_memory { IfErr result (λ fault. fault ≡ Memory) }
    {
        let types = self.finished_types()?;
        Ok(self.with_types(types))
    }

    // The technology of these types and of the other lists.
    fn with_types(self, types: Vec<TypeRec>) -> RawTech
        ensures { result ≡ record self.raw { types = types.items } }
    {
        let Draft {
            name,
            planes,
            layers,
            pairs,
            classes,
            fets,
            ..
        } = self;
        RawTech {
            name,
            planes: List::of(planes),
            layers: List::of(layers),
            types: List::of(types),
            pairs: List::of(pairs.into_items()),
            classes: List::of(classes),
            fets: List::of(fets),
        }
    }

    fn finished_types(&self) -> Result<Vec<TypeRec>, AllocError>
        ensures { IfOk result (λ types. types.items ≡ map (finished_type self.now) self.now.raw.types) }
    {
        self.types
            .iter()
            .map(|kind| self.finished_type(kind))
            .collect(self.alloc)
    }

    // The type, with the mark of its contact and the set of its residue where it has one.
    fn finished_type(&self, kind: &TypeRec) -> TypeRec
        ensures { result ≡ finished_type self.now kind.now }
    {
        let parts = match self.residue_of(kind) {
            Some(pair) => mark_of(pair.0) | self.parts_of(pair.1),
            None => kind.parts.0,
        };
        TypeRec {
            plane: kind.plane,
            layer: kind.layer,
            parts: PartSet(parts),
        }
    }

    fn residue_of(&self, kind: &TypeRec) -> Option<(LayerId, TypeId)>
        ensures found { result ≡ find (is_residue_of self.now.raw kind.now) self.now.residues }
        ensures in_range { IfSome result (λ pair. pair.0.0 < MOST_TYPES) }
    {
        self.residues.iter().copied().find(|pair| pair.0.0 == kind.layer.0
            && self.plane_of(pair.1) == kind.plane)
    }
}

/// The mark of the contact with this layer, a bit of its sets.
fn mark_of(layer: LayerId) -> u128
    requires { layer.0 < MOST_TYPES }
    ensures { result ≡ mark_bit layer.0 }
{
    1u128 << (FIRST_MARK + layer.0)
}

/// The set of a type of these, the empty set for space.
fn parts_in(types: &[TypeRec], kind: TypeId) -> u128
    ensures { result ≡ (if nat_le 1 kind.0 && nat_le kind.0 (length types.now)
        then (slice_index_or types.now (kind.0 - 1) no_type).parts.0 else 0) }
{
    if kind.0 == 0 {
        return 0;
    }
    match types.get(usize::from(kind.0) - 1) {
        Some(record) => record.parts.0,
        None => 0,
    }
}

// Gives a type this set.
fn set_parts(types: &mut [TypeRec], kind: TypeId, parts: PartSet)
    ensures { types.new ≡ slice_set types.old (kind.0 - 1)
        (record (slice_index_or types.old (kind.0 - 1) no_type) { parts = parts }) }
{
    let place = usize::from(kind.0).saturating_sub(1);
    if place < types.len() {
        types[place].parts = parts;
    }
}
