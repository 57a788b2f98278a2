// Lines of the sections `connect` and `extract`.
ghost use Rattle.std.specs.Prelude.{◌≡◌, ◌≢◌, ◌==◌, ◌∷◌, length, Ok, Err, OnOk, IfOk, IfErr};
ghost use Rattle.std.specs.List.{list_any, list_all};
ghost use Rattle.text_scan.specs.Words.{words_of};
ghost use Rattle.tech_model.specs.declared.faults.TechFault.TheVariants.{Memory};
ghost use Rattle.tech_draft.specs.Lookups.{has_type, types_of_list};
ghost use Rattle.tech_draft.specs.ListLines.{with_pair, with_partners, with_pairs, with_pair_list, connected, connect_line};
ghost use Rattle.tech_draft.specs.ListLines.{with_class, new_class, resist_line, class_at, shared_class, is_capped, uncapped};
ghost use Rattle.tech_draft.specs.ListLines.{with_capacitance, new_capacitance, cap_line, is_fet_form, has_fet, check_fet};
ghost use Rattle.tech_draft.specs.ListLines.{with_rule, new_fet, fet_line, extract_line};

use super::Draft;
use super::lookups::has_type;
use super::word_rules::WordRule;
use crate::parts::{Parted, first_piece};
use crate::words::{is_entry, is_entry_list, is_naming_label, measure_in, parts_of_entry};
use names_lists::{List, Name};
use std::alloc::AllocError;
use tech_model::{ClassRec, FetRule, LimitedList, MOST_CLASSES, MOST_FETS, TechFault, TypeId};
use text_scan::{is_plain_name, split_word, words};

fn is_fet_form(kind: &[u8], list: &[u8], name: &[u8], substrate: &[u8]) -> bool
    ensures { result ≡ is_fet_form kind.now list.now name.now substrate.now }
{
    is_entry(kind) && is_entry_list(list) && is_plain_name(name) && is_naming_label(substrate)
}

impl Draft {
    // Lets two types of one plane connect, where they don't yet.
    fn add_pair(&mut self, first: TypeId, second: TypeId) -> Result<(), AllocError>
        ensures { OnOk result (self.new
            ≡ with_pair_list self.old (with_pair self.old.raw first self.old.raw.pairs second)) }
    {
        if self.plane_of(first) == self.plane_of(second) && !self.pairs.has(first, second) {
            self.pairs.push(first, second)?;
        }
        Ok(())
    }

    fn add_partners(&mut self, first: TypeId, seconds: &[TypeId]) -> Result<(), AllocError>
        ensures { OnOk result (self.new
            ≡ with_pair_list self.old (with_partners self.old.raw seconds.now self.old.raw.pairs first)) }
    {
        for &second in seconds {
            self.add_pair(first, second)?;
        }
        Ok(())
    }

    // The lists of a line have each type once, so they make at most the square of `MOST_TYPES` pairs.
    fn add_pairs(&mut self, firsts: &[TypeId], seconds: &[TypeId]) -> Result<(), AllocError>
        ensures { OnOk result (self.new
            ≡ with_pair_list self.old (with_pairs self.old.raw firsts.now seconds.now)) }
    {
        for &first in firsts {
            self.add_partners(first, seconds)?;
        }
        Ok(())
    }

    /// Reads a line of the section `connect`.
    #[tactic(auto, unfolding(crate::specs::ListLines::connect_line))]
    pub(super) fn read_connect(&mut self, line: &[u8]) -> Result<(), TechFault>
        ensures read { OnOk result (connect_line self.old (words_of line.now) ≡ Ok self.new) }
        ensures refused { IfErr result (λ fault. fault ≢ Memory → connect_line self.old (words_of line.now) ≡ Err fault) }
    {
        let mut words = words(line);
        match (words.next(), words.next(), words.next()) {
            (Some(first), Some(second), None) => self.connect(first, second),
            _ => Err(TechFault::BadForm),
        }
    }

    fn connect(&mut self, first: &[u8], second: &[u8]) -> Result<(), TechFault>
        ensures read { OnOk result (connected self.old first.now second.now ≡ Ok self.new) }
        ensures refused { IfErr result (λ fault. fault ≢ Memory → connected self.old first.now second.now ≡ Err fault) }
    {
        if !is_entry_list(first) || !is_entry_list(second) {
            return Err(TechFault::BadForm);
        }
        self.check_entries(Parted::Listed(first), Parted::Listed(second))?;
        let firsts = self.types_of_list(first)?;
        let seconds = self.types_of_list(second)?;
        self.add_pairs(&firsts, &seconds)?;
        Ok(())
    }

    // Reads the words after `resist`.
    #[tactic(auto, unfolding(crate::specs::ListLines::resist_line))]
    fn read_resist(&mut self, line: &[u8]) -> Result<(), TechFault>
        ensures read { OnOk result (resist_line self.old (words_of line.now) ≡ Ok self.new) }
        ensures refused { IfErr result (λ fault. fault ≢ Memory → resist_line self.old (words_of line.now) ≡ Err fault) }
    {
        let mut words = words(line);
        match (words.next(), words.next(), words.next()) {
            (Some(list), Some(value), None) => self.add_class(list, measure_in(value)?),
            _ => Err(TechFault::BadForm),
        }
    }

    fn add_class(&mut self, list: &[u8], value: u64) -> Result<(), TechFault>
        ensures read { OnOk result (new_class self.old list.now value ≡ Ok self.new) }
        ensures refused { IfErr result (λ fault. fault ≢ Memory → new_class self.old list.now value ≡ Err fault) }
    {
        if !is_entry_list(list) {
            return Err(TechFault::BadForm);
        }
        self.check_entries(Parted::Nothing, Parted::Listed(list))?;
        self.refuse(WordRule::Classed, Parted::Listed(list))?;
        if self.classes.len() >= MOST_CLASSES {
            return Err(TechFault::TooMany(LimitedList::Classes));
        }
        let types = self.types_of_list(list)?;
        self.push_class(types, value)?;
        Ok(())
    }

    fn push_class(&mut self, types: Vec<TypeId>, value: u64) -> Result<(), AllocError>
        ensures { OnOk result (self.new ≡ with_class self.old types.items value) }
    {
        let class = ClassRec {
            value,
            per_area: 0,
            per_perimeter: 0,
            types: List::of(types),
        };
        self.classes.push(class)?;
        Ok(())
    }

    // Whether all these types belong to the class.
    fn holds_all(&self, class: usize, types: &[TypeId]) -> bool
        ensures { result ≡ list_all (has_type (class_at self.now.raw class).types) types.now }
    {
        let members = self.class_types(class);
        types.iter().all(|&kind| has_type(members, kind))
    }

    fn class_types(&self, class: usize) -> &[TypeId]
        ensures { result.now ≡ (class_at self.now.raw class).types }
    {
        match self.classes.get(class) {
            Some(record) => record.types.items(),
            None => &[],
        }
    }

    // The class that all these types belong to.
    fn shared_class(&self, types: &[TypeId]) -> Option<usize>
        ensures { result ≡ shared_class self.now.raw types.now }
    {
        let [first, others @ ..] = types else {
            return None;
        };
        let class = self.class_of(*first)?;
        self.holds_all(class, others).then_some(class)
    }

    // Reads the words after `cap`.
    #[tactic(auto, unfolding(crate::specs::ListLines::cap_line))]
    fn read_cap(&mut self, line: &[u8]) -> Result<(), TechFault>
        ensures read { OnOk result (cap_line self.old (words_of line.now) ≡ Ok self.new) }
        ensures refused { IfErr result (λ fault. fault ≢ Memory → cap_line self.old (words_of line.now) ≡ Err fault) }
    {
        let mut words = words(line);
        match (words.next(), words.next(), words.next(), words.next()) {
            (Some(list), Some(area), Some(perimeter), None) => {
                let per_area = measure_in(area)?;
                self.add_capacitance(list, per_area, measure_in(perimeter)?)
            }
            _ => Err(TechFault::BadForm),
        }
    }

    fn add_capacitance(
        &mut self,
        list: &[u8],
        per_area: u64,
        per_perimeter: u64,
    ) -> Result<(), TechFault>
        ensures read { OnOk result (new_capacitance self.old list.now per_area per_perimeter ≡ Ok self.new) }
        ensures refused { IfErr result (λ fault. fault ≢ Memory
            → new_capacitance self.old list.now per_area per_perimeter ≡ Err fault) }
    {
        if !is_entry_list(list) {
            return Err(TechFault::BadForm);
        }
        self.check_entries(Parted::Nothing, Parted::Listed(list))?;
        let class = self.uncapped(list)?;
        self.set_capacitance(class, per_area, per_perimeter)?;
        Ok(())
    }

    // The class of all types of the list, where it has no `cap` line.
    fn uncapped(&self, list: &[u8]) -> Result<usize, TechFault>
        ensures ok { IfOk result (λ class.
            uncapped self.now list.now (shared_class self.now.raw (types_of_list self.now.raw list.now)) ≡ Ok class) }
        ensures refused { IfErr result (λ fault. fault ≢ Memory
            → uncapped self.now list.now (shared_class self.now.raw (types_of_list self.now.raw list.now)) ≡ Err fault) }
    {
        let types = self.types_of_list(list)?;
        let Some(class) = self.shared_class(&types) else {
            return Err(TechFault::BadForm);
        };
        if self.is_capped(class) {
            let (name, _) = parts_of_entry(first_piece(list));
            return Err(TechFault::Twice(Name::of(self.alloc, name)?));
        }
        Ok(class)
    }

    fn is_capped(&self, class: usize) -> bool
        ensures { result ≡ is_capped self.now class }
    {
        self.capped.iter().any(|&capped| capped == class)
    }

    fn set_capacitance(
        &mut self,
        class: usize,
        per_area: u64,
        per_perimeter: u64,
    ) -> Result<(), AllocError>
        ensures { OnOk result (self.new ≡ with_capacitance self.old per_area per_perimeter class) }
    {
        self.capped.push(class)?;
        if let Some(record) = self.classes.get_mut(class) {
            record.per_area = per_area;
            record.per_perimeter = per_perimeter;
        }
        Ok(())
    }

    // Reads the words after `fet`.
    #[tactic(auto, unfolding(crate::specs::ListLines::fet_line))]
    fn read_fet(&mut self, line: &[u8]) -> Result<(), TechFault>
        ensures read { OnOk result (fet_line self.old (words_of line.now) ≡ Ok self.new) }
        ensures refused { IfErr result (λ fault. fault ≢ Memory → fet_line self.old (words_of line.now) ≡ Err fault) }
    {
        let mut words = words(line);
        match (
            words.next(),
            words.next(),
            words.next(),
            words.next(),
            words.next(),
        ) {
            (Some(kind), Some(list), Some(name), Some(substrate), None) => {
                self.add_fet(kind, list, name, substrate)
            }
            _ => Err(TechFault::BadForm),
        }
    }

    fn has_fet(&self, kind: TypeId) -> bool
        ensures { result ≡ has_fet self.now.raw kind }
    {
        self.fets.iter().any(|fet| fet.kind.0 == kind.0)
    }

    // Refuses a word that doesn't mean one type, or a type that may have no rule.
    fn check_fet(&self, kind: &[u8]) -> Result<(), TechFault>
        ensures passed { OnOk result (check_fet self.now.raw kind.now ≡ Ok tt) }
        ensures refused { IfErr result (λ fault. fault ≢ Memory → check_fet self.now.raw kind.now ≡ Err fault) }
    {
        if self.entry_types(kind).len() > 1 {
            return Err(TechFault::BadForm);
        }
        if self.has_fet(self.type_of_word(kind)) {
            let (name, _) = parts_of_entry(kind);
            return Err(TechFault::Twice(Name::of(self.alloc, name)?));
        }
        if self.fets.len() >= MOST_FETS {
            return Err(TechFault::TooMany(LimitedList::Fets));
        }
        Ok(())
    }

    fn add_fet(
        &mut self,
        kind: &[u8],
        list: &[u8],
        name: &[u8],
        substrate: &[u8],
    ) -> Result<(), TechFault>
        ensures read { OnOk result (new_fet self.old kind.now list.now name.now substrate.now ≡ Ok self.new) }
        ensures refused { IfErr result (λ fault. fault ≢ Memory
            → new_fet self.old kind.now list.now name.now substrate.now ≡ Err fault) }
    {
        if !is_fet_form(kind, list, name, substrate) {
            return Err(TechFault::BadForm);
        }
        self.check_entries(Parted::Lone(kind), Parted::Listed(list))?;
        self.check_fet(kind)?;
        let fet = FetRule {
            kind: self.type_of_word(kind),
            terminals: List::of(self.types_of_list(list)?),
            name: Name::of(self.alloc, name)?,
            substrate: Name::of(self.alloc, substrate)?,
        };
        self.push_fet(fet)?;
        Ok(())
    }

    fn push_fet(&mut self, fet: FetRule) -> Result<(), AllocError>
        ensures { OnOk result (self.new ≡ with_rule self.old fet) }
    {
        self.fets.push(fet)?;
        Ok(())
    }

    /// Reads a line of the section `extract`.
    #[tactic(auto, unfolding(crate::specs::ListLines::extract_line))]
    pub(super) fn read_extract(&mut self, line: &[u8]) -> Result<(), TechFault>
        ensures read { OnOk result (extract_line self.old (words_of line.now) ≡ Ok self.new) }
        ensures refused { IfErr result (λ fault. fault ≢ Memory → extract_line self.old (words_of line.now) ≡ Err fault) }
    {
        let Some((key, rest)) = split_word(line) else {
            return Ok(());
        };
        if key == b"resist".as_slice() {
            self.read_resist(rest)
        } else if key == b"cap".as_slice() {
            self.read_cap(rest)
        } else if key == b"fet".as_slice() {
            self.read_fet(rest)
        } else {
            Ok(())
        }
    }
}
