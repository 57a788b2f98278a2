// Rules for words, and the first word that breaks one.
ghost use Rattle.std.specs.Prelude.{◌≡◌, ◌≢◌, ◌++◌, ◌∷◌, find, Ok, Err, OnOk, IfOk, IfErr};
ghost use Rattle.std.specs.Option.{option_map};
ghost use Rattle.text_scan.specs.Words.{words_of};
ghost use Rattle.tech_model.specs.declared.faults.TechFault.TheVariants.{Memory};
ghost use Rattle.tech_draft.specs.steps.Parts.{parts_in};
ghost use Rattle.tech_draft.specs.WordRules.{breaks, word_fault, refuse, check_entries, check_layers};

use super::Draft;
use crate::parts::{Parted, each_part};
use crate::words::{has_operator, has_slash, parts_of_entry};
use names_lists::Name;
use tech_model::{TechFault, TypeId};

/// What a word may not have.
#[derive(Clone, Copy)]
pub(super) enum WordRule {
    /// An operator of expressions over types.
    Operator,
    /// An operator or a slash.
    OperatorOrSlash,
    /// A plane that there is not.
    UnknownPlane,
    /// No type that it means.
    Meaningless,
    /// A type that is in a class.
    Classed,
    /// A contact.
    Contact,
    /// A contact, or this type.
    ContactOr(TypeId),
}

impl Draft {
    fn breaks(&self, rule: WordRule, word: &[u8]) -> bool
        ensures { result ≡ breaks self.now.raw rule word.now }
    {
        match rule {
            WordRule::Operator => has_operator(word),
            WordRule::OperatorOrSlash => has_operator(word) || has_slash(word),
            WordRule::UnknownPlane => {
                has_slash(word) && self.plane_named(parts_of_entry(word).1).is_none()
            }
            WordRule::Meaningless => self.entry_types(word).is_empty(),
            WordRule::Classed => self.is_classed(word),
            WordRule::Contact => self.is_contact(word),
            WordRule::ContactOr(kind) => {
                self.is_contact(word) || self.type_of_word(word).0 == kind.0
            }
        }
    }

    // The fault of a word that breaks the rule.
    fn word_fault(&self, rule: WordRule, word: &[u8]) -> Result<TechFault, TechFault>
        ensures ok { IfOk result (λ fault. fault ≡ word_fault rule word.now) }
        ensures only_memory { IfErr result (λ fault. fault ≡ Memory) }
    {
        let (name, plane) = parts_of_entry(word);
        match rule {
            WordRule::Operator | WordRule::OperatorOrSlash => {
                Ok(TechFault::TypeExpression(Name::of(self.alloc, word)?))
            }
            WordRule::UnknownPlane => Ok(TechFault::NoPlane(Name::of(self.alloc, plane)?)),
            WordRule::Meaningless => Ok(TechFault::NoType(Name::of(self.alloc, name)?)),
            WordRule::Classed => Ok(TechFault::Twice(Name::of(self.alloc, name)?)),
            WordRule::Contact | WordRule::ContactOr(_) => {
                Ok(TechFault::ContactPart(Name::of(self.alloc, word)?))
            }
        }
    }

    /// Refuses the first part of the text that breaks the rule.
    pub(super) fn refuse(&self, rule: WordRule, text: Parted<'_>) -> Result<(), TechFault>
        ensures passed { OnOk result (refuse self.now.raw rule (parts_in text.entry) ≡ Ok tt) }
        ensures refused { IfErr result (λ fault. fault ≢ Memory
            → refuse self.now.raw rule (parts_in text.entry) ≡ Err fault) }
    {
        self.refuse_both(rule, Parted::Nothing, text)
    }

    // The first part of two texts that breaks the rule.
    fn first_breaking<'a>(
        &self,
        rule: WordRule,
        first: Parted<'a>,
        second: Parted<'a>,
    ) -> Option<&'a [u8]>
        ensures { option_map (λ word. word.now) result
            ≡ find (breaks self.now.raw rule) (parts_in first.entry ++ parts_in second.entry) }
    {
        each_part(first)
            .chain(each_part(second))
            .find(|word| self.breaks(rule, word))
    }

    // Refuses the first part of two texts that breaks the rule.
    #[tactic(auto, unfolding(crate::specs::WordRules::refuse))]
    fn refuse_both(
        &self,
        rule: WordRule,
        first: Parted<'_>,
        second: Parted<'_>,
    ) -> Result<(), TechFault>
        ensures passed { OnOk result (refuse self.now.raw rule (parts_in first.entry ++ parts_in second.entry) ≡ Ok tt) }
        ensures refused { IfErr result (λ fault. fault ≢ Memory
            → refuse self.now.raw rule (parts_in first.entry ++ parts_in second.entry) ≡ Err fault) }
    {
        match self.first_breaking(rule, first, second) {
            Some(word) => Err(self.word_fault(rule, word)?),
            None => Ok(()),
        }
    }

    /// Refuses the first entry that is an expression, then the first plane that there is not, then the first name
    /// without a type.
    #[tactic(auto, unfolding(crate::specs::WordRules::check_entries))]
    pub(super) fn check_entries(
        &self,
        first: Parted<'_>,
        second: Parted<'_>,
    ) -> Result<(), TechFault>
        ensures passed { OnOk result (check_entries self.now.raw (parts_in first.entry ++ parts_in second.entry) ≡ Ok tt) }
        ensures refused { IfErr result (λ fault. fault ≢ Memory
            → check_entries self.now.raw (parts_in first.entry ++ parts_in second.entry) ≡ Err fault) }
    {
        self.refuse_both(WordRule::Operator, first, second)?;
        self.refuse_both(WordRule::UnknownPlane, first, second)?;
        self.refuse_both(WordRule::Meaningless, first, second)
    }

    /// Refuses the first word of the line that is an expression, and then the first that names no layer.
    #[tactic(auto, unfolding(crate::specs::WordRules::check_layers))]
    pub(super) fn check_layers(&self, line: &[u8]) -> Result<(), TechFault>
        ensures passed { OnOk result (check_layers self.now.raw (words_of line.now) ≡ Ok tt) }
        ensures refused { IfErr result (λ fault. fault ≢ Memory → check_layers self.now.raw (words_of line.now) ≡ Err fault) }
    {
        self.refuse(WordRule::OperatorOrSlash, Parted::Line(line))?;
        self.refuse(WordRule::Meaningless, Parted::Line(line))
    }
}
