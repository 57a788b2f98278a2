//! Reads a file of rules.
ghost use Rattle.std.specs.Prelude.{◌≡◌, ◌≢◌, ◌≤◌, ◌∷◌, ◌++◌, [], length, All, Ok, Err, OnOk, IfOk, IfErr};
ghost use Rattle.drc_rules.specs.declared.faults.DrcFault.TheVariants.{Memory as OutOfMemory};
ghost use Rattle.drc_rules.specs.LawfulRules.{IsLawfulRule};
ghost use Rattle.drc_rules.specs.RuleFiles.{with_rule, rules_of};

use crate::faults::{DrcAt, DrcFault};
use crate::limits::MOST_RULES;
use crate::line_forms::line_says;
use crate::rules::{Rule, Rules};
use names_lists::List;
use std::alloc::{AllocError, Global};
use std::marker::Model;
use tech_model::Tech;
use text_form::{LineReader, read_text};

/// A file of rules as far as its lines are read. Contracts see it as the rules.
#[derive(Drop)]
struct RuleDraft {
    alloc: Global,
    rules: Vec<Rule>,
}

impl Model for RuleDraft {
    ghost use Rattle.std.specs.Prelude.{List};
    ghost use Rattle.drc_rules.specs.declared.rules.Rule.{Rule};

    ghost Value = { List Rule };

    ghost view = { λ draft. draft.rules.items };
}

// Adds a rule at the end. Want of memory alone refuses.
fn put(rules: &mut Vec<Rule>, rule: Rule) -> Result<(), AllocError>
    ensures { OnOk result (rules.new.items ≡ rules.old.items ++ rule ∷ []) }
{
    rules.push(rule)?;
    Ok(())
}

impl RuleDraft {
    fn new(alloc: Global) -> RuleDraft
        ensures { result ≡ [] }
    {
        RuleDraft {
            alloc,
            rules: Vec::new(alloc),
        }
    }

    fn add(&mut self, said: Option<Rule>) -> Result<(), DrcFault>
        ensures read { OnOk result (with_rule self.old said ≡ Ok self.new) }
        ensures refused { IfErr result (λ fault. fault ≢ OutOfMemory → with_rule self.old said ≡ Err fault) }
    {
        let Some(rule) = said else {
            return Ok(());
        };
        if MOST_RULES <= self.rules.len() {
            return Err(DrcFault::TooManyRules);
        }
        put(&mut self.rules, rule)?;
        Ok(())
    }

    fn into_rules(self) -> Rules
        ensures { result.rules ≡ self }
    {
        let RuleDraft { alloc: _, rules } = self;
        Rules {
            rules: List::of(rules),
        }
    }
}

impl LineReader for RuleDraft {
    ghost use Rattle.std.specs.Prelude.{Ok};
    ghost use Rattle.drc_rules.specs.declared.faults.DrcFault.TheVariants.{Memory};
    ghost use Rattle.drc_rules.specs.RuleFiles.{with_line};

    type Context = Tech;

    type Fault = DrcFault;

    ghost memory = { Memory };

    ghost step = { λ tech number. with_line tech };

    ghost finish = { λ _. Ok };

    fn memory() -> DrcFault {
        DrcFault::Memory
    }

    fn read_line(&mut self, tech: &Tech, _number: usize, line: &[u8]) -> Result<(), DrcFault> {
        let said = line_says(self.alloc, tech, line)?;
        self.add(said)
    }

    fn end(&mut self, _tech: &Tech) -> Result<(), DrcFault> {
        Ok(())
    }
}

// The rules of a file's lines.
#[tactic(auto, unfolding(crate::specs::RuleFiles::rules_of))]
fn read_lines(alloc: Global, tech: &Tech, bytes: &[u8]) -> Result<Rules, DrcAt>
    ensures read { IfOk result (λ rules. rules_of tech.now bytes.now ≡ Ok rules.rules) }
    ensures refused { IfErr result (λ at. at.fault ≢ OutOfMemory → rules_of tech.now bytes.now ≡ Err at) }
{
    let mut draft = RuleDraft::new(alloc);
    match read_text(&mut draft, tech, bytes) {
        Ok(()) => Ok(draft.into_rules()),
        Err(at) => Err(at),
    }
}

/// The rules of a file for a technology. It takes time linear in the file.
///
/// # Errors
///
/// The number of the first faulty line and its first fault, or want of memory.
pub fn read_drc(alloc: Global, tech: &Tech, bytes: &[u8]) -> Result<Rules, DrcAt>
    ensures read { IfOk result (λ rules. rules_of tech.now bytes.now ≡ Ok rules.rules) }
    ensures lawful { IfOk result (λ rules. All (IsLawfulRule tech.now) rules.rules) }
    ensures few { IfOk result (λ rules. length rules.rules ≤ MOST_RULES) }
    ensures refused { IfErr result (λ at. at.fault ≢ OutOfMemory → rules_of tech.now bytes.now ≡ Err at) }
{
    let _ = tech.raw();
    read_lines(alloc, tech, bytes)
}
