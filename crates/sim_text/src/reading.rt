//! Reads a sim text.
ghost use Rattle.std.specs.Prelude.{◌≡◌, ◌≢◌, ◌++◌, ◌∷◌, [], Ok, Err, OnOk, IfOk, IfErr};
ghost use Rattle.sim_text.specs.declared.faults.SimFault.TheVariants.{Memory as OutOfMemory};
ghost use Rattle.sim_text.specs.SimTexts.{nothing_yet, with_line, sim_in};

use crate::faults::{SimAt, SimFault};
use crate::files::{SimFet, SimFile, SimLine};
use crate::line_forms::says;
use names_lists::{List, Name};
use std::alloc::{AllocError, Global};
use std::marker::Model;
use text_form::{LineReader, read_text};

/// A circuit as far as its lines are read. Contracts see it as the circuit.
struct SimDraft {
    alloc: Global,
    tech_name: Name,
    transistors: Vec<SimFet>,
    capacitances: Vec<(Name, i128)>,
    other_names: Vec<(Name, Name)>,
}

impl Drop for SimDraft {
    fn drop(self) {
        let SimDraft {
            alloc: _,
            tech_name: _,
            transistors: _,
            capacitances: _,
            other_names: _,
        } = self;
    }
}

impl Model for SimDraft {
    ghost use Rattle.sim_text.specs.declared.files.SimFile.{SimFile};

    ghost Value = { SimFile };

    ghost view = { λ draft. record {
      tech = draft.tech_name;
      fets = draft.transistors.items;
      caps = draft.capacitances.items;
      aliases = draft.other_names.items;
    } };
}

fn put<T: Drop>(items: &mut Vec<T>, item: T) -> Result<(), AllocError>
    ensures { OnOk result (items.new.items ≡ items.old.items ++ item ∷ []) }
{
    items.push(item)?;
    Ok(())
}

impl SimDraft {
    fn new(alloc: Global) -> SimDraft
        ensures { result ≡ nothing_yet }
    {
        SimDraft {
            alloc,
            tech_name: Name::empty(alloc),
            transistors: Vec::new(alloc),
            capacitances: Vec::new(alloc),
            other_names: Vec::new(alloc),
        }
    }

    fn add(&mut self, said: SimLine) -> Result<(), SimFault>
        ensures read { OnOk result (self.new ≡ with_line self.old said) }
        ensures refused { IfErr result (λ fault. fault ≡ OutOfMemory) }
    {
        match said {
            SimLine::Header(name) => self.tech_name = name,
            SimLine::Fet(fet) => put(&mut self.transistors, fet)?,
            SimLine::Cap(node, cap) => put(&mut self.capacitances, (node, cap))?,
            SimLine::Alias(node, alias) => put(&mut self.other_names, (node, alias))?,
            SimLine::Nothing => {}
        }
        Ok(())
    }

    fn into_file(self) -> SimFile
        ensures { result ≡ self }
    {
        let SimDraft {
            alloc: _,
            tech_name,
            transistors,
            capacitances,
            other_names,
        } = self;
        SimFile {
            tech: tech_name,
            fets: List::of(transistors),
            caps: List::of(capacitances),
            aliases: List::of(other_names),
        }
    }
}

impl LineReader for SimDraft {
    ghost use Rattle.sim_text.specs.declared.faults.SimFault.TheVariants.{Memory};
    ghost use Rattle.text_form.specs.SaidLines.{saying};
    ghost use Rattle.sim_text.specs.LineForms.{says};
    ghost use Rattle.sim_text.specs.SimTexts.{with_line, with_header};

    type Context = ();

    type Fault = SimFault;

    ghost memory = { Memory };

    ghost step = { λ _. saying says with_line };

    ghost finish = { λ _. with_header };

    fn memory() -> SimFault {
        SimFault::Memory
    }

    fn read_line(&mut self, _context: &(), number: usize, line: &[u8]) -> Result<(), SimFault> {
        let said = says(self.alloc, number, line)?;
        self.add(said)
    }

    fn end(&mut self, _context: &()) -> Result<(), SimFault> {
        if self.tech_name.bytes().is_empty() {
            Err(SimFault::Header)
        } else {
            Ok(())
        }
    }
}

/// The circuit that a sim text spells.
///
/// # Errors
///
/// The first faulty line, numbered from 1, and the first fault in it; a text without a line has no header on line 1. Or want of memory.
#[tactic(auto, unfolding(crate::specs::SimTexts::sim_in))]
pub fn read_sim(alloc: Global, bytes: &[u8]) -> Result<SimFile, SimAt>
    ensures read { IfOk result (λ sim. sim_in bytes.now ≡ Ok sim) }
    ensures refused { IfErr result (λ at. at.fault ≢ OutOfMemory → sim_in bytes.now ≡ Err at) }
{
    let mut draft = SimDraft::new(alloc);
    match read_text(&mut draft, &(), bytes) {
        Ok(()) => Ok(draft.into_file()),
        Err(at) => Err(at),
    }
}
