//! Reads a circuit file.
ghost use Rattle.std.specs.Prelude.{◌≡◌, ◌≢◌, ◌≤◌, length, Ok, Err, IfOk, IfErr, OnOk};
ghost use Rattle.ext_model.specs.LawfulArrays.{IsLawfulArrayExt};
ghost use Rattle.ext_reading.specs.declared.faults.ExtReadFault.TheVariants.{Memory as OutOfMemory};
ghost use Rattle.ext_reading.specs.declared.limits.TheConstants.{LONGEST_READ_TEXT};
ghost use Rattle.ext_reading.specs.ExtTexts.{draft_in, ext_in};

use crate::drafts::ExtDraft;
use crate::faults::{ExtAt, ExtReadFault};
use crate::line_forms::says;
use crate::outlines::{Outline, outline_of};
use ext_model::ArrayExt;
use names_lists::Name;
use std::alloc::Global;
use text_form::{At, LineReader, read_text};

impl LineReader for ExtDraft {
    ghost use Rattle.ext_reading.specs.declared.faults.ExtReadFault.TheVariants.{Memory};
    ghost use Rattle.ext_reading.specs.Drafts.{step, finish};

    type Context = Outline;

    type Fault = ExtReadFault;

    ghost memory = { Memory };

    ghost step = { step };

    ghost finish = { λ _. finish };

    fn memory() -> ExtReadFault {
        ExtReadFault::Memory
    }

    fn read_line(
        &mut self,
        outline: &Outline,
        number: usize,
        line: &[u8],
    ) -> Result<(), ExtReadFault> {
        let said = says(self.alloc(), line)?;
        self.take(outline, number == outline.last, said)
    }

    fn end(&mut self, _outline: &Outline) -> Result<(), ExtReadFault> {
        self.check_header()
    }
}

// Want of memory, which stands at no line.
fn out_of_memory() -> ExtAt
    ensures { result.fault ≡ OutOfMemory }
{
    At {
        line: 0,
        fault: ExtReadFault::Memory,
    }
}

#[tactic(auto, unfolding(crate::specs::ExtTexts::draft_in))]
fn draft_in(alloc: Global, bytes: &[u8]) -> Result<ExtDraft, ExtAt>
    ensures read { IfOk result (λ draft. draft_in bytes.now ≡ Ok draft) }
    ensures refused { IfErr result (λ at. at.fault ≢ OutOfMemory → draft_in bytes.now ≡ Err at) }
{
    let Ok(outline) = outline_of(alloc, bytes) else {
        return Err(out_of_memory());
    };
    let mut draft = ExtDraft::new(alloc);
    match read_text(&mut draft, &outline, bytes) {
        Ok(()) => Ok(draft),
        Err(at) => Err(at),
    }
}

/// The record of the cell of this name that a circuit file says. It takes a time and memory in proportion to the length of the text, as
/// long as few names collide in a hash table, and a few steps more for each use and each merge: no array is ever taken apart. Where the text
/// is no longer than [`LONGEST_READ_TEXT`](crate::LONGEST_READ_TEXT) the record is lawful.
///
/// # Errors
///
/// The first faulty line, numbered from 1, and the first fault in it, in the order of [`ExtReadFault`]; a text without a header has none
/// on its last line, and one without a line on line 1. Or want of memory.
pub fn read_ext(alloc: Global, bytes: &[u8], cell: &Name) -> Result<ArrayExt, ExtAt>
    ensures read { IfOk result (λ ext. ext_in cell.now bytes.now ≡ Ok ext) }
    ensures lawful { IfOk result (λ ext. length bytes.now ≤ LONGEST_READ_TEXT → IsLawfulArrayExt ext) }
    ensures refused { IfErr result (λ at. at.fault ≢ OutOfMemory → ext_in cell.now bytes.now ≡ Err at) }
{
    let draft = draft_in(alloc, bytes)?;
    match cell.copy(alloc) {
        Ok(cell) => Ok(draft.into_record(cell)),
        Err(_) => Err(out_of_memory()),
    }
}
