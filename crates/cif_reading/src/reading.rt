//! Reads a CIF text.
ghost use Rattle.std.specs.Prelude.{◌≡◌, ◌≢◌, Ok, Err, IfOk, IfErr};
ghost use Rattle.text_scan.specs.Lines.{lines_of};
ghost use Rattle.text_form.specs.Folds.{fault_at, last_number};
ghost use Rattle.cif_reading.specs.declared.faults.CifFault.TheVariants.{Memory as OutOfMemory, NoEnd as WithoutEnd};
ghost use Rattle.cif_reading.specs.CifTexts.{cif_in, read_of};

use crate::drafts::CifDraft;
use crate::faults::{CifAt, CifFault};
use cif_forms::{CommandReader, read_commands, says, without_comments};
use cif_model::Cif;
use std::alloc::Global;
use text_form::At;
use text_scan::lines;

impl CommandReader for CifDraft {
    ghost use Rattle.cif_reading.specs.declared.faults.CifFault.TheVariants.{Memory};
    ghost use Rattle.cif_reading.specs.CifTexts.{step};

    type Fault = CifFault;

    ghost memory = { Memory };

    ghost step = { step };

    fn memory() -> CifFault {
        CifFault::Memory
    }

    fn read_command(&mut self, bytes: &[u8], closed: bool) -> Result<(), CifFault> {
        if self.has_ended() {
            return Ok(());
        }
        let command = says(self.alloc(), bytes)?;
        self.read_said(command, closed)
    }
}

// The number of a text's last line, which is 1 in an empty text.
fn last_number(text: &[u8]) -> usize
    ensures { result ≡ last_number (lines_of text.now) }
{
    lines(text).count().max(1)
}

// The fault of a text that doesn't end. A line past 32 bits cannot be told, and counts as want of memory.
fn without_end(text: &[u8]) -> CifAt
    ensures { result.fault ≢ OutOfMemory → result ≡ fault_at (last_number (lines_of text.now)) WithoutEnd }
{
    match u32::try_from(last_number(text)) {
        Ok(line) => At {
            line,
            fault: CifFault::NoEnd,
        },
        Err(_) => out_of_memory(),
    }
}

fn out_of_memory() -> CifAt
    ensures { result.fault ≡ OutOfMemory }
{
    At {
        line: 0,
        fault: CifFault::Memory,
    }
}

// What is read of the commands of a text.
#[tactic(auto, unfolding(cif_forms::specs::Cutting::commands_of))]
fn read_all(alloc: Global, text: &[u8]) -> Result<CifDraft, CifAt>
    ensures read { IfOk result (λ draft. read_of text.now ≡ Ok draft) }
    ensures refused { IfErr result (λ at. at.fault ≢ OutOfMemory → read_of text.now ≡ Err at) }
{
    let Ok(shown) = without_comments(alloc, text) else {
        return Err(out_of_memory());
    };
    let mut draft = CifDraft::new(alloc);
    match read_commands(&mut draft, shown.as_slice()) {
        Ok(()) => Ok(draft),
        Err(at) => Err(at),
    }
}

/// What a CIF text says. It takes time near-linear in the text.
///
/// # Errors
///
/// The line of the first faulty command and its first fault; K7 at the last line of a text without `E`; or want of memory.
#[tactic(auto, unfolding(crate::specs::CifTexts::cif_in))]
pub fn read_cif(alloc: Global, bytes: &[u8]) -> Result<Cif, CifAt>
    ensures read { IfOk result (λ cif. cif_in bytes.now ≡ Ok cif) }
    ensures refused { IfErr result (λ at. at.fault ≢ OutOfMemory → cif_in bytes.now ≡ Err at) }
{
    match read_all(alloc, bytes) {
        Ok(draft) => {
            if !draft.has_ended() {
                return Err(without_end(bytes));
            }
            Ok(draft.into_cif())
        }
        Err(at) => Err(at),
    }
}
