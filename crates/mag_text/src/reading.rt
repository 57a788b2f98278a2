//! Reads a mag text.
ghost use Rattle.std.specs.Prelude.{◌≡◌, ◌≢◌, Ok, Err, IfOk, IfErr, OnOk};
ghost use Rattle.mag_text.specs.declared.faults.MagFault.TheVariants.{Memory as OutOfMemory};
ghost use Rattle.mag_text.specs.MagTexts.{mag_in, IsRead};

use crate::drafts::MagDraft;
use crate::faults::{MagAt, MagFault};
use cell_library::cell_bodies::CellBody;
use std::alloc::Global;
use tech_model::Tech;
use text_form::{At, LineReader, read_text};

impl LineReader for MagDraft {
    ghost use Rattle.mag_text.specs.declared.faults.MagFault.TheVariants.{Memory};
    ghost use Rattle.mag_text.specs.Drafts.{step, finish};

    type Context = Tech;

    type Fault = MagFault;

    ghost memory = { Memory };

    ghost step = { step };

    ghost finish = { λ _. finish };

    fn memory() -> MagFault {
        MagFault::Memory
    }

    fn read_line(&mut self, tech: &Tech, _number: usize, line: &[u8]) -> Result<(), MagFault> {
        self.take_line(tech, line)
    }

    fn end(&mut self, _tech: &Tech) -> Result<(), MagFault> {
        self.check_ended()
    }
}

/// The cell that a mag text says.
///
/// # Errors
///
/// The first faulty line, numbered from 1, and the first fault in it; a text without a line has no magic on line 1, and one without
/// `<< end >>` has no end on its last line. Or want of memory.
#[tactic(auto, unfolding(crate::specs::MagTexts::mag_in))]
pub fn read_mag(alloc: Global, tech: &Tech, bytes: &[u8]) -> Result<CellBody, MagAt>
    ensures read { IfOk result (IsRead tech.now bytes.now) }
    ensures refused { IfErr result (λ at. at.fault ≢ OutOfMemory → mag_in tech.now bytes.now ≡ Err at) }
{
    let mut draft = MagDraft::new(alloc);
    read_text(&mut draft, tech, bytes)?;
    match draft.into_body(tech) {
        Ok(body) => Ok(body),
        Err(_) => Err(At {
            line: 0,
            fault: MagFault::Memory,
        }),
    }
}
