//! Why files of design rules are refused.
ghost use Rattle.std.specs.Prelude.{◌≡◌, ◌∷◌, [], IfOk, IsOkUnless};
ghost use Rattle.line_answers.specs.Refusals.{refusal_line};
ghost use Rattle.drc_commands.specs.Refusals.{drc_code, drc_refusal};

use drc_rules::{DrcAt, DrcFault};
use line_answers::{at_line, refuse};
use names_lists::Name;
use session_model::{Answer, Halt};
use std::alloc::Global;

/// The answer where a file of design rules has a fault.
pub fn refuse_drc(alloc: Global, number: usize, file: &Name, at: &DrcAt) -> Result<Answer, Halt>
    ensures lines { IfOk result (λ answer. answer.lines.items ≡ refusal_line number (drc_refusal file.now at.now) ∷ []) }
    ensures stores { IfOk result (λ answer. answer.stores.items ≡ []) }
    ensures memory { IsOkUnless result Halt.Memory }
{
    let refusal = at_line(alloc, b"E29 ", file, at.line as usize, drc_code(&at.fault))?;
    refuse(alloc, number, refusal)
}

// The code of a fault. Want of memory has none.
fn drc_code(fault: &DrcFault) -> &'static [u8]
    ensures { result.now ≡ drc_code fault.now }
{
    match fault {
        DrcFault::Form => b"G1",
        DrcFault::NoLayer => b"G2",
        DrcFault::TwoPlanes => b"G3",
        DrcFault::Distance => b"G4",
        DrcFault::InBoth => b"G5",
        DrcFault::TooManyRules => b"G6",
        DrcFault::Memory => b"",
    }
}
