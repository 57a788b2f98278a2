//! Why sim files are refused.
ghost use Rattle.std.specs.Prelude.{◌≡◌, ◌∷◌, [], IfOk, IsOkUnless};
ghost use Rattle.line_answers.specs.Refusals.{refusal_line};
ghost use Rattle.network_commands.specs.Refusals.{sim_code, sim_refusal};

use line_answers::{Refusal, at_line, refuse};
use names_lists::Name;
use session_model::{Answer, Halt};
use sim_text::{SimAt, SimFault};
use std::alloc::{AllocError, Global};

// The fault of a sim file.
fn sim_refusal(alloc: Global, file: &Name, at: &SimAt) -> Result<Refusal, AllocError>
    ensures { IfOk result (λ refusal. refusal ≡ sim_refusal file.now at.now) }
{
    at_line(alloc, b"E25 ", file, at.line as usize, sim_code(at.fault))
}

fn sim_code(fault: SimFault) -> &'static [u8]
    ensures { result.now ≡ sim_code fault }
{
    match fault {
        SimFault::Header => b"S1",
        SimFault::BadLine => b"S2",
        SimFault::Letter => b"S3",
        SimFault::Range => b"S4",
        SimFault::Name => b"S5",
        SimFault::TooLong => b"",
        SimFault::TooMany(_) => b"",
        SimFault::Memory => b"",
    }
}

/// The answer where a sim file has a fault.
pub fn refuse_sim(alloc: Global, number: usize, file: &Name, at: &SimAt) -> Result<Answer, Halt>
    ensures lines { IfOk result (λ answer. answer.lines.items ≡ refusal_line number (sim_refusal file.now at.now) ∷ []) }
    ensures stores { IfOk result (λ answer. answer.stores.items ≡ []) }
    ensures memory { IsOkUnless result Halt.Memory }
{
    let refusal = sim_refusal(alloc, file, at)?;
    refuse(alloc, number, refusal)
}
