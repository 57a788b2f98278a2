//! Why CIF texts are refused.
ghost use Rattle.std.specs.Prelude.{◌≡◌, ◌∷◌, [], IfOk, IsOkUnless};
ghost use Rattle.line_answers.specs.Refusals.{refusal_line};
ghost use Rattle.cif_commands.specs.Refusals.{cif_code, cif_limit_word, cif_refusal};

use cif_expansion::CifLimit;
use cif_reading::{CifAt, CifFault};
use line_answers::{at_line, refuse};
use names_lists::Name;
use session_model::{Answer, Halt};
use std::alloc::Global;

/// The answer where a CIF text has a fault.
pub fn refuse_cif(alloc: Global, number: usize, file: &Name, at: &CifAt) -> Result<Answer, Halt>
    ensures lines { IfOk result (λ answer. answer.lines.items ≡ refusal_line number (cif_refusal file.now at.now) ∷ []) }
    ensures stores { IfOk result (λ answer. answer.stores.items ≡ []) }
    ensures memory { IsOkUnless result Halt.Memory }
{
    let refusal = at_line(alloc, b"E30 ", file, at.line as usize, cif_code(at.fault))?;
    refuse(alloc, number, refusal)
}

// The code of a fault. Want of memory has none.
fn cif_code(fault: CifFault) -> &'static [u8]
    ensures { result.now ≡ cif_code fault }
{
    match fault {
        CifFault::Form => b"K1",
        CifFault::LeftOut => b"K2",
        CifFault::NoSymbol => b"K3",
        CifFault::SymbolTwice => b"K4",
        CifFault::NotWhole => b"K5",
        CifFault::Range => b"K6",
        CifFault::NoEnd => b"K7",
        CifFault::NoLayer => b"K8",
        CifFault::Memory => b"",
    }
}

/// The word of what a text stands for too many of.
pub fn cif_limit_word(limit: CifLimit) -> &'static [u8]
    ensures { result.now ≡ cif_limit_word limit }
{
    match limit {
        CifLimit::Depth => b"Depth",
        CifLimit::Elements => b"Elements",
        CifLimit::Boxes => b"Boxes",
    }
}
