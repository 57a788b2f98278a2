//! Why vector files and networks are refused.
ghost use Rattle.std.specs.Prelude.{◌≡◌, ◌∷◌, ◌++◌, [], pos, IfOk, OnOk, IsOkUnless};
ghost use Rattle.text_scan.specs.Decimal.{decimal};
ghost use Rattle.line_answers.specs.LineEffects.{IsOfInside};
ghost use Rattle.line_answers.specs.Refusals.{refusal_line, too_many};
ghost use Rattle.network_runs.specs.Refusals.{sim_limit_word, vec_fault_text, vec_refusal};

use line_answers::{Refusal, append_with_name, refused_line, too_many, worded};
use names_lists::Name;
use session_model::{Halt, ReportLine};
use sim_text::SimLimit;
use std::alloc::{AllocError, Global};
use text_scan::append_decimal;
use vector_files::{VecAt, VecFault};

/// What there would be too many of.
pub fn sim_limit_word(limit: SimLimit) -> &'static [u8]
    ensures { result.now ≡ sim_limit_word limit }
{
    match limit {
        SimLimit::Nodes => b"Nodes",
        SimLimit::Switches => b"Switches",
    }
}

/// The line that refuses what there would be too many of, as the word names it.
pub fn limit_passed(alloc: Global, number: usize, word: &[u8]) -> Result<Vec<ReportLine>, Halt>
    ensures told { IfOk result (λ lines. lines.items ≡ refusal_line number (too_many word.now) ∷ []) }
    ensures inside { IfOk result (λ lines. IsOfInside lines.items) }
    ensures memory { IsOkUnless result Halt.Memory }
{
    Ok(refused_line(alloc, number, too_many(alloc, word)?)?)
}

/// The fault of a vector file.
pub fn vec_refusal(alloc: Global, at: &VecAt) -> Result<Refusal, AllocError>
    ensures { IfOk result (λ refusal. refusal ≡ vec_refusal at.now) }
{
    match &at.fault {
        VecFault::Vector => {
            let mut text = Vec::new(alloc);
            append_numbered(&mut text, b"E21 vector ", at.line)?;
            worded(alloc, &text)
        }
        VecFault::NoNode(name) => {
            let mut text = Vec::new(alloc);
            append_no_node(&mut text, at.line, name)?;
            worded(alloc, &text)
        }
        VecFault::Memory => worded(alloc, b""),
    }
}

// Writes words and then a number.
fn append_numbered(text: &mut Vec<u8>, words: &[u8], number: u32) -> Result<(), AllocError>
    ensures { OnOk result (text.new.items ≡ text.old.items ++ (words.now ++ decimal (pos number))) }
{
    text.extend_from_slice(words)?;
    append_decimal(text, i128::from(number))
}

// Writes that the network has no node of a name, which a line asks for.
fn append_no_node(text: &mut Vec<u8>, line: u32, name: &Name) -> Result<(), AllocError>
    ensures { OnOk result (text.new.items ≡ text.old.items ++ vec_fault_text line (VecFault.NoNode name.now)) }
{
    append_numbered(text, b"E20 no node ", line)?;
    append_with_name(text, b" ", name)
}
