//! Why lines of a script are refused.
ghost use Rattle.std.specs.Prelude.{◌≡◌, ◌++◌, codes, IfOk};
ghost use Rattle.session_model.specs.Fetches.{cause_of_fault};
ghost use Rattle.line_answers.specs.Refusals.{at_line, cell_exists, cycle, file_refusal, no_cell, no_layer, of_inside};
ghost use Rattle.line_answers.specs.Refusals.{out_of_range, refusal_line, too_many};

use crate::texts::{append_count, append_two, append_with_name};
use names_lists::{List, Name};
use session_model::{Cause, FetchFault, LineKind, ReportLine};
use std::alloc::{AllocError, Global};

/// Why a line of a script is refused: what that comes from, and the text that tells it.
#[derive(Debug, Drop)]
pub struct Refusal {
    pub cause: Cause,
    pub text: List<u8>,
}

/// The line that refuses the script's line of this number: `line N: ` and the text.
pub fn refusal_line(
    alloc: Global,
    number: usize,
    refusal: &Refusal,
) -> Result<ReportLine, AllocError>
    ensures { IfOk result (λ line. line ≡ refusal_line number refusal.now) }
{
    let mut text = Vec::new(alloc);
    append_count(&mut text, b"line ", number, b": ")?;
    text.extend_from_slice(refusal.text.items())?;
    Ok(ReportLine {
        kind: LineKind::Refusal(refusal.cause),
        text: List::of(text),
    })
}

// A refusal of this text, for which no shelf has to answer.
fn of_inside(text: Vec<u8>) -> Refusal
    ensures { result ≡ of_inside text.items }
{
    Refusal {
        cause: Cause::Inside,
        text: List::of(text),
    }
}

/// A refusal of these words.
pub fn worded(alloc: Global, words: &[u8]) -> Result<Refusal, AllocError>
    ensures { IfOk result (λ refusal. refusal ≡ of_inside words.now) }
{
    Ok(of_inside(Vec::from_slice(alloc, words)?))
}

/// A refusal of words and a name.
pub fn named(alloc: Global, words: &[u8], name: &Name) -> Result<Refusal, AllocError>
    ensures { IfOk result (λ refusal. refusal ≡ of_inside (words.now ++ name.now)) }
{
    let mut text = Vec::new(alloc);
    append_with_name(&mut text, words, name)?;
    Ok(of_inside(text))
}

/// A refusal of words and two names.
pub fn two_named(
    alloc: Global,
    words: &[u8],
    first: &Name,
    second: &Name,
) -> Result<Refusal, AllocError>
    ensures { IfOk result (λ refusal. refusal ≡ of_inside (words.now ++ first.now ++ codes " " ++ second.now)) }
{
    let mut text = Vec::new(alloc);
    append_with_name(&mut text, words, first)?;
    append_with_name(&mut text, b" ", second)?;
    Ok(of_inside(text))
}

/// A refusal for what stands in a line of a file.
pub fn at_line(
    alloc: Global,
    words: &[u8],
    file: &Name,
    line: usize,
    fault: &[u8],
) -> Result<Refusal, AllocError>
    ensures { IfOk result (λ refusal. refusal ≡ at_line words.now file.now line fault.now) }
{
    let mut text = Vec::new(alloc);
    append_with_name(&mut text, words, file)?;
    append_count(&mut text, b" ", line, b" ")?;
    text.extend_from_slice(fault)?;
    Ok(of_inside(text))
}

/// There is no file of this name, or it is too long.
pub fn file_refusal(alloc: Global, file: &Name, fault: FetchFault) -> Result<Refusal, AllocError>
    ensures { IfOk result (λ refusal. refusal ≡ file_refusal file.now fault) }
{
    let told = match fault {
        FetchFault::Absent => named(alloc, b"E6 no file ", file)?,
        FetchFault::TooLong => too_many(alloc, b"Bytes")?,
    };
    Ok(Refusal {
        cause: cause_of_fault(fault),
        text: told.text,
    })
}

// What the refusal of a file comes from.
fn cause_of_fault(fault: FetchFault) -> Cause
    ensures { result ≡ cause_of_fault fault }
{
    match fault {
        FetchFault::Absent => Cause::Absent,
        FetchFault::TooLong => Cause::TooLong,
    }
}

/// There is no cell of this name.
pub fn no_cell(alloc: Global, cell: &Name) -> Result<Refusal, AllocError>
    ensures { IfOk result (λ refusal. refusal ≡ no_cell cell.now) }
{
    named(alloc, b"E8 no cell ", cell)
}

/// There is a cell of this name.
pub fn cell_exists(alloc: Global, cell: &Name) -> Result<Refusal, AllocError>
    ensures { IfOk result (λ refusal. refusal ≡ cell_exists cell.now) }
{
    named(alloc, b"E9 cell exists ", cell)
}

/// No layer has this name.
pub fn no_layer(alloc: Global, word: &Name) -> Result<Refusal, AllocError>
    ensures { IfOk result (λ refusal. refusal ≡ no_layer word.now) }
{
    named(alloc, b"E10 no layer ", word)
}

/// A number is out of its range.
pub fn out_of_range(alloc: Global) -> Result<Refusal, AllocError>
    ensures { IfOk result (λ refusal. refusal ≡ out_of_range) }
{
    worded(alloc, b"E12 out of range")
}

/// The cell of this name would stand below itself.
pub fn cycle(alloc: Global, cell: &Name) -> Result<Refusal, AllocError>
    ensures { IfOk result (λ refusal. refusal ≡ cycle cell.now) }
{
    named(alloc, b"E16 cycle ", cell)
}

/// There would be too many of what this word names.
pub fn too_many(alloc: Global, word: &[u8]) -> Result<Refusal, AllocError>
    ensures { IfOk result (λ refusal. refusal ≡ too_many word.now) }
{
    let mut text = Vec::new(alloc);
    append_two(&mut text, b"E18 too many ", word)?;
    Ok(of_inside(text))
}
