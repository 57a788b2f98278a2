//! The lines and stores that answer a line.
ghost use Rattle.std.specs.Prelude.{◌≡◌, ◌++◌, ◌∷◌, [], IfOk, IsOkUnless};
ghost use Rattle.line_answers.specs.LineEffects.{reply};
ghost use Rattle.line_answers.specs.Refusals.{file_refusal, no_cell, no_tech, refusal_line, too_many};

use crate::refusals::{Refusal, file_refusal, no_cell, refusal_line, too_many, worded};
use names_lists::{List, Name};
use session_model::{Answer, FetchFault, Halt, LineKind, ReportLine, Store};
use std::alloc::{AllocError, Global};

/// A line of a reply.
pub fn reply(text: Vec<u8>) -> ReportLine
    ensures { result ≡ reply text.items }
{
    ReportLine {
        kind: LineKind::Reply,
        text: List::of(text),
    }
}

/// One line alone.
pub fn one_line(alloc: Global, line: ReportLine) -> Result<Vec<ReportLine>, AllocError>
    ensures { IfOk result (λ lines. lines.items ≡ line ∷ []) }
{
    let mut lines = Vec::new(alloc);
    lines.push(line)?;
    Ok(lines)
}

/// One store alone.
pub fn one_store(alloc: Global, store: Store) -> Result<Vec<Store>, AllocError>
    ensures { IfOk result (λ stores. stores.items ≡ store ∷ []) }
{
    let mut stores = Vec::new(alloc);
    stores.push(store)?;
    Ok(stores)
}

/// Some things, and others behind them.
pub fn joined<T: Drop>(first: List<T>, rest: Vec<T>) -> Result<Vec<T>, AllocError>
    ensures { IfOk result (λ all. all.items ≡ first ++ rest.items) }
{
    let mut all = first.into_vec();
    let mut rest = rest;
    all.append(&mut rest)?;
    Ok(all)
}

/// The answer that refuses the script's line of this number.
pub fn refuse(alloc: Global, number: usize, refusal: Refusal) -> Result<Answer, Halt>
    ensures lines { IfOk result (λ answer. answer.lines.items ≡ refusal_line number refusal ∷ []) }
    ensures stores { IfOk result (λ answer. answer.stores.items ≡ []) }
    ensures memory { IsOkUnless result Halt.Memory }
{
    Ok(told(alloc, refused_line(alloc, number, refusal)?))
}

/// The answer where no technology was read yet.
pub fn refuse_no_tech(alloc: Global, number: usize) -> Result<Answer, Halt>
    ensures lines { IfOk result (λ answer. answer.lines.items ≡ refusal_line number no_tech ∷ []) }
    ensures stores { IfOk result (λ answer. answer.stores.items ≡ []) }
    ensures memory { IsOkUnless result Halt.Memory }
{
    let refusal = worded(alloc, b"E4 no technology")?;
    refuse(alloc, number, refusal)
}

/// The answer where there is no cell of this name.
pub fn refuse_no_cell(alloc: Global, number: usize, cell: &Name) -> Result<Answer, Halt>
    ensures lines { IfOk result (λ answer. answer.lines.items ≡ refusal_line number (no_cell cell.now) ∷ []) }
    ensures stores { IfOk result (λ answer. answer.stores.items ≡ []) }
    ensures memory { IsOkUnless result Halt.Memory }
{
    let refusal = no_cell(alloc, cell)?;
    refuse(alloc, number, refusal)
}

/// The answer where there is no file of this name, or where it is too long.
pub fn refuse_file(
    alloc: Global,
    number: usize,
    file: &Name,
    fault: FetchFault,
) -> Result<Answer, Halt>
    ensures lines { IfOk result (λ answer. answer.lines.items ≡ refusal_line number (file_refusal file.now fault) ∷ []) }
    ensures stores { IfOk result (λ answer. answer.stores.items ≡ []) }
    ensures memory { IsOkUnless result Halt.Memory }
{
    let refusal = file_refusal(alloc, file, fault)?;
    refuse(alloc, number, refusal)
}

/// The answer where there would be too many of what this word names.
pub fn refuse_too_many(alloc: Global, number: usize, word: &[u8]) -> Result<Answer, Halt>
    ensures lines { IfOk result (λ answer. answer.lines.items ≡ refusal_line number (too_many word.now) ∷ []) }
    ensures stores { IfOk result (λ answer. answer.stores.items ≡ []) }
    ensures memory { IsOkUnless result Halt.Memory }
{
    let refusal = too_many(alloc, word)?;
    refuse(alloc, number, refusal)
}

/// The line that refuses the script's line of this number, alone.
pub fn refused_line(
    alloc: Global,
    number: usize,
    refusal: Refusal,
) -> Result<Vec<ReportLine>, AllocError>
    ensures lines { IfOk result (λ lines. lines.items ≡ refusal_line number refusal ∷ []) }
{
    let line = refusal_line(alloc, number, &refusal)?;
    one_line(alloc, line)
}

/// The answer of these lines, which stores nothing.
pub fn told(alloc: Global, lines: Vec<ReportLine>) -> Answer
    ensures lines { result.lines ≡ lines }
    ensures stores { result.stores.items ≡ [] }
{
    Answer {
        lines,
        stores: Vec::new(alloc),
    }
}

/// The name of the file of this name and ending.
pub fn file_name(alloc: Global, name: &Name, ending: &[u8]) -> Result<Name, Halt>
    ensures file { IfOk result (λ file. file ≡ name.now ++ ending.now) }
    ensures err { IsOkUnless result Halt.Memory }
{
    let mut file = Vec::new(alloc);
    file.extend_from_slice(name.bytes())?;
    file.extend_from_slice(ending)?;
    Ok(Name::of(alloc, &file)?)
}
