//! Why commands that change the library are refused.
ghost use Rattle.std.specs.Prelude.{◌≡◌, ◌++◌, ◌∷◌, [], codes, IfOk, IsOkUnless, OnOk};
ghost use Rattle.line_answers.specs.Refusals.{refusal_line};
ghost use Rattle.library_answers.specs.Refusals.{edit_refusal, generate_refusal, load_refusal, tech_again, tech_fault_text, tech_refusal};
ghost use Rattle.library_answers.specs.Refusals.{undo_refusal};

use crate::fault_codes::{library_limit_word, list_word, mag_code, section_word};
use cell_loading::LoadFault;
use hier_merge::cell_library::LibraryLimit;
use layout_gen::GenerateFault;
use line_answers::{
    Refusal, append_two, append_with_name, at_line, cell_exists, cycle, file_refusal, named,
    no_cell, no_layer, out_of_range, refuse, too_many, worded,
};
use names_lists::Name;
use session_model::{Answer, Halt};
use std::alloc::{AllocError, Global};
use tech_file::TechAt;
use tech_model::TechFault;
use undo_log::UndoFault;
use undo_log::edit_script::EditFault;

// The fault of a technology's file.
fn tech_refusal(alloc: Global, file: &Name, at: &TechAt) -> Result<Refusal, AllocError>
    ensures { IfOk result (λ refusal. refusal ≡ tech_refusal file.now at.now) }
{
    let mut fault = Vec::new(alloc);
    append_tech_fault(&mut fault, &at.fault)?;
    at_line(alloc, b"E5 ", file, at.line as usize, &fault)
}

// Writes the code of a technology's fault, and the fault's words.
fn append_tech_fault(text: &mut Vec<u8>, fault: &TechFault) -> Result<(), AllocError>
    ensures { OnOk result (text.new.items ≡ text.old.items ++ tech_fault_text fault.now) }
{
    match fault {
        TechFault::NoSection(section) => append_two(text, b"T1 ", section_word(*section)),
        TechFault::NoPlane(name) => append_with_name(text, b"T2 ", name),
        TechFault::NoType(name) => append_with_name(text, b"T3 ", name),
        TechFault::Twice(name) => append_with_name(text, b"T4 ", name),
        TechFault::SameSet(first, second) => append_with_names(text, b"T5 ", first, second),
        TechFault::ContactPart(name) => append_with_name(text, b"T6 ", name),
        TechFault::NotMonotone(s, t, wide_s, wide_t) => {
            append_with_names(text, b"T7 ", s, t)?;
            append_with_names(text, b" ", wide_s, wide_t)
        }
        TechFault::FetTerminal(fet, terminal) => append_with_names(text, b"T8 ", fet, terminal),
        TechFault::FetName(name) => append_with_name(text, b"T9 ", name),
        TechFault::TooMany(list) => append_two(text, b"T10 ", list_word(*list)),
        TechFault::BadForm => text.extend_from_slice(b"T11"),
        TechFault::TypeExpression(entry) => append_with_name(text, b"T12 ", entry),
        TechFault::Memory => Ok(()),
    }
}

// Writes words and then two names.
fn append_with_names(
    text: &mut Vec<u8>,
    words: &[u8],
    first: &Name,
    second: &Name,
) -> Result<(), AllocError>
    ensures { OnOk result (text.new.items ≡ text.old.items ++ (words.now ++ first.now ++ codes " " ++ second.now)) }
{
    append_with_name(text, words, first)?;
    append_with_name(text, b" ", second)
}

// Why a load is refused.
fn load_refusal(alloc: Global, fault: &LoadFault) -> Result<Refusal, AllocError>
    ensures { IfOk result (λ refusal. refusal ≡ load_refusal fault.now) }
{
    match fault {
        LoadFault::CellExists(cell) => cell_exists(alloc, cell),
        LoadFault::File(file, fault) => file_refusal(alloc, file, *fault),
        LoadFault::Mag(file, at) => at_line(
            alloc,
            b"E7 ",
            file,
            at.line as usize,
            mag_code(at.fault),
        ),
        LoadFault::Scale(file, line) => at_line(alloc, b"E7 ", file, *line, b"M10"),
        LoadFault::Cycle(cell) => cycle(alloc, cell),
        LoadFault::OutOfRange => out_of_range(alloc),
        LoadFault::TooMany(limit) => too_many(alloc, library_limit_word(*limit)),
        LoadFault::Memory => worded(alloc, b""),
    }
}

// Why an edit is refused.
fn edit_refusal(alloc: Global, fault: &EditFault) -> Result<Refusal, AllocError>
    ensures { IfOk result (λ refusal. refusal ≡ edit_refusal fault.now) }
{
    match fault {
        EditFault::NoCurrent => worded(alloc, b"E8 no cell -"),
        EditFault::NoCell(cell) => no_cell(alloc, cell),
        EditFault::CellExists(cell) => cell_exists(alloc, cell),
        EditFault::NoLayer(word) => no_layer(alloc, word),
        EditFault::EmptyRect => worded(alloc, b"E11 empty rectangle"),
        EditFault::OutOfRange => out_of_range(alloc),
        EditFault::BadTransform => worded(alloc, b"E13 not an orientation"),
        EditFault::NoUse(id) => named(alloc, b"E14 no use ", id),
        EditFault::UseExists(id) => named(alloc, b"E15 use exists ", id),
        EditFault::Cycle(cell) => cycle(alloc, cell),
        EditFault::NoLabel(label) => named(alloc, b"E17 no label ", label),
        EditFault::TooMany(limit) => too_many(alloc, library_limit_word(*limit)),
        EditFault::Memory => worded(alloc, b""),
    }
}

// Why no edit is taken back, or made again.
fn undo_refusal(alloc: Global, fault: UndoFault) -> Result<Refusal, AllocError>
    ensures { IfOk result (λ refusal. refusal ≡ undo_refusal fault) }
{
    match fault {
        UndoFault::NothingToUndo => worded(alloc, b"E27 nothing to undo"),
        UndoFault::NothingToRedo => worded(alloc, b"E28 nothing to redo"),
        UndoFault::Edits => too_many(alloc, library_limit_word(LibraryLimit::Edits)),
        UndoFault::Memory => worded(alloc, b""),
    }
}

// Why the cells of a stack are not made.
fn generate_refusal(alloc: Global, fault: &GenerateFault) -> Result<Refusal, AllocError>
    ensures { IfOk result (λ refusal. refusal ≡ generate_refusal fault.now) }
{
    match fault {
        GenerateFault::CellExists(cell) => cell_exists(alloc, cell),
        GenerateFault::NoLayer(word) => no_layer(alloc, word),
        GenerateFault::TooMany(limit) => too_many(alloc, library_limit_word(*limit)),
        GenerateFault::Memory => worded(alloc, b""),
    }
}

/// The answer where a technology's file has a fault.
pub fn refuse_tech(alloc: Global, number: usize, file: &Name, at: &TechAt) -> Result<Answer, Halt>
    ensures lines { IfOk result (λ answer. answer.lines.items ≡ refusal_line number (tech_refusal file.now at.now) ∷ []) }
    ensures stores { IfOk result (λ answer. answer.stores.items ≡ []) }
    ensures memory { IsOkUnless result Halt.Memory }
{
    let refusal = tech_refusal(alloc, file, at)?;
    refuse(alloc, number, refusal)
}

/// The answer where a technology was read already.
pub fn refuse_tech_again(alloc: Global, number: usize) -> Result<Answer, Halt>
    ensures lines { IfOk result (λ answer. answer.lines.items ≡ refusal_line number tech_again ∷ []) }
    ensures stores { IfOk result (λ answer. answer.stores.items ≡ []) }
    ensures memory { IsOkUnless result Halt.Memory }
{
    let refusal = worded(alloc, b"E22 technology again")?;
    refuse(alloc, number, refusal)
}

/// The answer where a load is refused.
pub fn refuse_load(alloc: Global, number: usize, fault: &LoadFault) -> Result<Answer, Halt>
    ensures lines { IfOk result (λ answer. answer.lines.items ≡ refusal_line number (load_refusal fault.now) ∷ []) }
    ensures stores { IfOk result (λ answer. answer.stores.items ≡ []) }
    ensures memory { IsOkUnless result Halt.Memory }
{
    let refusal = load_refusal(alloc, fault)?;
    refuse(alloc, number, refusal)
}

/// The answer where an edit is refused.
pub fn refuse_edit(alloc: Global, number: usize, fault: &EditFault) -> Result<Answer, Halt>
    ensures lines { IfOk result (λ answer. answer.lines.items ≡ refusal_line number (edit_refusal fault.now) ∷ []) }
    ensures stores { IfOk result (λ answer. answer.stores.items ≡ []) }
    ensures memory { IsOkUnless result Halt.Memory }
{
    let refusal = edit_refusal(alloc, fault)?;
    refuse(alloc, number, refusal)
}

/// The answer where no edit is taken back, or made again.
pub fn refuse_undo(alloc: Global, number: usize, fault: UndoFault) -> Result<Answer, Halt>
    ensures lines { IfOk result (λ answer. answer.lines.items ≡ refusal_line number (undo_refusal fault) ∷ []) }
    ensures stores { IfOk result (λ answer. answer.stores.items ≡ []) }
    ensures memory { IsOkUnless result Halt.Memory }
{
    let refusal = undo_refusal(alloc, fault)?;
    refuse(alloc, number, refusal)
}

/// The answer where the cells of a stack are not made.
pub fn refuse_generate(alloc: Global, number: usize, fault: &GenerateFault) -> Result<Answer, Halt>
    ensures lines { IfOk result (λ answer. answer.lines.items ≡ refusal_line number (generate_refusal fault.now) ∷ []) }
    ensures stores { IfOk result (λ answer. answer.stores.items ≡ []) }
    ensures memory { IsOkUnless result Halt.Memory }
{
    let refusal = generate_refusal(alloc, fault)?;
    refuse(alloc, number, refusal)
}
