//! Why circuit files are refused, and records that mean no circuit.
ghost use Rattle.std.specs.Prelude.{◌≡◌, ◌∷◌, [], IfOk, IsOkUnless};
ghost use Rattle.line_answers.specs.Refusals.{refusal_line};
ghost use Rattle.circuit_commands.specs.Refusals.{ext_code, flat_refusal, tree_refusal};

use crate::limits::circuit_limit_word;
use circuit_model::FlatFault;
use ext_loading::ExtLoadFault;
use ext_reading::ExtReadFault;
use line_answers::{
    Refusal, at_line, cycle, file_refusal, named, no_cell, refuse, too_many, two_named, worded,
};
use session_model::{Answer, Halt};
use std::alloc::{AllocError, Global};

// Why the circuit files of a tree can't be read.
fn tree_refusal(alloc: Global, fault: &ExtLoadFault) -> Result<Refusal, AllocError>
    ensures { IfOk result (λ refusal. refusal ≡ tree_refusal fault.now) }
{
    match fault {
        ExtLoadFault::File(file, fault) => file_refusal(alloc, file, *fault),
        ExtLoadFault::Ext(file, at) => at_line(
            alloc,
            b"E23 ",
            file,
            at.line as usize,
            ext_code(at.fault),
        ),
        ExtLoadFault::TooManyCells => too_many(alloc, b"Cells"),
        ExtLoadFault::Cycle(cell) => cycle(alloc, cell),
    }
}

fn ext_code(fault: ExtReadFault) -> &'static [u8]
    ensures { result.now ≡ ext_code fault }
{
    match fault {
        ExtReadFault::BadLine => b"X1",
        ExtReadFault::NoHeader => b"X2",
        ExtReadFault::Version => b"X3",
        ExtReadFault::NameTwice => b"X4",
        ExtReadFault::Range => b"X5",
        ExtReadFault::Transform => b"X6",
        ExtReadFault::UseTwice => b"X7",
        ExtReadFault::NoName => b"X8",
        ExtReadFault::Memory => b"",
    }
}

// Why the records of a tree mean no circuit.
fn flat_refusal(alloc: Global, fault: &FlatFault) -> Result<Refusal, AllocError>
    ensures { IfOk result (λ refusal. refusal ≡ flat_refusal fault.now) }
{
    match fault {
        FlatFault::NoCell(cell) => no_cell(alloc, cell),
        FlatFault::Cycle(cell) => cycle(alloc, cell),
        FlatFault::TooMany(limit) => too_many(alloc, circuit_limit_word(*limit)),
        FlatFault::Classes(cell) => named(alloc, b"E24 classes ", cell),
        FlatFault::NoPath(cell, path) => two_named(alloc, b"E24 no path ", cell, path),
        FlatFault::Memory => worded(alloc, b""),
    }
}

/// The answer where the circuit files of a tree can't be read.
pub fn refuse_tree(alloc: Global, number: usize, fault: &ExtLoadFault) -> Result<Answer, Halt>
    ensures lines { IfOk result (λ answer. answer.lines.items ≡ refusal_line number (tree_refusal fault.now) ∷ []) }
    ensures stores { IfOk result (λ answer. answer.stores.items ≡ []) }
    ensures memory { IsOkUnless result Halt.Memory }
{
    let refusal = tree_refusal(alloc, fault)?;
    refuse(alloc, number, refusal)
}

/// The answer where the records of a tree mean no circuit.
pub fn refuse_flat(alloc: Global, number: usize, fault: &FlatFault) -> Result<Answer, Halt>
    ensures lines { IfOk result (λ answer. answer.lines.items ≡ refusal_line number (flat_refusal fault.now) ∷ []) }
    ensures stores { IfOk result (λ answer. answer.stores.items ≡ []) }
    ensures memory { IsOkUnless result Halt.Memory }
{
    let refusal = flat_refusal(alloc, fault)?;
    refuse(alloc, number, refusal)
}
