//! The files of circuits, and what is told of them.
ghost use Rattle.std.specs.Prelude.{◌≡◌, ◌++◌, ◌∷◌, [], IfOk, IsOkUnless, OnOk, codes};
ghost use Rattle.line_answers.specs.LineEffects.{reply};
ghost use Rattle.circuit_commands.specs.Circuits.{IsFlatWritten, bare_line, bare_of};
ghost use Rattle.circuit_commands.specs.Circuits.{counts_text, flat_reply, lines_of, stores_of};

use crate::limits::{Limit, limit_word};
use ext_model::{Circuit, FetRec};
use ext_text::{ExtFault, write_flat};
use line_answers::{
    append_count, append_with_name, file_name, one_line, one_store, refuse_too_many, reply,
};
use names_lists::{List, Name};
use session_model::{Answer, Halt, ReportLine, Store};
use sim_records::SimText;
use std::alloc::{AllocError, Global};

/// The files that a circuit is written into.
#[derive(Clone, Copy, Debug, PartialEq, Eq)]
pub enum CircuitFile {
    /// The flat file, of nodes and transistors.
    Flat,
    /// The sim file, of switches.
    Sim,
}

/// A text of a circuit that is to be stored, with the lines that tell of it; or the limit that the circuit or its text passes.
#[derive(Debug, Drop)]
pub enum Written {
    Stored(List<ReportLine>, Store),
    Passed(Limit),
}

/// Writes the flat file of the circuit of the cell of this name.
pub fn write_flat_file(alloc: Global, name: &Name, circuit: &Circuit) -> Result<Written, Halt>
    ensures written { IfOk result (IsFlatWritten name.now circuit.now) }
    ensures memory { IsOkUnless result Halt.Memory }
{
    match write_flat(alloc, circuit) {
        Ok(text) => stored(
            alloc,
            name,
            b".flat.ext",
            text,
            flat_lines(alloc, name, circuit)?,
        ),
        Err(ExtFault::Memory) => Err(Halt::Memory),
        Err(_) => Ok(Written::Passed(Limit::Text)),
    }
}

/// The sim text of a circuit with so many nodes in its file. Before the line that tells of it stand those of transistors without terminals.
pub fn store_sim(
    alloc: Global,
    name: &Name,
    nodes: usize,
    bare: Vec<ReportLine>,
    text: SimText,
) -> Result<Written, Halt>
    ensures stored { IfOk result (λ written. written ≡ Written.Stored
        (bare.items ++ reply (counts_text (codes "sim ") name.now nodes text.switches (codes " switches")) ∷ [])
        (record { name = name.now ++ codes ".sim"; bytes = text.bytes.items })) }
    ensures memory { IsOkUnless result Halt.Memory }
{
    let SimText { bytes, switches } = text;
    let lines = sim_lines(alloc, name, nodes, bare, switches)?;
    stored(alloc, name, b".sim", bytes, lines)
}

// The lines that tell of a sim file: those of the transistors that are in no line of it, and one of the file.
fn sim_lines(
    alloc: Global,
    name: &Name,
    nodes: usize,
    bare: Vec<ReportLine>,
    switches: usize,
) -> Result<Vec<ReportLine>, AllocError>
    ensures { IfOk result (λ lines. lines.items
        ≡ bare.items ++ reply (counts_text (codes "sim ") name.now nodes switches (codes " switches")) ∷ []) }
{
    let mut lines = bare;
    let told = counts(alloc, b"sim ", name, nodes, switches, b" switches")?;
    lines.push(reply(told))?;
    Ok(lines)
}

// The text in the file of this name and ending, with these lines.
fn stored(
    alloc: Global,
    name: &Name,
    ending: &[u8],
    text: Vec<u8>,
    lines: Vec<ReportLine>,
) -> Result<Written, Halt>
    ensures stored { IfOk result (λ written. written
        ≡ Written.Stored lines.items (record { name = name.now ++ ending.now; bytes = text.items })) }
    ensures memory { IsOkUnless result Halt.Memory }
{
    let store = Store {
        name: file_name(alloc, name, ending)?,
        bytes: List::of(text),
    };
    Ok(Written::Stored(List::of(lines), store))
}

// The line that tells of a flat file.
fn flat_lines(alloc: Global, name: &Name, circuit: &Circuit) -> Result<Vec<ReportLine>, AllocError>
    ensures { IfOk result (λ lines. lines.items ≡ reply (flat_reply name.now circuit.now) ∷ []) }
{
    let nodes = circuit.nodes.items().len();
    let fets = circuit.fets.items().len();
    let text = counts(alloc, b"flat ", name, nodes, fets, b" transistors")?;
    one_line(alloc, reply(text))
}

// What is told of a file: its command and cell, and how many nodes and other things it has.
fn counts(
    alloc: Global,
    command: &[u8],
    cell: &Name,
    nodes: usize,
    others: usize,
    what: &[u8],
) -> Result<Vec<u8>, AllocError>
    ensures { IfOk result (λ text. text.items ≡ counts_text command.now cell.now nodes others what.now) }
{
    let mut text = Vec::new(alloc);
    append_with_name(&mut text, command, cell)?;
    append_count(&mut text, b": ", nodes, b" nodes")?;
    append_count(&mut text, b" ", others, what)?;
    Ok(text)
}

/// Adds the line of a transistor, where it has no terminals.
pub fn add_bare(alloc: Global, lines: &mut Vec<ReportLine>, fet: &FetRec) -> Result<(), AllocError>
    ensures { OnOk result (lines.new.items ≡ lines.old.items ++ bare_of fet.now) }
{
    if !fet.terminals.items().is_empty() {
        return Ok(());
    }
    lines.push(bare_line(alloc, fet)?)?;
    Ok(())
}

// The line of a transistor without terminals.
fn bare_line(alloc: Global, fet: &FetRec) -> Result<ReportLine, AllocError>
    ensures { IfOk result (λ line. line ≡ bare_line fet.now) }
{
    let mut text = Vec::new(alloc);
    append_with_name(&mut text, b"no terminal ", &fet.gate.node)?;
    Ok(reply(text))
}

/// The answer of what is written, with nothing before it.
pub fn written_alone(alloc: Global, number: usize, written: Written) -> Result<Answer, Halt>
    ensures lines { IfOk result (λ answer. answer.lines.items ≡ lines_of number written) }
    ensures stores { IfOk result (λ answer. answer.stores.items ≡ stores_of written) }
    ensures memory { IsOkUnless result Halt.Memory }
{
    match written {
        Written::Stored(lines, store) => Ok(Answer {
            lines: lines.into_vec(),
            stores: one_store(alloc, store)?,
        }),
        Written::Passed(limit) => refuse_too_many(alloc, number, limit_word(limit)),
    }
}
