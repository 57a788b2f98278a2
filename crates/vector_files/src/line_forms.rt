//! What a line says by itself.
ghost use Rattle.std.specs.Prelude.{◌≡◌, ◌≢◌, ◌∷◌, Ok, Err, IfOk, IfErr, OnOk};
ghost use Rattle.vector_files.specs.declared.faults.VecFault.TheVariants.{Memory as OutOfMemory};
ghost use Rattle.vector_files.specs.LineForms.{node_in, changed_node, set_line, free_line, size_line, phase_line, asked_in, show_line};
ghost use Rattle.vector_files.specs.LineForms.{command_line, words_say, is_comment, line_says, says};

use crate::adding::put;
use crate::faults::VecFault;
use crate::files::VecLine;
use crate::nodes::NodeNames;
use crate::words::{is_rail_name, level_in, size_in};
use names_lists::{List, Name};
use std::alloc::Global;
use text_scan::{Words, words};

/// What the line of this number says, with the number, if it is not read over; or its first fault. A number past 32 bits cannot be told,
/// and counts as want of memory.
pub fn says(
    alloc: Global,
    names: &NodeNames,
    number: usize,
    line: &[u8],
) -> Result<Option<(u32, VecLine)>, VecFault>
    ensures read { IfOk result (λ said. says names.now number line.now ≡ Ok said) }
    ensures refused { IfErr result (λ fault.
        fault ≢ OutOfMemory → says names.now number line.now ≡ Err fault) }
{
    let Some(said) = line_says(alloc, names, line)? else {
        return Ok(None);
    };
    match u32::try_from(number) {
        Ok(number) => Ok(Some((number, said))),
        Err(_) => Err(VecFault::Memory),
    }
}

fn is_comment(line: &[u8]) -> bool
    ensures { result ≡ is_comment line.now }
{
    match line {
        [byte, ..] => *byte == b'#',
        [] => false,
    }
}

fn line_says(alloc: Global, names: &NodeNames, line: &[u8]) -> Result<Option<VecLine>, VecFault>
    ensures read { IfOk result (λ said. line_says names.now line.now ≡ Ok said) }
    ensures refused { IfErr result (λ fault. fault ≢ OutOfMemory → line_says names.now line.now ≡ Err fault) }
{
    if is_comment(line) {
        return Ok(None);
    }
    words_say(alloc, names, words(line))
}

fn words_say(
    alloc: Global,
    names: &NodeNames,
    words: Words<'_>,
) -> Result<Option<VecLine>, VecFault>
    ensures read { IfOk result (λ said. words_say names.now words.entry ≡ Ok said) }
    ensures refused { IfErr result (λ fault. fault ≢ OutOfMemory → words_say names.now words.entry ≡ Err fault) }
{
    let mut rest = words;
    let Some(key) = rest.next() else {
        return Ok(None);
    };
    let said = command_line(alloc, names, key, rest)?;
    Ok(Some(said))
}

fn command_line(
    alloc: Global,
    names: &NodeNames,
    key: &[u8],
    words: Words<'_>,
) -> Result<VecLine, VecFault>
    ensures read { IfOk result (λ said. command_line names.now key.now words.entry ≡ Ok said) }
    ensures refused { IfErr result (λ fault.
        fault ≢ OutOfMemory → command_line names.now key.now words.entry ≡ Err fault) }
{
    if key == b"set".as_slice() {
        set_line(alloc, names, words)
    } else if key == b"free".as_slice() {
        free_line(alloc, names, words)
    } else if key == b"size".as_slice() {
        size_line(alloc, names, words)
    } else if key == b"phase".as_slice() {
        phase_line(words)
    } else if key == b"show".as_slice() {
        show_line(alloc, names, words)
    } else {
        Err(VecFault::Vector)
    }
}

// The node of a name that a line has.
fn node_in(alloc: Global, names: &NodeNames, name: &[u8]) -> Result<u32, VecFault>
    ensures read { IfOk result (λ node. node_in names.now name.now ≡ Ok node) }
    ensures refused { IfErr result (λ fault. fault ≢ OutOfMemory → node_in names.now name.now ≡ Err fault) }
{
    match names.find(name) {
        Some(node) => Ok(node),
        None => Err(VecFault::NoNode(Name::of(alloc, name)?)),
    }
}

// The node of a name, which a line changes: neither power nor ground.
fn changed_node(alloc: Global, names: &NodeNames, name: &[u8]) -> Result<u32, VecFault>
    ensures read { IfOk result (λ node. changed_node names.now name.now ≡ Ok node) }
    ensures refused { IfErr result (λ fault. fault ≢ OutOfMemory → changed_node names.now name.now ≡ Err fault) }
{
    if is_rail_name(name) {
        return Err(VecFault::Vector);
    }
    let node = node_in(alloc, names, name)?;
    if names.is_rail(node) {
        return Err(VecFault::Vector);
    }
    Ok(node)
}

fn set_line(alloc: Global, names: &NodeNames, words: Words<'_>) -> Result<VecLine, VecFault>
    ensures read { IfOk result (λ said. set_line names.now words.entry ≡ Ok said) }
    ensures refused { IfErr result (λ fault. fault ≢ OutOfMemory → set_line names.now words.entry ≡ Err fault) }
{
    let mut rest = words;
    let (Some(name), Some(level), None) = (rest.next(), rest.next(), rest.next()) else {
        return Err(VecFault::Vector);
    };
    let level = level_in(level)?;
    let node = changed_node(alloc, names, name)?;
    Ok(VecLine::Set(node, level))
}

fn free_line(alloc: Global, names: &NodeNames, words: Words<'_>) -> Result<VecLine, VecFault>
    ensures read { IfOk result (λ said. free_line names.now words.entry ≡ Ok said) }
    ensures refused { IfErr result (λ fault. fault ≢ OutOfMemory → free_line names.now words.entry ≡ Err fault) }
{
    let mut rest = words;
    let (Some(name), None) = (rest.next(), rest.next()) else {
        return Err(VecFault::Vector);
    };
    let node = changed_node(alloc, names, name)?;
    Ok(VecLine::Free(node))
}

fn size_line(alloc: Global, names: &NodeNames, words: Words<'_>) -> Result<VecLine, VecFault>
    ensures read { IfOk result (λ said. size_line names.now words.entry ≡ Ok said) }
    ensures refused { IfErr result (λ fault. fault ≢ OutOfMemory → size_line names.now words.entry ≡ Err fault) }
{
    let mut rest = words;
    let (Some(name), Some(size), None) = (rest.next(), rest.next(), rest.next()) else {
        return Err(VecFault::Vector);
    };
    let size = size_in(size)?;
    let node = changed_node(alloc, names, name)?;
    Ok(VecLine::Size(node, size))
}

fn phase_line(words: Words<'_>) -> Result<VecLine, VecFault>
    ensures { result ≡ phase_line words.entry }
{
    let mut rest = words;
    match rest.next() {
        None => Ok(VecLine::Phase),
        Some(_) => Err(VecFault::Vector),
    }
}

fn show_line(alloc: Global, names: &NodeNames, words: Words<'_>) -> Result<VecLine, VecFault>
    ensures read { IfOk result (λ said. show_line names.now words.entry ≡ Ok said) }
    ensures refused { IfErr result (λ fault. fault ≢ OutOfMemory → show_line names.now words.entry ≡ Err fault) }
{
    let asked = asked_in(alloc, names, words)?;
    if asked.is_empty() {
        return Err(VecFault::Vector);
    }
    Ok(VecLine::Show(List::of(asked)))
}

// A name that is asked for, with its node.
fn asked_node(alloc: Global, names: &NodeNames, name: &[u8]) -> Result<(Name, u32), VecFault>
    ensures name { IfOk result (λ asked. asked.0 ≡ name.now) }
    ensures node { IfOk result (λ asked. node_in names.now name.now ≡ Ok asked.1) }
    ensures refused { IfErr result (λ fault. fault ≢ OutOfMemory → node_in names.now name.now ≡ Err fault) }
{
    let node = node_in(alloc, names, name)?;
    Ok((Name::of(alloc, name)?, node))
}

// The names that are asked for, each with its node.
fn asked_in(
    alloc: Global,
    names: &NodeNames,
    words: Words<'_>,
) -> Result<Vec<(Name, u32)>, VecFault>
    ensures read { IfOk result (λ asked. asked_in names.now words.entry ≡ Ok asked.items) }
    ensures refused { IfErr result (λ fault. fault ≢ OutOfMemory → asked_in names.now words.entry ≡ Err fault) }
{
    let mut asked = Vec::new(alloc);
    for name in words {
        let one = asked_node(alloc, names, name)?;
        put(&mut asked, one)?;
    }
    Ok(asked)
}
