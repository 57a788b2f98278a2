//! What a line says by itself.
ghost use Rattle.std.specs.Prelude.{◌≡◌, ◌≢◌, ◌∷◌, Ok, Err, IfOk, IfErr};
ghost use Rattle.text_scan.specs.Words.{words_of};
ghost use Rattle.sim_text.specs.declared.faults.SimFault.TheVariants.{Memory as OutOfMemory};
ghost use Rattle.sim_text.specs.LineForms.{fet_line, cap_of_node, cap_line, alias_line, words_say, begins_with_bar};
ghost use Rattle.sim_text.specs.LineForms.{further_line_says, header_words_say, begins_with_units, first_line_says, says};

use crate::faults::SimFault;
use crate::files::{SimFet, SimLine};
use crate::parts::{cap_in, four_numbers_in, letter_in, name_in};
use std::alloc::Global;
use text_form::next_three;
use text_scan::{Words, words};

/// What the line of this number says, or its first fault.
pub fn says(alloc: Global, number: usize, line: &[u8]) -> Result<SimLine, SimFault>
    ensures read { IfOk result (λ said. says number line.now ≡ Ok said) }
    ensures refused { IfErr result (λ fault. fault ≢ OutOfMemory → says number line.now ≡ Err fault) }
{
    if number == 1 {
        first_line_says(alloc, line)
    } else {
        further_line_says(alloc, line)
    }
}

fn begins_with_bar(line: &[u8]) -> bool
    ensures { result ≡ begins_with_bar line.now }
{
    match line {
        [byte, ..] => *byte == b'|',
        [] => false,
    }
}

fn further_line_says(alloc: Global, line: &[u8]) -> Result<SimLine, SimFault>
    ensures read { IfOk result (λ said. further_line_says line.now ≡ Ok said) }
    ensures refused { IfErr result (λ fault. fault ≢ OutOfMemory → further_line_says line.now ≡ Err fault) }
{
    if begins_with_bar(line) {
        return Ok(SimLine::Nothing);
    }
    words_say(alloc, words(line))
}

fn words_say(alloc: Global, words: Words<'_>) -> Result<SimLine, SimFault>
    ensures read { IfOk result (λ said. words_say words.entry ≡ Ok said) }
    ensures refused { IfErr result (λ fault. fault ≢ OutOfMemory → words_say words.entry ≡ Err fault) }
{
    let mut rest = words;
    let Some(first) = rest.next() else {
        return Ok(SimLine::Nothing);
    };
    let (Some(second), Some(third)) = (rest.next(), rest.next()) else {
        return Err(SimFault::BadLine);
    };
    match (rest.next(), rest.next()) {
        (None, _) => alias_line(alloc, first, second, third),
        (Some(fourth), None) => cap_line(alloc, first, second, third, fourth),
        (Some(fourth), Some(fifth)) => {
            long_line(alloc, first, second, third, fourth, fifth, rest)
        }
    }
}

// A line of five words or more: that of a transistor has eight.
fn long_line(
    alloc: Global,
    letter: &[u8],
    gate: &[u8],
    source: &[u8],
    drain: &[u8],
    l: &[u8],
    words: Words<'_>,
) -> Result<SimLine, SimFault>
    ensures read { IfOk result (λ said.
        words_say (letter.now ∷ gate.now ∷ source.now ∷ drain.now ∷ l.now ∷ words.entry) ≡ Ok said) }
    ensures refused { IfErr result (λ fault. fault ≢ OutOfMemory →
        words_say (letter.now ∷ gate.now ∷ source.now ∷ drain.now ∷ l.now ∷ words.entry) ≡ Err fault) }
{
    let mut rest = words;
    let (Some((w, x, y)), None) = (next_three(&mut rest), rest.next()) else {
        return Err(SimFault::BadLine);
    };
    let numbers = four_numbers_in(l, w, x, y);
    fet_line(alloc, letter, gate, source, drain, numbers)
}

// The line of a transistor. What its numbers are counts only once its letter and its names are such.
fn fet_line(
    alloc: Global,
    letter: &[u8],
    gate: &[u8],
    source: &[u8],
    drain: &[u8],
    numbers: Result<[i128; 4], SimFault>,
) -> Result<SimLine, SimFault>
    ensures read { IfOk result (λ said.
        fet_line letter.now gate.now source.now drain.now numbers ≡ Ok said) }
    ensures refused { IfErr result (λ fault. fault ≢ OutOfMemory →
        fet_line letter.now gate.now source.now drain.now numbers ≡ Err fault) }
{
    let letter = letter_in(letter)?;
    let gate = name_in(alloc, gate)?;
    let source = name_in(alloc, source)?;
    let drain = name_in(alloc, drain)?;
    let numbers = numbers?;
    Ok(SimLine::Fet(SimFet {
        letter,
        gate,
        source,
        drain,
        numbers,
    }))
}

fn cap_line(
    alloc: Global,
    key: &[u8],
    node: &[u8],
    second: &[u8],
    cap: &[u8],
) -> Result<SimLine, SimFault>
    ensures read { IfOk result (λ said. cap_line key.now node.now second.now cap.now ≡ Ok said) }
    ensures refused { IfErr result (λ fault.
        fault ≢ OutOfMemory → cap_line key.now node.now second.now cap.now ≡ Err fault) }
{
    if key == b"C".as_slice() {
        cap_of_node(alloc, node, second, cap)
    } else {
        Err(SimFault::BadLine)
    }
}

fn cap_of_node(alloc: Global, node: &[u8], second: &[u8], cap: &[u8]) -> Result<SimLine, SimFault>
    ensures read { IfOk result (λ said. cap_of_node node.now second.now cap.now ≡ Ok said) }
    ensures refused { IfErr result (λ fault.
        fault ≢ OutOfMemory → cap_of_node node.now second.now cap.now ≡ Err fault) }
{
    let node = name_in(alloc, node)?;
    if second != b"GND!".as_slice() {
        return Err(SimFault::BadLine);
    }
    let cap = cap_in(cap)?;
    Ok(SimLine::Cap(node, cap))
}

fn alias_line(alloc: Global, key: &[u8], node: &[u8], alias: &[u8]) -> Result<SimLine, SimFault>
    ensures read { IfOk result (λ said. alias_line key.now node.now alias.now ≡ Ok said) }
    ensures refused { IfErr result (λ fault.
        fault ≢ OutOfMemory → alias_line key.now node.now alias.now ≡ Err fault) }
{
    if key != b"=".as_slice() {
        return Err(SimFault::BadLine);
    }
    let node = name_in(alloc, node)?;
    let alias = name_in(alloc, alias)?;
    Ok(SimLine::Alias(node, alias))
}

fn begins_with_units(line: &[u8]) -> bool
    ensures { result ≡ begins_with_units line.now }
{
    line.starts_with(b"| units:")
}

fn first_line_says(alloc: Global, line: &[u8]) -> Result<SimLine, SimFault>
    ensures read { IfOk result (λ said. first_line_says line.now ≡ Ok said) }
    ensures refused { IfErr result (λ fault. fault ≢ OutOfMemory → first_line_says line.now ≡ Err fault) }
{
    if begins_with_units(line) {
        header_words_say(alloc, words(line))
    } else {
        Err(SimFault::Header)
    }
}

fn header_words_say(alloc: Global, words: Words<'_>) -> Result<SimLine, SimFault>
    ensures read { IfOk result (λ said. header_words_say words.entry ≡ Ok said) }
    ensures refused { IfErr result (λ fault. fault ≢ OutOfMemory → header_words_say words.entry ≡ Err fault) }
{
    let mut rest = words;
    let (Some((bar, units, one)), Some((tech, name, format)), Some(mit), None) = (
        next_three(&mut rest),
        next_three(&mut rest),
        rest.next(),
        rest.next(),
    ) else {
        return Err(SimFault::Header);
    };
    if bar == b"|".as_slice()
        && units == b"units:".as_slice()
        && one == b"1".as_slice()
        && tech == b"tech:".as_slice()
    {
        let name = name_in(alloc, name)?;
        if format == b"format:".as_slice() && mit == b"MIT".as_slice() {
            return Ok(SimLine::Header(name));
        }
    }
    Err(SimFault::Header)
}
