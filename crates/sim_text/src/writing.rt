//! Writes a sim text.
ghost use Rattle.std.specs.Prelude.{◌≡◌, ◌≢◌, ◌<◌, ◌≤◌, ◌∷◌, ◌++◌, length, IfOk, IfErr, OnOk};
ghost use Rattle.sim_text.specs.declared.files.SimLine.TheVariants.{Header, Fet, Cap, Alias};
ghost use Rattle.sim_text.specs.declared.faults.SimFault.TheVariants.{Memory as OutOfMemory};
ghost use Rattle.sim_text.specs.WrittenTexts.{line_saying, saying_cap, saying_alias, whole_line_saying};
ghost use Rattle.sim_text.specs.WrittenTexts.{lines_saying, numbers_behind_blanks, sim_text, IsTooLong};

use crate::faults::SimFault;
use crate::files::{SimFet, SimFile};
use crate::limits::LONGEST_TEXT;
use names_lists::Name;
use std::alloc::{AllocError, Global};
use text_scan::{append_number, append_word};

/// The text of a circuit: the header, its transistors, its capacitances and its aliases.
///
/// # Errors
///
/// `TooLong` exactly where the text is longer than `LONGEST_TEXT` bytes, or want of memory.
pub fn write_sim(alloc: Global, sim: &SimFile) -> Result<Vec<u8>, SimFault>
    ensures written { IfOk result (λ text. text.items ≡ sim_text sim.now) }
    ensures within { IfOk result (λ text. length text.items ≤ LONGEST_TEXT) }
    ensures refused { IfErr result (λ fault. fault ≢ OutOfMemory → IsTooLong fault (sim_text sim.now)) }
{
    let mut out = Vec::new(alloc);
    write_circuit(&mut out, sim)?;
    check_length(&out)?;
    Ok(out)
}

/// What is written as a line.
trait LineRecord {
    ghost use Rattle.sim_text.specs.declared.files.SimLine.{SimLine};

    /// What the line says.
    ghost said: { Self → SimLine };

    /// Writes the words of the line behind a text.
    fn write_words(&self, out: &mut Vec<u8>) -> Result<(), AllocError>
        ensures { OnOk result (out.new.items ≡ out.old.items ++ line_saying (said self.now)) };
}

impl LineRecord for SimFet {
    ghost use Rattle.sim_text.specs.declared.files.SimLine.TheVariants.{Fet};

    ghost said = { Fet };

    fn write_words(&self, out: &mut Vec<u8>) -> Result<(), AllocError> {
        append_fet_words(
            out,
            self.letter,
            &self.gate,
            &self.source,
            &self.drain,
            &self.numbers,
        )
    }
}

impl LineRecord for (Name, i128) {
    ghost use Rattle.sim_text.specs.WrittenTexts.{saying_cap};

    ghost said = { saying_cap };

    fn write_words(&self, out: &mut Vec<u8>) -> Result<(), AllocError> {
        append_cap_words(out, &self.0, self.1)
    }
}

impl LineRecord for (Name, Name) {
    ghost use Rattle.sim_text.specs.WrittenTexts.{saying_alias};

    ghost said = { saying_alias };

    fn write_words(&self, out: &mut Vec<u8>) -> Result<(), AllocError> {
        append_alias_words(out, &self.0, &self.1)
    }
}

fn write_circuit(out: &mut Vec<u8>, sim: &SimFile) -> Result<(), SimFault>
    ensures written { OnOk result (out.new.items ≡ out.old.items ++ sim_text sim.now) }
    ensures refused { IfErr result (λ fault.
        fault ≢ OutOfMemory → IsTooLong fault (out.old.items ++ sim_text sim.now)) }
{
    append_header(out, &sim.tech)?;
    write_lines(out, sim.fets.items())?;
    write_lines(out, sim.caps.items())?;
    write_lines(out, sim.aliases.items())?;
    Ok(())
}

/// Writes the first line, with the technology's name, behind a text. Want of memory alone refuses, here and in the next three; part of the
/// line may then stand there.
pub fn append_header(out: &mut Vec<u8>, tech: &Name) -> Result<(), AllocError>
    ensures { OnOk result (out.new.items ≡ out.old.items ++ whole_line_saying (Header tech.now)) }
{
    out.extend_from_slice(b"| units: 1 tech:")?;
    append_word(out, tech.bytes())?;
    out.extend_from_slice(b" format: MIT\n")?;
    Ok(())
}

/// Writes the line of a transistor behind a text.
pub fn append_fet(
    out: &mut Vec<u8>,
    letter: u8,
    gate: &Name,
    source: &Name,
    drain: &Name,
    numbers: &[i128],
) -> Result<(), AllocError>
    ensures { OnOk result (out.new.items ≡ out.old.items ++ whole_line_saying (Fet (record {
      letter = letter;
      gate = gate.now;
      source = source.now;
      drain = drain.now;
      numbers = numbers.now;
    }))) }
{
    append_fet_words(out, letter, gate, source, drain, numbers)?;
    out.push(b'\n')?;
    Ok(())
}

/// Writes the line of a node's capacitance behind a text.
pub fn append_cap(out: &mut Vec<u8>, node: &Name, cap: i128) -> Result<(), AllocError>
    ensures { OnOk result (out.new.items ≡ out.old.items ++ whole_line_saying (Cap node.now cap)) }
{
    append_cap_words(out, node, cap)?;
    out.push(b'\n')?;
    Ok(())
}

/// Writes the line of another name of a node behind a text.
pub fn append_alias(out: &mut Vec<u8>, node: &Name, alias: &Name) -> Result<(), AllocError>
    ensures { OnOk result (out.new.items ≡ out.old.items ++ whole_line_saying (Alias node.now alias.now)) }
{
    append_alias_words(out, node, alias)?;
    out.push(b'\n')?;
    Ok(())
}

// Writes the words of the line of a transistor.
fn append_fet_words(
    out: &mut Vec<u8>,
    letter: u8,
    gate: &Name,
    source: &Name,
    drain: &Name,
    numbers: &[i128],
) -> Result<(), AllocError>
    ensures { OnOk result (out.new.items ≡ out.old.items ++ line_saying (Fet (record {
      letter = letter;
      gate = gate.now;
      source = source.now;
      drain = drain.now;
      numbers = numbers.now;
    }))) }
{
    out.push(letter)?;
    append_word(out, gate.bytes())?;
    append_word(out, source.bytes())?;
    append_word(out, drain.bytes())?;
    append_numbers(out, numbers)?;
    Ok(())
}

// Writes the words of the line of a capacitance.
fn append_cap_words(out: &mut Vec<u8>, node: &Name, cap: i128) -> Result<(), AllocError>
    ensures { OnOk result (out.new.items ≡ out.old.items ++ line_saying (Cap node.now cap)) }
{
    out.push(b'C')?;
    append_word(out, node.bytes())?;
    out.extend_from_slice(b" GND!")?;
    append_number(out, cap)?;
    Ok(())
}

// Writes the words of the line of another name.
fn append_alias_words(out: &mut Vec<u8>, node: &Name, alias: &Name) -> Result<(), AllocError>
    ensures { OnOk result (out.new.items ≡ out.old.items ++ line_saying (Alias node.now alias.now)) }
{
    out.push(b'=')?;
    append_word(out, node.bytes())?;
    append_word(out, alias.bytes())?;
    Ok(())
}

// Writes a line for each record, as long as what is written is no longer than a text may be.
fn write_lines<R: LineRecord>(out: &mut Vec<u8>, items: &[R]) -> Result<(), SimFault>
    ensures written { OnOk result (out.new.items ≡ out.old.items ++ lines_saying R.said items.now) }
    ensures refused { IfErr result (λ fault.
        fault ≢ OutOfMemory → IsTooLong fault (out.old.items ++ lines_saying R.said items.now)) }
{
    for item in items {
        check_length(out)?;
        write_line(out, item)?;
    }
    Ok(())
}

fn write_line<R: LineRecord>(out: &mut Vec<u8>, item: &R) -> Result<(), AllocError>
    ensures { OnOk result (out.new.items ≡ out.old.items ++ whole_line_saying (R.said item.now)) }
{
    item.write_words(out)?;
    out.push(b'\n')?;
    Ok(())
}

fn check_length(text: &[u8]) -> Result<(), SimFault>
    ensures within { IfOk result (λ _. length text.now ≤ LONGEST_TEXT) }
    ensures refused { IfErr result (λ fault. IsTooLong fault text.now) }
{
    if text.len() > LONGEST_TEXT {
        return Err(SimFault::TooLong);
    }
    Ok(())
}

fn append_numbers(out: &mut Vec<u8>, numbers: &[i128]) -> Result<(), AllocError>
    ensures { OnOk result (out.new.items ≡ out.old.items ++ numbers_behind_blanks numbers.now) }
{
    for &number in numbers {
        append_number(out, number)?;
    }
    Ok(())
}
