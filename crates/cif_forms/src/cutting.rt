//! Cuts a text into commands, and reads them one after another.
ghost use Rattle.std.specs.Prelude.{◌≡◌, ◌≢◌, ◌<◌, ◌≤◌, ◌+◌, ◌^◌, length, position, Bool, ℕ, List, Result, Ok, Err, OnOk, IfErr, IfSome, MatchOption};
ghost use Rattle.std.specs.List.{slice_split};
ghost use Rattle.text_form.specs.Folds.{fault_at};
ghost use Rattle.cif_forms.specs.Bytes.{is_semicolon};
ghost use Rattle.cif_forms.specs.Cutting.{line_of_command};
ghost use Rattle.text_form.specs.Parts.{first_faulty_part_or};
ghost use Rattle.cif_forms.specs.Cutting.{IsFirstCommand, IsLastCommand, line_ends, line_ends_before, commands_from, step_on};

use crate::bytes::{is_blank, is_semicolon};
use text_form::At;

/// What reads the commands of a text, one after another, and keeps what they say.
pub trait CommandReader {
    /// What may be wrong with a command; want of memory is one such fault.
    type Fault: Drop;

    /// The fault that is want of memory.
    ghost memory: { Self.Fault };

    /// What a command makes of the state, which a semicolon ends or not; or its first fault.
    ghost step: { Self → List ℕ → Bool → Result Self Self.Fault };

    /// Want of memory, as a fault.
    fn memory() -> Self::Fault
        ensures { result ≡ memory };

    /// Reads a command.
    fn read_command(&mut self, bytes: &[u8], closed: bool) -> Result<(), Self::Fault>
        ensures read { OnOk result (step self.old bytes.now closed ≡ Ok self.new) }
        ensures refused { IfErr result (λ fault. fault ≢ memory → step self.old bytes.now closed ≡ Err fault) };
}

fn semicolon_at(text: &[u8]) -> Option<usize>
    ensures { result ≡ position is_semicolon text.now }
{
    text.iter().position(|&byte| is_semicolon(byte))
}

/// The first command of a text, and what follows its semicolon. `None` is for a text without one.
fn split_command(text: &[u8]) -> Option<(&[u8], &[u8])>
    ensures cut { MatchOption result (IsLastCommand text.now) (λ split. IsFirstCommand text.now split.0.now split.1.now) }
    ensures shorter { IfSome result (λ split. length split.0.now + length split.1.now + 1 ≡ length text.now) }
{
    match semicolon_at(text) {
        Some(end) => Some((&text[..end], &text[end + 1..])),
        None => None,
    }
}

fn line_ends(bytes: &[u8]) -> usize
    ensures value { result ≡ line_ends bytes.now }
    ensures few { result ≤ length bytes.now }
{
    bytes.iter().filter(|byte| **byte == b'\n').count()
}

fn line_ends_before(bytes: &[u8]) -> usize
    ensures value { result ≡ line_ends_before bytes.now }
    ensures few { result ≤ length bytes.now }
{
    let mut count = 0;
    for &byte in bytes {
        if !is_blank(byte) {
            return count;
        }
        if byte == b'\n' {
            count += 1;
        }
    }
    count
}

// The fault of a command. A line past 32 bits cannot be told, and counts as want of memory.
fn located<R: CommandReader>(line: usize, fault: R::Fault) -> At<R::Fault>
    ensures told { result.fault ≢ R.memory → result ≡ fault_at line fault }
    ensures fault { result.fault ≢ R.memory → fault ≢ R.memory }
{
    match u32::try_from(line) {
        Ok(line) => At { line, fault },
        Err(_) => At {
            line: 0,
            fault: R::memory(),
        },
    }
}

// Reads a command whose part of the text begins on the line.
fn read_at<R: CommandReader>(
    reader: &mut R,
    line: usize,
    bytes: &[u8],
    closed: bool,
) -> Result<(), At<R::Fault>>
    requires { line + length bytes.now < 2 ^ 64 }
    ensures read { OnOk result (R.step reader.old bytes.now closed ≡ Ok reader.new) }
    ensures refused { IfErr result (λ at. at.fault ≢ R.memory
        → (R.step reader.old bytes.now closed ≡ Err at.fault) × (at.line ≡ line + line_ends_before bytes.now)) }
{
    match reader.read_command(bytes, closed) {
        Ok(()) => Ok(()),
        Err(fault) => Err(located::<R>(line + line_ends_before(bytes), fault)),
    }
}

/// Reads the commands of a text, whose comments are blanks already, up to the first faulty one.
///
/// # Errors
///
/// The line and the fault of the first faulty command, or want of memory.
pub fn read_commands<R: CommandReader>(reader: &mut R, text: &[u8]) -> Result<(), At<R::Fault>>
    ensures read { OnOk result (
        first_faulty_part_or line_of_command (step_on R.step) reader.old (commands_from 1 (slice_split is_semicolon text.now)) ≡ Ok reader.new) }
    ensures refused { IfErr result (λ at. at.fault ≢ R.memory
        → first_faulty_part_or line_of_command (step_on R.step) reader.old (commands_from 1 (slice_split is_semicolon text.now)) ≡ Err at) }
{
    let mut rest = text;
    let mut line = 1;
    while let Some((command, more)) = split_command(rest) {
        match read_at(reader, line, command, true) {
            Ok(()) => {}
            Err(at) => return Err(at),
        }
        line += line_ends(command);
        rest = more;
    }
    read_at(reader, line, rest, false)
}
