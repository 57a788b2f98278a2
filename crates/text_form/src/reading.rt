//! Reads a text line by line.
ghost use Rattle.std.specs.Prelude.{◌≡◌, ◌≢◌, ◌+◌, ℕ, List, Result, Ok, Err, OnOk, IfOk, IfErr, length, max};
ghost use Rattle.text_scan.specs.Lines.{lines_of};
ghost use Rattle.text_form.specs.Folds.{fault_at, first_fault_or, ended_at, text_state};

use text_scan::lines;

/// Where in a text its first fault stands, and which fault it is.
#[derive(Debug, Drop)]
pub struct At<F> {
    /// The number of the line, from 1.
    pub line: u32,
    pub fault: F,
}

/// What reads the lines of a text, one after another, and keeps what they say.
pub trait LineReader {
    /// What lines are looked up in, such as a technology. Reading leaves it as it is.
    type Context;

    /// What may be wrong with a line, or with the whole; want of memory is one such fault.
    type Fault: Drop;

    /// The fault that is want of memory.
    ghost memory: { Self.Fault };

    /// What a line of this number makes of the state; or its first fault.
    ghost step: { Self.Context → ℕ → Self → List ℕ → Result Self Self.Fault };

    /// What the end of the text makes of the state; or what is wrong with the whole.
    ghost finish: { Self.Context → Self → Result Self Self.Fault };

    /// Want of memory, as a fault.
    fn memory() -> Self::Fault
        ensures { result ≡ memory };

    /// Reads the line of this number.
    fn read_line(
        &mut self,
        context: &Self::Context,
        number: usize,
        line: &[u8],
    ) -> Result<(), Self::Fault>
        ensures read { OnOk result (step context.now number self.old line.now ≡ Ok self.new) }
        ensures refused { IfErr result (λ fault.
            fault ≢ memory → step context.now number self.old line.now ≡ Err fault) };

    /// Ends the text.
    fn end(&mut self, context: &Self::Context) -> Result<(), Self::Fault>
        ensures read { OnOk result (finish context.now self.old ≡ Ok self.new) }
        ensures refused { IfErr result (λ fault. fault ≢ memory → finish context.now self.old ≡ Err fault) };
}

// The fault of a line. A number past 32 bits cannot be told, and counts as want of memory.
fn located<R: LineReader>(line: usize, fault: R::Fault) -> At<R::Fault>
    ensures told { result.fault ≢ R.memory → result ≡ fault_at line fault }
    ensures fault { result.fault ≢ R.memory → fault ≢ R.memory }
{
    match u32::try_from(line) {
        Ok(line) => At { line, fault },
        Err(_) => At {
            line: 0,
            fault: R::memory(),
        },
    }
}

/// Reads the lines of a text up to the first faulty one, and says how many there are.
///
/// # Errors
///
/// The number and the fault of the first faulty line, or want of memory.
pub fn read_lines<R: LineReader>(
    reader: &mut R,
    context: &R::Context,
    text: &[u8],
) -> Result<usize, At<R::Fault>>
    ensures count { IfOk result (λ count. count ≡ length (lines_of text.now)) }
    ensures read { OnOk result (
        first_fault_or (R.step context.now) 1 reader.old (lines_of text.now) ≡ Ok reader.new) }
    ensures refused { IfErr result (λ at. at.fault ≢ R.memory →
        first_fault_or (R.step context.now) 1 reader.old (lines_of text.now) ≡ Err at) }
{
    let mut number = 0;
    for line in lines(text) {
        number += 1;
        if let Err(fault) = reader.read_line(context, number, line) {
            return Err(located::<R>(number, fault));
        }
    }
    Ok(number)
}

/// Reads a text whole: its first faulty line refuses it, or else what is wrong with the whole, which is told at the last line.
///
/// # Errors
///
/// The number of the line and the fault, or want of memory.
pub fn read_text<R: LineReader>(
    reader: &mut R,
    context: &R::Context,
    text: &[u8],
) -> Result<(), At<R::Fault>>
    ensures read { OnOk result (
        text_state (R.step context.now) (R.finish context.now) reader.old (lines_of text.now) ≡ Ok reader.new) }
    ensures refused { IfErr result (λ at. at.fault ≢ R.memory →
        text_state (R.step context.now) (R.finish context.now) reader.old (lines_of text.now) ≡ Err at) }
{
    match read_lines(reader, context, text) {
        Ok(count) => end_text(reader, context, count.max(1)),
        Err(at) => Err(at),
    }
}

// Ends a text whose last line has this number.
fn end_text<R: LineReader>(
    reader: &mut R,
    context: &R::Context,
    last: usize,
) -> Result<(), At<R::Fault>>
    ensures read { OnOk result (ended_at last (R.finish context.now reader.old) ≡ Ok reader.new) }
    ensures refused { IfErr result (λ at.
        at.fault ≢ R.memory → ended_at last (R.finish context.now reader.old) ≡ Err at) }
{
    match reader.end(context) {
        Ok(()) => Ok(()),
        Err(fault) => Err(located::<R>(last, fault)),
    }
}
