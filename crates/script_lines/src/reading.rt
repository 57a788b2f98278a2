//! The command of a line.
ghost use Rattle.std.specs.Prelude.{◌≡◌, ◌≢◌, Ok, Err, IfOk, IfErr, IfSome};
ghost use Rattle.script_lines.specs.declared.faults.LineFault.TheVariants.{Memory as OutOfMemory};
ghost use Rattle.script_lines.specs.Commands.{begins_with_hash, command_of, command_on, command_of_words};
ghost use Rattle.script_lines.specs.Forms.{IsFormed};
ghost use Rattle.script_lines.specs.Arguments.{behind_word};
ghost use Rattle.text_scan.specs.Words.{words_of};

use crate::commands::Command;
use crate::faults::LineFault;
use crate::readings::{
    cell_id_and_six, count, id_alone, id_and_numbers, id_and_pair, label, layer_and_area, nothing,
    plain_alone, plain_pair, text_alone,
};
use crate::verbs::Verb;
use std::alloc::Global;
use text_scan::split_word;

/// What a line asks for: nothing where it has no word, or its first byte is `#`.
pub fn read_line(alloc: Global, line: &[u8]) -> Result<Option<Command>, LineFault>
    ensures read { IfOk result (λ command. command_of line.now ≡ Ok command) }
    ensures formed { IfOk result (λ command. IfSome command IsFormed) }
    ensures refused { IfErr result (λ fault. fault ≢ OutOfMemory → command_of line.now ≡ Err fault) }
{
    if begins_with_hash(line) {
        return Ok(None);
    }
    let Some((word, rest)) = split_word(line) else {
        return Ok(None);
    };
    let Some(verb) = Verb::of(word) else {
        return Err(LineFault::BadWord);
    };
    Ok(Some(command_on(alloc, verb, rest)?))
}

fn begins_with_hash(line: &[u8]) -> bool
    ensures { result ≡ begins_with_hash line.now }
{
    matches!(line, [b'#', ..])
}

// The command of a line behind the verb of `place`.
fn place_on(alloc: Global, line: &[u8]) -> Result<Command, LineFault>
    ensures read { IfOk result (λ command. command_on Verb.Place line.now ≡ Ok command) }
    ensures refused { IfErr result (λ fault. fault ≢ OutOfMemory → command_on Verb.Place line.now ≡ Err fault) }
{
    let (cell, id, six) = cell_id_and_six(alloc, line)?;
    Ok(Command::Place(cell, id, six))
}

// The command of a line behind the verb of `array`.
fn array_on(alloc: Global, line: &[u8]) -> Result<Command, LineFault>
    ensures read { IfOk result (λ command. command_on Verb.Array line.now ≡ Ok command) }
    ensures refused { IfErr result (λ fault. fault ≢ OutOfMemory → command_on Verb.Array line.now ≡ Err fault) }
{
    let (id, six) = id_and_numbers(alloc, line)?;
    Ok(Command::Array(id, six))
}

// The command of a line, of which this is the verb and what follows it.
fn command_on(alloc: Global, verb: Verb, line: &[u8]) -> Result<Command, LineFault>
    ensures read { IfOk result (λ command. command_on verb line.now ≡ Ok command) }
    ensures refused { IfErr result (λ fault. fault ≢ OutOfMemory → command_on verb line.now ≡ Err fault) }
{
    match verb {
        Verb::Tech => plain_alone(alloc, line).map(Command::Tech),
        Verb::Load => plain_alone(alloc, line).map(Command::Load),
        Verb::New => plain_alone(alloc, line).map(Command::New),
        Verb::Edit => plain_alone(alloc, line).map(Command::Edit),
        Verb::Paint => layer_and_area(alloc, line).map(|(layer, area)| Command::Paint(layer, area)),
        Verb::Erase => layer_and_area(alloc, line).map(|(layer, area)| Command::Erase(layer, area)),
        Verb::Place => place_on(alloc, line),
        Verb::Array => array_on(alloc, line),
        Verb::Move => id_and_pair(alloc, line).map(|(id, dx, dy)| Command::Move(id, dx, dy)),
        Verb::Delete => id_alone(alloc, line).map(Command::Delete),
        Verb::Label => label(alloc, line).map(|(layer, area, position, text)| Command::Label(
            layer, area, position, text,
        )),
        Verb::Unlabel => text_alone(alloc, line).map(Command::Unlabel),
        Verb::Undo => nothing(line).map(|()| Command::Undo),
        Verb::Redo => nothing(line).map(|()| Command::Redo),
        Verb::Save => plain_alone(alloc, line).map(Command::Save),
        Verb::Nodes => plain_alone(alloc, line).map(Command::Nodes),
        Verb::Squares => plain_alone(alloc, line).map(Command::Squares),
        Verb::Drc => plain_pair(alloc, line).map(|(cell, file)| Command::Drc(cell, file)),
        Verb::Cif => plain_alone(alloc, line).map(Command::Cif),
        Verb::Cifstat => plain_alone(alloc, line).map(Command::Cifstat),
        Verb::Extract => plain_alone(alloc, line).map(Command::Extract),
        Verb::Flat => plain_alone(alloc, line).map(Command::Flat),
        Verb::Sim => plain_alone(alloc, line).map(Command::Sim),
        Verb::Vectors => plain_pair(alloc, line).map(|(cell, file)| Command::Vectors(cell, file)),
        Verb::Grade => plain_pair(alloc, line).map(|(cell, file)| Command::Grade(cell, file)),
        Verb::Generate => count(line).map(Command::Generate),
        Verb::Ext2sim => plain_alone(alloc, line).map(Command::Ext2sim),
        Verb::Simrun => plain_pair(alloc, line).map(|(cell, file)| Command::Simrun(cell, file)),
    }
}
