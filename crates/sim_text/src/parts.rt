//! The parts of a line: names, letters and numbers.
ghost use Rattle.std.specs.Prelude.{◌≡◌, ◌≢◌, Ok, Err, IfOk, IfErr};
ghost use Rattle.std.specs.List.{list_all};
ghost use Rattle.std.specs.Char.{is_ascii_graphic};
ghost use Rattle.sim_text.specs.declared.faults.SimFault.TheVariants.{Memory as OutOfMemory};
ghost use Rattle.sim_text.specs.Parts.{is_sim_name, name_in, letter_in, number_in, within_edge, cap_in, four_numbers_in};

use crate::faults::SimFault;
use crate::limits::{CAP_EDGE, LONGEST_SIM_NAME};
use names_lists::Name;
use std::alloc::Global;
use text_scan::{NumFault, wide};

fn is_graphic(word: &[u8]) -> bool
    ensures { result ≡ list_all is_ascii_graphic word.now }
{
    word.iter().all(|byte| byte.is_ascii_graphic())
}

fn is_sim_name(word: &[u8]) -> bool
    ensures { result ≡ is_sim_name word.now }
{
    let length = word.len();
    1 <= length && length <= LONGEST_SIM_NAME && is_graphic(word)
}

/// The name that a word is, copied.
pub fn name_in(alloc: Global, word: &[u8]) -> Result<Name, SimFault>
    ensures read { IfOk result (λ name. name_in word.now ≡ Ok name) }
    ensures refused { IfErr result (λ fault. fault ≢ OutOfMemory → name_in word.now ≡ Err fault) }
{
    if !is_sim_name(word) {
        return Err(SimFault::Name);
    }
    Ok(Name::of(alloc, word)?)
}

/// The letter of a transistor that a word is.
pub fn letter_in(word: &[u8]) -> Result<u8, SimFault>
    ensures { result ≡ letter_in word.now }
{
    match word {
        [letter @ (b'e' | b'n' | b'p' | b'd')] => Ok(*letter),
        _ => Err(SimFault::Letter),
    }
}

/// The number that a word writes.
pub fn number_in(word: &[u8]) -> Result<i128, SimFault>
    ensures { result ≡ number_in word.now }
{
    match wide(word) {
        Ok(value) => Ok(value),
        Err(NumFault::Range) => Err(SimFault::Range),
        Err(NumFault::Empty | NumFault::Digit) => Err(SimFault::BadLine),
    }
}

fn within_edge(value: i128) -> Result<i128, SimFault>
    ensures { result ≡ within_edge value }
{
    if -CAP_EDGE < value && value < CAP_EDGE {
        Ok(value)
    } else {
        Err(SimFault::Range)
    }
}

/// The capacitance that a word writes.
pub fn cap_in(word: &[u8]) -> Result<i128, SimFault>
    ensures { result ≡ cap_in word.now }
{
    within_edge(number_in(word)?)
}

/// The numbers of a transistor, of which the first faulty one counts.
pub fn four_numbers_in(l: &[u8], w: &[u8], x: &[u8], y: &[u8]) -> Result<[i128; 4], SimFault>
    ensures { result ≡ four_numbers_in l.now w.now x.now y.now }
{
    let l = number_in(l)?;
    let w = number_in(w)?;
    let x = number_in(x)?;
    Ok([l, w, x, number_in(y)?])
}
