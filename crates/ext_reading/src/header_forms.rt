//! What a line of the header says by itself.
ghost use Rattle.std.specs.Prelude.{◌≡◌, ◌≢◌, Ok, Err, IfOk, IfErr};
ghost use Rattle.ext_reading.specs.declared.faults.ExtReadFault.TheVariants.{Memory as OutOfMemory};
ghost use Rattle.ext_reading.specs.LineForms.{tech_line, version_of, version_line, classes_line};

use crate::faults::ExtReadFault;
use crate::lines::{HeaderLine, Version};
use crate::parts::{numerals_in, word_in};
use std::alloc::Global;
use text_scan::Words;

pub fn tech_line(alloc: Global, words: Words<'_>) -> Result<HeaderLine, ExtReadFault>
    ensures read { IfOk result (λ said. tech_line words.entry ≡ Ok said) }
    ensures refused { IfErr result (λ fault. fault ≢ OutOfMemory → tech_line words.entry ≡ Err fault) }
{
    let mut rest = words;
    let (Some(name), None) = (rest.next(), rest.next()) else {
        return Err(ExtReadFault::BadLine);
    };
    let name = word_in(alloc, name)?;
    Ok(HeaderLine::Tech(name))
}

// The version that a word says.
fn version_of(word: &[u8]) -> Version
    ensures { result ≡ version_of word.now }
{
    if word == b"1".as_slice() {
        Version::One
    } else if word == b"2".as_slice() {
        Version::Two
    } else {
        Version::Other
    }
}

pub fn version_line(words: Words<'_>) -> Result<HeaderLine, ExtReadFault>
    ensures { result ≡ version_line words.entry }
{
    let mut rest = words;
    let (Some(word), None) = (rest.next(), rest.next()) else {
        return Err(ExtReadFault::BadLine);
    };
    Ok(HeaderLine::Version(version_of(word)))
}

pub fn classes_line(alloc: Global, words: Words<'_>) -> Result<HeaderLine, ExtReadFault>
    ensures read { IfOk result (λ said. classes_line words.entry ≡ Ok said) }
    ensures refused { IfErr result (λ fault. fault ≢ OutOfMemory → classes_line words.entry ≡ Err fault) }
{
    let values = numerals_in(alloc, words)?;
    Ok(HeaderLine::Classes(values))
}
