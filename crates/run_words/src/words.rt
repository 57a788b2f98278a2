//! The words of a run.
ghost use Rattle.std.specs.Prelude.{◌≡◌, IfOk, map, string_bytes};
ghost use Rattle.std.specs.List.{list_all};
ghost use Rattle.run_words.specs.steps.ClapWords.{is_known};
ghost use Rattle.run_words.specs.RunWords.{words_of};

use crate::command_line::{is_known, options_of, parse};
use clap::error::ErrorKind;
use std::alloc::{AllocError, Global};

/// What the words after the program's name ask for.
#[derive(Clone, Copy, Debug, PartialEq, Eq)]
pub struct RunWords {
    /// Whether replies are left out of the report.
    pub quiet: bool,
    /// The most steps of a phase of a simulation.
    pub budget: u32,
}

/// Reads the words after the program's name: `None` where they are not of the form.
pub fn read_words(alloc: Global, words: &[String]) -> Result<Option<RunWords>, AllocError>
    ensures { IfOk result (λ read. read ≡ words_of (map string_bytes words.now)) }
{
    if !are_known(words) {
        return Ok(None);
    }
    match parse(alloc, words) {
        Ok(matches) => Ok(Some(options_of(&matches))),
        Err(error) => match error.kind() {
            ErrorKind::OutOfMemory => Err(AllocError),
            _ => Ok(None),
        },
    }
}

// Whether each of the words stands in some words of the form.
fn are_known(words: &[String]) -> bool
    ensures { result ≡ list_all (λ word. is_known (string_bytes word)) words.now }
{
    words.iter().all(|word| is_known(word.as_bytes()))
}
