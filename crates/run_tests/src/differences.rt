//! What is not as a case says, and the line that tells of it.

use crate::cases::{Call, Numbered};
use std::alloc::{AllocError, Global};

/// Something that a run left otherwise than its case says.
#[derive(Drop)]
pub struct Difference {
    /// The call that failed, where the case was tried with another of its calls failing.
    pub swept: Option<Numbered>,
    pub what: What,
}

/// What was found, and what was wanted.
#[derive(Drop)]
pub enum What {
    Report(Vec<u8>, Vec<u8>),
    /// The report is not the beginning of the one that is wanted.
    ReportBeginning(Vec<u8>, Vec<u8>),
    Status(u8, u8),
    Calls(Call, u64, u64),
    /// The bytes of the file of that name.
    File(Vec<u8>, Vec<u8>, Vec<u8>),
    /// The file of that name is there, and no case knows of it.
    NewFile(Vec<u8>),
    /// The file of that name is not there.
    NoFile(Vec<u8>),
    /// This call is made after the one that failed.
    CallAfter(Numbered),
    /// No call of that kind is made that could fail.
    NothingSwept(Call),
}

/// The word for a kind of call.
fn word_of(call: Call) -> &'static str {
    match call {
        Call::Read => "read",
        Call::Write => "write",
        Call::Fetch => "fetch",
        Call::Store => "store",
    }
}

/// How many bytes of a text are shown.
const MOST_SHOWN: usize = 400;

/// The beginning of a text that is shown.
fn shown(text: &[u8]) -> &[u8] {
    text.get(..MOST_SHOWN).unwrap_or(text)
}

/// The line that tells of a difference, without its line feed.
pub fn text_of(alloc: Global, difference: &Difference) -> Result<String, AllocError> {
    let what = what_text(alloc, &difference.what)?;
    match difference.swept {
        Some(call) => {
            let word = word_of(call.call);
            format!(in alloc; "with {word} {} failing: {what}", call.number)
        }
        None => Ok(what),
    }
}

/// The words for what was found and what was wanted.
fn what_text(alloc: Global, what: &What) -> Result<String, AllocError> {
    match what {
        What::Report(found, wanted) => texts(alloc, "report", found, wanted),
        What::ReportBeginning(found, wanted) => texts(
            alloc,
            "beginning of the report",
            found,
            wanted,
        ),
        What::Status(found, wanted) => format!(in alloc; "status {found}, not {wanted}"),
        What::Calls(call, found, wanted) => {
            format!(in alloc; "{found} calls of {}, not {wanted}", word_of(*call))
        }
        What::File(name, found, wanted) => {
            let what = format!(in alloc; "file {}", shown(name).escape_ascii())?;
            texts(alloc, what.as_str(), found, wanted)
        }
        What::NewFile(name) => format!(in alloc;
            "a file {} that the case does not name",
            shown(name).escape_ascii()
        ),
        What::NoFile(name) => format!(in alloc; "no file {}", shown(name).escape_ascii()),
        What::CallAfter(call) => {
            let word = word_of(call.call);
            format!(in alloc; "{word} {} is made after it", call.number)
        }
        What::NothingSwept(call) => format!(in alloc; "no {} that could fail", word_of(*call)),
    }
}

/// The words for a text that was found and one that was wanted.
fn texts(alloc: Global, what: &str, found: &[u8], wanted: &[u8]) -> Result<String, AllocError> {
    format!(in alloc;
        "{what} \"{}\", not \"{}\"",
        shown(found).escape_ascii(),
        shown(wanted).escape_ascii()
    )
}
