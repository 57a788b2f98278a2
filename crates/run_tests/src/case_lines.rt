//! What a line of a file of cases says.

use crate::cases::{Call, Numbered};
use std::alloc::{AllocError, AllocFailed};
use text_scan::{number, split_word};
use thiserror::Error;

/// Why a file of cases is not of its form.
#[derive(Clone, Copy, Debug, PartialEq, Eq, Error)]
pub enum CaseFault {
    #[error("no line begins like this")]
    UnknownLine,
    #[error("a number of its range is missing")]
    NoNumber,
    #[error("neither `read` nor `write`, `fetch`, `store`")]
    NoCall,
    #[error("a backslash before nothing that stands for a byte")]
    BadEscape,
    #[error("a text where none can stand")]
    NoText,
    #[error("only a case has this")]
    NoCase,
    #[error("no shared file of this name")]
    NoSharedFile,
    #[error("the shared file has no such line")]
    NoSuchLine,
    #[error("out of memory")]
    Memory,
}

impl From<AllocError> for CaseFault {
    fn from(_error: AllocError) -> CaseFault {
        CaseFault::Memory
    }
}

impl<T: Drop> From<AllocFailed<T>> for CaseFault {
    fn from(_failed: AllocFailed<T>) -> CaseFault {
        CaseFault::Memory
    }
}

/// A line of a file of cases.
#[derive(Clone, Copy)]
pub enum CaseLine<'a> {
    /// A blank line or a comment.
    Nothing,
    /// A part of the text that is read.
    Text(TextPart<'a>),
    /// `line N`: what follows stands in the place of this line of the file that is edited.
    Line(u64),
    /// What follows is for this.
    Heading(Heading<'a>),
    /// Something that a case has beside its texts.
    Property(Property<'a>),
}

/// A part of a text.
#[derive(Clone, Copy)]
pub enum TextPart<'a> {
    /// `|TEXT`: the text and a line feed.
    Line(&'a [u8]),
    /// `~TEXT`: the bytes that the text stands for.
    Bytes(&'a [u8]),
    /// `times N TEXT`: the bytes that the text stands for, so many times.
    Times(u64, &'a [u8]),
    /// `pad N`: blanks, up to so many bytes.
    Pad(u64),
}

/// What the lines that follow are for.
#[derive(Clone, Copy)]
pub enum Heading<'a> {
    /// `case NAME`
    Case(&'a [u8]),
    /// `script`
    Script,
    /// `report`
    Report,
    /// `file NAME`
    File(&'a [u8]),
    /// `edit NAME`
    Edit(&'a [u8]),
    /// `stored NAME`
    Stored(&'a [u8]),
}

/// What a case has beside its texts.
#[derive(Clone, Copy)]
pub enum Property<'a> {
    /// `word WORD`
    Word(&'a [u8]),
    /// `piece N`
    Piece(u64),
    /// `fail CALL N`
    Fail(Numbered),
    /// `sweep CALL`
    Sweep(Call),
    /// `status N`
    Status(u8),
    /// `lost NAME`
    Lost(&'a [u8]),
    /// `calls CALL N`
    Calls(Numbered),
}

/// What a line says.
pub fn case_line(line: &[u8]) -> Result<CaseLine<'_>, CaseFault> {
    match line {
        [] | [b'#', ..] => Ok(CaseLine::Nothing),
        [b'|', text @ ..] => Ok(CaseLine::Text(TextPart::Line(text))),
        [b'~', text @ ..] => Ok(CaseLine::Text(TextPart::Bytes(text))),
        _ => match split_word(line) {
            Some((key, rest)) => keyed_line(key, after_blank(rest)),
            None => Ok(CaseLine::Nothing),
        },
    }
}

/// A text without one blank at its beginning.
fn after_blank(text: &[u8]) -> &[u8] {
    match text {
        [b' ', rest @ ..] => rest,
        _ => text,
    }
}

/// What a line says that begins with a word of its own, before this text.
fn keyed_line<'a>(key: &[u8], text: &'a [u8]) -> Result<CaseLine<'a>, CaseFault> {
    if let Some(heading) = heading_of(key, text) {
        return Ok(CaseLine::Heading(heading));
    }
    match key {
        b"line" => Ok(CaseLine::Line(count(text)?)),
        b"pad" => Ok(CaseLine::Text(TextPart::Pad(count(text)?))),
        b"times" => {
            let Some((times, rest)) = split_word(text) else {
                return Err(CaseFault::NoNumber);
            };
            let part = TextPart::Times(count(times)?, after_blank(rest));
            Ok(CaseLine::Text(part))
        }
        _ => Ok(CaseLine::Property(property_of(key, text)?)),
    }
}

/// The heading that a line is, if it is one.
fn heading_of<'a>(key: &[u8], text: &'a [u8]) -> Option<Heading<'a>> {
    match key {
        b"case" => Some(Heading::Case(text)),
        b"script" => Some(Heading::Script),
        b"report" => Some(Heading::Report),
        b"file" => Some(Heading::File(text)),
        b"edit" => Some(Heading::Edit(text)),
        b"stored" => Some(Heading::Stored(text)),
        _ => None,
    }
}

/// The property of a case that a line tells.
fn property_of<'a>(key: &[u8], text: &'a [u8]) -> Result<Property<'a>, CaseFault> {
    match key {
        b"word" => Ok(Property::Word(text)),
        b"piece" => Ok(Property::Piece(count(text)?)),
        b"fail" => Ok(Property::Fail(numbered(text)?)),
        b"sweep" => Ok(Property::Sweep(call_of(text)?)),
        b"status" => Ok(Property::Status(status_of(text)?)),
        b"lost" => Ok(Property::Lost(text)),
        b"calls" => Ok(Property::Calls(numbered(text)?)),
        _ => Err(CaseFault::UnknownLine),
    }
}

/// The number that a word is.
fn count(word: &[u8]) -> Result<u64, CaseFault> {
    match number(word) {
        Ok(value) => u64::try_from(value).map_err(|_| CaseFault::NoNumber),
        Err(_) => Err(CaseFault::NoNumber),
    }
}

/// The exit status that a word is.
fn status_of(word: &[u8]) -> Result<u8, CaseFault> {
    u8::try_from(count(word)?).map_err(|_| CaseFault::NoNumber)
}

/// The kind of call that a word names.
fn call_of(word: &[u8]) -> Result<Call, CaseFault> {
    match word {
        b"read" => Ok(Call::Read),
        b"write" => Ok(Call::Write),
        b"fetch" => Ok(Call::Fetch),
        b"store" => Ok(Call::Store),
        _ => Err(CaseFault::NoCall),
    }
}

/// The kind of call and the number of a text of two words.
fn numbered(text: &[u8]) -> Result<Numbered, CaseFault> {
    let Some((word, rest)) = split_word(text) else {
        return Err(CaseFault::NoCall);
    };
    Ok(Numbered {
        call: call_of(word)?,
        number: count(after_blank(rest))?,
    })
}
