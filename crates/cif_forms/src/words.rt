//! The words of a command.
ghost use Rattle.std.specs.Prelude.{◌≡◌, ◌∷◌, ◌++◌, [], ◌<◌, ◌≤◌, ◌↔◌, length, IfOk, IfSome, MatchOption, OnOk, IsNone, position, drop};
ghost use Rattle.std.specs.List.{before_first, position_or_len};
ghost use Rattle.text_scan.specs.Numbers.{integer_of};
ghost use Rattle.cif_forms.specs.Words.{words_in, from_first_word, is_no_numeral, word_of, words_of, held, letter_of, past_all};
ghost use Rattle.std.specs.Str.Parse.{starts_with_minus};

use crate::bytes::{is_blank, is_numeral};
use crate::limits::{HIGHEST, LOWEST};
use std::alloc::{AllocError, Global};
use text_scan::{NumFault, number};

/// A word of a command: an upper-case letter, of which those that begin commands and steps have names; a number, which is held as itself if
/// it has 32 bits, and else as the nearest that has not; or neither.
#[derive(Clone, Copy)]
pub enum CifWord {
    B,
    C,
    D,
    F,
    M,
    P,
    R,
    S,
    T,
    W,
    X,
    Y,
    Letter,
    Number(i64),
    Broken,
}

/// The bytes from the first that is no blank on.
pub fn from_first_word(bytes: &[u8]) -> &[u8]
    ensures value { result.now ≡ from_first_word bytes.now }
{
    let mut rest = bytes;
    while let [byte, more @ ..] = rest {
        if !is_blank(*byte) {
            return rest;
        }
        rest = more;
    }
    rest
}

fn first_other(bytes: &[u8]) -> Option<usize>
    ensures { result ≡ position is_no_numeral bytes.now }
{
    bytes.iter().position(|&byte| !is_numeral(byte))
}

// How many bytes of a number the bytes begin with.
fn numerals_end(bytes: &[u8]) -> usize
    ensures value { result ≡ position_or_len is_no_numeral bytes.now }
    ensures few { result ≤ length bytes.now }
{
    match first_other(bytes) {
        Some(end) => end,
        None => bytes.len(),
    }
}

/// The first word of a command, and what follows it. `None` is for one without a word.
fn split_word(bytes: &[u8]) -> Option<(&[u8], &[u8])>
    ensures words { MatchOption result (words_in bytes.now ≡ [])
        (λ split. words_in bytes.now ≡ split.0.now ∷ words_in split.1.now) }
    ensures less { IfSome result (λ split. length split.1.now < length bytes.now) }
{
    let bytes = from_first_word(bytes);
    if bytes.is_empty() {
        return None;
    }
    Some(bytes.split_at(numerals_end(bytes).max(1)))
}

fn held(word: &[u8]) -> CifWord
    ensures { result ≡ held (integer_of word.now) }
{
    match number(word) {
        Ok(value) => CifWord::Number(value.min(HIGHEST).max(LOWEST)),
        Err(NumFault::Range) => CifWord::Number(past_all(word)),
        Err(NumFault::Empty) => CifWord::Broken,
        Err(NumFault::Digit) => CifWord::Broken,
    }
}

// The number that stands for those that are too long.
fn past_all(word: &[u8]) -> i64
    ensures { result ≡ past_all (starts_with_minus word.now) }
{
    match word {
        [b'-', ..] => LOWEST,
        _ => HIGHEST,
    }
}

fn letter_of(byte: u8) -> CifWord
    ensures { result ≡ letter_of byte }
{
    match byte {
        b'B' => CifWord::B,
        b'C' => CifWord::C,
        b'D' => CifWord::D,
        b'F' => CifWord::F,
        b'M' => CifWord::M,
        b'P' => CifWord::P,
        b'R' => CifWord::R,
        b'S' => CifWord::S,
        b'T' => CifWord::T,
        b'W' => CifWord::W,
        b'X' => CifWord::X,
        b'Y' => CifWord::Y,
        _ => CifWord::Letter,
    }
}

fn word_of(word: &[u8]) -> CifWord
    ensures { result ≡ word_of word.now }
{
    match word {
        [byte] if byte.is_ascii_uppercase() => letter_of(*byte),
        _ => held(word),
    }
}

fn put(words: &mut Vec<CifWord>, word: CifWord) -> Result<(), AllocError>
    ensures { OnOk result (words.new.items ≡ words.old.items ++ word ∷ []) }
{
    words.push(word)?;
    Ok(())
}

/// The words of a command.
pub fn words_of(alloc: Global, bytes: &[u8]) -> Result<Vec<CifWord>, AllocError>
    ensures { IfOk result (λ words. words.items ≡ words_of bytes.now) }
{
    let mut words = Vec::new(alloc);
    let mut rest = bytes;
    while let Some((word, more)) = split_word(rest) {
        put(&mut words, word_of(word))?;
        rest = more;
    }
    Ok(words)
}
