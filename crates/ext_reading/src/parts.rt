//! The names and numbers of a line.
ghost use Rattle.std.specs.Prelude.{◌≡◌, ◌≢◌, ◌<◌, ◌++◌, ◌∷◌, [], length, Ok, Err, OnOk, IfOk, IfErr, IfSome, MatchOption};
ghost use Rattle.std.specs.List.{list_all, position, slice_split};
ghost use Rattle.ext_model.specs.NodeNames.{is_word_byte, is_word, slashes_in, is_node_name};
ghost use Rattle.ext_reading.specs.declared.faults.ExtReadFault.TheVariants.{Memory as OutOfMemory};
ghost use Rattle.ext_reading.specs.Parts.{is_slash, is_path, is_quoted, unquoted, if_formed, word_in, cell_in, substrate_in};
ghost use Rattle.ext_reading.specs.Parts.{node_name_in, path_in, numeral_in, numerals_in, is_next};

use crate::faults::ExtReadFault;
use crate::lines::Numeral;
use ext_model::SLASH;
use names_lists::{List, Name};
use std::alloc::{AllocError, Global};
use text_scan::{NumFault, Words, is_plain_name, wide};

/// Puts an item behind others.
pub fn put<T: Drop>(items: &mut Vec<T>, item: T) -> Result<(), AllocError>
    ensures { OnOk result (items.new.items ≡ items.old.items ++ item ∷ []) }
{
    items.push(item)?;
    Ok(())
}

fn is_word_byte(byte: u8) -> bool
    ensures { result ≡ is_word_byte byte }
{
    33 <= byte && byte <= 126 && byte != b'"'
}

fn has_word_bytes(text: &[u8]) -> bool
    ensures { result ≡ list_all is_word_byte text.now }
{
    text.iter().all(|&byte| is_word_byte(byte))
}

fn is_word(text: &[u8]) -> bool
    ensures { result ≡ is_word text.now }
{
    1 <= text.len() && has_word_bytes(text)
}

fn slashes_in(text: &[u8]) -> usize
    ensures { result ≡ slashes_in text.now }
{
    text.iter().filter(|byte| **byte == SLASH).count()
}

fn is_node_name(text: &[u8]) -> bool
    ensures { result ≡ is_node_name text.now }
{
    is_word(text) && slashes_in(text) == 0
}

/// The place of the first slash.
pub fn slash_at(text: &[u8]) -> Option<usize>
    ensures { result ≡ position is_slash text.now }
{
    text.iter().position(|byte| *byte == SLASH)
}

// What stands before the first slash and behind it.
fn split_at_slash(text: &[u8]) -> Option<(&[u8], &[u8])>
    ensures parts { MatchOption result (slice_split is_slash text.now ≡ text.now ∷ [])
        (λ split. slice_split is_slash text.now ≡ split.0.now ∷ slice_split is_slash split.1.now) }
    ensures shorter { IfSome result (λ split. length split.1.now < length text.now) }
{
    match slash_at(text) {
        Some(end) => Some((&text[..end], &text[end + 1..])),
        None => None,
    }
}

fn is_path(text: &[u8]) -> bool
    ensures { result ≡ is_path text.now }
{
    let mut left = text;
    while let Some((name, rest)) = split_at_slash(left) {
        if !is_node_name(name) {
            return false;
        }
        left = rest;
    }
    is_node_name(left)
}

fn is_quoted(word: &[u8]) -> bool
    ensures { result ≡ is_quoted word.now }
{
    let length = word.len();
    2 <= length && word[0] == b'"' && word[length - 1] == b'"'
}

fn unquoted(word: &[u8]) -> &[u8]
    ensures { result.now ≡ unquoted word.now }
{
    if is_quoted(word) {
        &word[1..word.len() - 1]
    } else {
        word
    }
}

fn if_formed(alloc: Global, formed: bool, word: &[u8]) -> Result<Name, ExtReadFault>
    ensures read { IfOk result (λ name. if_formed formed word.now ≡ Ok name) }
    ensures refused { IfErr result (λ fault. fault ≢ OutOfMemory → if_formed formed word.now ≡ Err fault) }
{
    if !formed {
        return Err(ExtReadFault::BadLine);
    }
    Ok(Name::of(alloc, word)?)
}

/// The name of a technology, a type or a transistor.
pub fn word_in(alloc: Global, word: &[u8]) -> Result<Name, ExtReadFault>
    ensures read { IfOk result (λ name. word_in word.now ≡ Ok name) }
    ensures refused { IfErr result (λ fault. fault ≢ OutOfMemory → word_in word.now ≡ Err fault) }
{
    if_formed(alloc, is_word(word), word)
}

/// The name of a cell.
pub fn cell_in(alloc: Global, word: &[u8]) -> Result<Name, ExtReadFault>
    ensures read { IfOk result (λ name. cell_in word.now ≡ Ok name) }
    ensures refused { IfErr result (λ fault. fault ≢ OutOfMemory → cell_in word.now ≡ Err fault) }
{
    if_formed(alloc, is_plain_name(word), word)
}

/// The name of a substrate, with quotes or without.
pub fn substrate_in(alloc: Global, word: &[u8]) -> Result<Name, ExtReadFault>
    ensures read { IfOk result (λ name. substrate_in word.now ≡ Ok name) }
    ensures refused { IfErr result (λ fault. fault ≢ OutOfMemory → substrate_in word.now ≡ Err fault) }
{
    word_in(alloc, unquoted(word))
}

/// The name of a node, with quotes or without.
pub fn node_name_in(alloc: Global, word: &[u8]) -> Result<Name, ExtReadFault>
    ensures read { IfOk result (λ name. node_name_in word.now ≡ Ok name) }
    ensures refused { IfErr result (λ fault. fault ≢ OutOfMemory → node_name_in word.now ≡ Err fault) }
{
    let name = unquoted(word);
    if_formed(alloc, is_node_name(name), name)
}

/// A path, with quotes or without.
pub fn path_in(alloc: Global, word: &[u8]) -> Result<Name, ExtReadFault>
    ensures read { IfOk result (λ name. path_in word.now ≡ Ok name) }
    ensures refused { IfErr result (λ fault. fault ≢ OutOfMemory → path_in word.now ≡ Err fault) }
{
    let path = unquoted(word);
    if_formed(alloc, is_path(path), path)
}

/// The number that a word writes.
pub fn numeral_in(word: &[u8]) -> Result<Numeral, ExtReadFault>
    ensures { result ≡ numeral_in word.now }
{
    match wide(word) {
        Ok(value) => Ok(Some(value)),
        Err(NumFault::Range) => Ok(None),
        Err(NumFault::Empty | NumFault::Digit) => Err(ExtReadFault::BadLine),
    }
}

/// The numbers that words write.
pub fn numerals_in(alloc: Global, words: Words<'_>) -> Result<List<Numeral>, ExtReadFault>
    ensures read { IfOk result (λ numerals. numerals_in words.entry ≡ Ok numerals) }
    ensures refused { IfErr result (λ fault. fault ≢ OutOfMemory → numerals_in words.entry ≡ Err fault) }
{
    let mut numerals = Vec::new(alloc);
    for word in words {
        let numeral = numeral_in(word)?;
        put(&mut numerals, numeral)?;
    }
    Ok(List::of(numerals))
}

/// Whether the second number is one more than the first. Where 128 bits do not hold one of them, its range is told.
pub fn is_next(first: Numeral, second: Numeral) -> bool
    ensures { result ≡ is_next first second }
{
    match (first, second) {
        (Some(first), Some(second)) => first.checked_add(1) == Some(second),
        _ => true,
    }
}
