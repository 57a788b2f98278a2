//! Paths whose first name has an index to raise.
ghost use Rattle.std.specs.Prelude.{◌≡◌, ◌↔◌, ◌==◌, ◌∷◌, ℕ, List, position, IfOk, IsTrue};
ghost use Rattle.std.specs.Int.{w32};
ghost use Rattle.std.specs.Int.RustNames.{FitsSigned};
ghost use Rattle.text_scan.specs.Decimal.{decimal};
ghost use Rattle.ext_model.specs.declared.names.TheConstants.{SLASH};
ghost use Rattle.ext_model.specs.ElementNames.{is_use_id};
ghost use Rattle.ext_model.specs.LawfulArrays.{BeginsIndexed};
ghost use Rattle.ext_model.specs.Plain.{before, behind, index_of, raised};
ghost use Rattle.merge_rows.specs.steps.IndexTexts.{IsIndexText};

use ext_model::{SLASH, is_use_id};
use itoa::Buffer;
use names_lists::Name;
use std::alloc::{AllocError, Global};
use text_scan::{append_decimal, number};

// The place of the first such byte.
fn place_of(text: &[u8], mark: u8) -> Option<usize>
    ensures { result ≡ position (λ byte. byte == mark) text.now }
{
    text.iter().position(|&byte| byte == mark)
}

// What stands before the first such byte, and what stands behind it: all and nothing where there is none.
fn cut_at(text: &[u8], mark: u8) -> (&[u8], &[u8])
    ensures before { result.0.now ≡ before mark text.now }
    ensures behind { result.1.now ≡ behind mark text.now }
{
    match place_of(text, mark) {
        Some(end) => (&text[..end], &text[end + 1..]),
        None => (text, &[]),
    }
}

// The number that a word writes, or 0 where it writes none.
fn index_of(word: &[u8]) -> i64
    ensures { result ≡ index_of word.now }
{
    number(word).unwrap_or(0)
}

// Whether the word is the decimal text of the number.
fn is_text_of(word: &[u8], number: i64) -> bool
    ensures { IsTrue result ↔ (word.now ≡ decimal number) }
{
    let mut buffer = Buffer::new();
    buffer.format(number).as_bytes() == word
}

// Whether the number fits 32 bits with sign.
fn fits_index(number: i64) -> bool
    ensures { IsTrue result ↔ FitsSigned w32 number }
{
    i32::try_from(number).is_ok()
}

// Whether the word is the text of a number that it is read as, of 32 bits with sign.
fn is_text_of_index(word: &[u8], number: i64) -> bool
    ensures { IsTrue result ↔ (FitsSigned w32 number × (word.now ≡ decimal number)) }
{
    fits_index(number) && is_text_of(word, number)
}

// Whether the word is the decimal text of a number of 32 bits with sign.
fn is_index(word: &[u8]) -> bool
    ensures { IsTrue result ↔ IsIndexText word.now }
{
    match number(word) {
        Ok(index) => is_text_of_index(word, index),
        Err(_) => false,
    }
}

// Whether the text begins with a slash.
fn begins_with_slash(text: &[u8]) -> bool
    ensures { IsTrue result ↔ ((rest : List ℕ) × (text.now ≡ SLASH ∷ rest)) }
{
    matches!(text, [SLASH, ..])
}

// Whether these are an id, two indices, and a slash with what follows it.
fn are_parts(id: &[u8], first: &[u8], second: &[u8], rest: &[u8]) -> bool
    ensures { IsTrue result ↔ (IsTrue (is_use_id id.now) × IsIndexText first.now × IsIndexText second.now
        × (behind : List ℕ) × (rest.now ≡ SLASH ∷ behind)) }
{
    is_use_id(id) && is_index(first) && is_index(second) && begins_with_slash(rest)
}

/// Whether the path has a slash, and its first name is an id with two indices. It takes a step for each byte.
pub(crate) fn begins_indexed(path: &[u8]) -> bool
    ensures { IsTrue result ↔ BeginsIndexed path.now }
{
    let (id, indices) = cut_at(path, b'[');
    let (first, others) = cut_at(indices, b',');
    let (second, rest) = cut_at(others, b']');
    are_parts(id, first, second, rest)
}

/// The text of the path with its index raised by so much. It takes a step for each byte. Want of memory alone refuses.
pub fn raised_text(alloc: Global, path: &[u8], steps: u64) -> Result<Vec<u8>, AllocError>
    ensures { IfOk result (λ text. text.items ≡ raised path.now steps) }
{
    if steps == 0 {
        return Vec::from_slice(alloc, path);
    }
    let (id, indexed) = cut_at(path, b'[');
    let (index, rest) = cut_at(indexed, b',');
    let next = i128::from(index_of(index)) + i128::from(steps);
    let mut text = Vec::with_capacity(alloc, path.len())?;
    text.extend_from_slice(id)?;
    text.push(b'[')?;
    append_decimal(&mut text, next)?;
    text.push(b',')?;
    text.extend_from_slice(rest)?;
    Ok(text)
}

/// The path with the index i of its first name raised by so much. It takes a step for each byte. Want of memory alone refuses.
pub fn raised_path(alloc: Global, path: &[u8], steps: u64) -> Result<Name, AllocError>
    ensures { IfOk result (λ raised_one. raised_one ≡ raised path.now steps) }
{
    let text = raised_text(alloc, path, steps)?;
    Name::of(alloc, text.as_slice())
}
