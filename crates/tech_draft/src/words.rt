//! Words of a technology's lines, and their forms.
ghost use Rattle.std.specs.Prelude.{◌≡◌, ◌++◌, [], ◌∷◌, position, Ok, Err, IfOk, IfErr, OnOk, OnErr};
ghost use Rattle.std.specs.List.{list_any, list_all};
ghost use Rattle.std.specs.Str.{bytes_eq};
ghost use Rattle.tech_model.specs.declared.faults.TechFault.TheVariants.{Memory};
ghost use Rattle.tech_model.specs.Forms.{is_label_byte, ends_in_hash, is_naming_label, is_layer_name, reserved_words};
ghost use Rattle.tech_draft.specs.steps.Parts.{parts_in};
ghost use Rattle.tech_draft.specs.Words.{is_slash, is_operator};
ghost use Rattle.tech_draft.specs.Words.{has_slash, has_operator, name_part, plane_part, has_name_length, is_term_byte, is_term};
ghost use Rattle.tech_draft.specs.Words.{is_entry, is_layer_term_byte, is_layer_term, has_form, is_entry_list, measure_in};

use crate::parts::{Parted, each_part};
use std::alloc::AllocError;
use tech_model::{LARGEST_MEASURE, LONGEST_LABEL, TechFault};
use text_scan::{LONGEST_NAME, is_plain_byte, is_plain_name, number};

/// Puts an item at the end. Where it is refused, the items are as before.
pub(crate) fn push<T: Drop>(items: &mut Vec<T>, item: T) -> Result<(), TechFault>
    ensures ok { OnOk result (items.new.items ≡ items.old.items ++ item ∷ []) }
    ensures err { OnErr result (items.new.items ≡ items.old.items) }
    ensures only_memory { IfErr result (λ fault. fault ≡ Memory) }
{
    match items.push(item) {
        Ok(()) => Ok(()),
        Err(error) => Err(AllocError::from(error).into()),
    }
}

pub(crate) fn has_slash(word: &[u8]) -> bool
    ensures { result ≡ has_slash word.now }
{
    word.iter().any(|&byte| byte == b'/')
}

fn is_operator(byte: u8) -> bool
    ensures { result ≡ is_operator byte }
{
    byte == b'*' || byte == b'~' || byte == b'(' || byte == b')'
}

/// Whether an operator of expressions over types stands in the word.
pub(crate) fn has_operator(word: &[u8]) -> bool
    ensures { result ≡ has_operator word.now }
{
    word.iter().any(|&byte| is_operator(byte))
}

fn has_name_length(word: &[u8]) -> bool
    ensures { result ≡ has_name_length word.now }
{
    let length = word.len();
    1 <= length && length <= LONGEST_NAME
}

fn is_term_byte(byte: u8) -> bool
    ensures { result ≡ is_term_byte byte }
{
    is_plain_byte(byte) || is_operator(byte)
}

fn has_term_bytes(word: &[u8]) -> bool
    ensures { result ≡ list_all is_term_byte word.now }
{
    word.iter().all(|&byte| is_term_byte(byte))
}

// Whether a word may stand in the place of a name: it is one, or an expression as long as one.
fn is_term(word: &[u8]) -> bool
    ensures { result ≡ is_term word.now }
{
    has_name_length(word) && has_term_bytes(word)
}

fn slash_at(entry: &[u8]) -> Option<usize>
    ensures { result ≡ position is_slash entry.now }
{
    entry.iter().position(|&byte| byte == b'/')
}

/// The parts of an entry: its name, and its plane where it has one.
pub(crate) fn parts_of_entry(entry: &[u8]) -> (&[u8], &[u8])
    ensures name { result.0.now ≡ name_part entry.now }
    ensures plane { result.1.now ≡ plane_part entry.now }
{
    match slash_at(entry) {
        Some(end) => (&entry[..end], &entry[end + 1..]),
        None => (entry, &[]),
    }
}

pub(crate) fn is_entry(entry: &[u8]) -> bool
    ensures { result ≡ is_entry entry.now }
{
    let (name, plane) = parts_of_entry(entry);
    is_term(name) && (!has_slash(entry) || is_term(plane))
}

fn is_layer_term_byte(byte: u8) -> bool
    ensures { result ≡ is_layer_term_byte byte }
{
    is_term_byte(byte) || byte == b'/'
}

fn has_layer_term_bytes(word: &[u8]) -> bool
    ensures { result ≡ list_all is_layer_term_byte word.now }
{
    word.iter().all(|&byte| is_layer_term_byte(byte))
}

// Whether a word may stand in the place of a layer's name: it is one, or an expression as long as one.
fn is_layer_term(word: &[u8]) -> bool
    ensures { result ≡ is_layer_term word.now }
{
    has_name_length(word) && has_layer_term_bytes(word)
}

fn is_reserved(word: &[u8]) -> bool
    ensures { result ≡ list_any (bytes_eq word.now) reserved_words }
{
    word == b"space".as_slice()
        || word == b"end".as_slice()
        || word == b"labels".as_slice()
        || word == b"checkpaint".as_slice()
        || word == b"error_p".as_slice()
        || word == b"error_s".as_slice()
        || word == b"error_ps".as_slice()
        || word == b"properties".as_slice()
}

fn is_layer_name(word: &[u8]) -> bool
    ensures { result ≡ is_layer_name word.now }
{
    is_plain_name(word) && !is_reserved(word)
}

/// A form that each of several words may be asked to have.
#[derive(Clone, Copy)]
pub(crate) enum WordForm {
    /// The name or alias of a new layer.
    LayerName,
    /// What may stand in the place of a layer's name.
    LayerTerm,
    /// What may stand for types, on a plane or on all.
    Entry,
}

fn has_form(form: WordForm, word: &[u8]) -> bool
    ensures { result ≡ has_form form word.now }
{
    match form {
        WordForm::LayerName => is_layer_name(word),
        WordForm::LayerTerm => is_layer_term(word),
        WordForm::Entry => is_entry(word),
    }
}

/// Whether each part of the text has the form.
pub(crate) fn all_have(form: WordForm, text: Parted<'_>) -> bool
    ensures { result ≡ list_all (has_form form) (parts_in text.entry) }
{
    each_part(text).all(|part| has_form(form, part))
}

/// Whether each piece of the list is an entry.
pub(crate) fn is_entry_list(list: &[u8]) -> bool
    ensures { result ≡ is_entry_list list.now }
{
    all_have(WordForm::Entry, Parted::Listed(list))
}

/// The number from 0 to `LARGEST_MEASURE` that the word writes.
pub(crate) fn measure_in(word: &[u8]) -> Result<u64, TechFault>
    ensures ok { IfOk result (λ value. measure_in word.now ≡ Ok value) }
    ensures err { IfErr result (λ fault. measure_in word.now ≡ Err fault) }
{
    match number(word) {
        Ok(value) if 0 <= value && value as u64 <= LARGEST_MEASURE => Ok(value as u64),
        _ => Err(TechFault::BadForm),
    }
}

fn is_label_byte(byte: u8) -> bool
    ensures { result ≡ is_label_byte byte }
{
    33 <= byte && byte <= 126 && byte != b'/' && byte != b'"'
}

fn ends_in_hash(text: &[u8]) -> bool
    ensures { result ≡ ends_in_hash text.now }
{
    match text.last() {
        Some(&byte) => byte == b'#',
        None => false,
    }
}

fn has_label_bytes(text: &[u8]) -> bool
    ensures { result ≡ list_all is_label_byte text.now }
{
    text.iter().all(|&byte| is_label_byte(byte))
}

pub(crate) fn is_naming_label(text: &[u8]) -> bool
    ensures { result ≡ is_naming_label text.now }
{
    let length = text.len();
    1 <= length && length <= LONGEST_LABEL && has_label_bytes(text) && !ends_in_hash(text)
}
