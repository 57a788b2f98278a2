//! Forms of the texts of labels.
ghost use Rattle.std.specs.Prelude.{◌≡◌};
ghost use Rattle.std.specs.List.{list_all};
ghost use Rattle.ext_model.specs.NodeNames.{is_word_byte, slashes_in, ends_in, is_naming_text, is_global};

use ext_model::{GENERATED_MARK, GLOBAL_MARK, SLASH};

/// Whether a byte may stand in a word: it is printed, and no double quote.
fn is_word_byte(byte: u8) -> bool
    ensures { result ≡ is_word_byte byte }
{
    33 <= byte && byte <= 126 && byte != b'"'
}

/// Whether this is the last byte of a text.
fn ends_in(byte: u8, text: &[u8]) -> bool
    ensures { result ≡ ends_in byte text.now }
{
    match text.last() {
        Some(last) => *last == byte,
        None => false,
    }
}

/// Whether all bytes may stand in a word.
fn has_word_bytes(text: &[u8]) -> bool
    ensures { result ≡ list_all is_word_byte text.now }
{
    text.iter().all(|&byte| is_word_byte(byte))
}

/// How many slashes a text has.
fn slashes_in(text: &[u8]) -> usize
    ensures { result ≡ slashes_in text.now }
{
    text.iter().filter(|byte| **byte == SLASH).count()
}

/// Whether a label with the text names what it attaches to.
pub fn is_naming_text(text: &[u8]) -> bool
    ensures { result ≡ is_naming_text text.now }
{
    1 <= text.len()
        && has_word_bytes(text)
        && slashes_in(text) == 0
        && !ends_in(GENERATED_MARK, text)
}

/// Whether the text names and is one name in all cells.
pub fn is_global(text: &[u8]) -> bool
    ensures { result ≡ is_global text.now }
{
    is_naming_text(text) && ends_in(GLOBAL_MARK, text)
}
