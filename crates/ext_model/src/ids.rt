//! The ids of uses.
ghost use Rattle.std.specs.Prelude.{◌≡◌};
ghost use Rattle.std.specs.List.{list_all};
ghost use Rattle.ext_model.specs.ElementNames.{is_use_id, is_use_id_byte};

use crate::limits::LONGEST_USE_ID;

fn is_use_id_byte(byte: u8) -> bool
    ensures { result ≡ is_use_id_byte byte }
{
    byte.is_ascii_graphic() && !matches!(byte, b'/' | b'[' | b']' | b',' | b'"')
}

fn has_use_id_bytes(word: &[u8]) -> bool
    ensures { result ≡ list_all is_use_id_byte word.now }
{
    word.iter().all(|&byte| is_use_id_byte(byte))
}

/// Whether a word is an id of a use: 1 to [`LONGEST_USE_ID`] printing bytes without blanks, `/`, `[`, `]`, `,` and `"`.
pub fn is_use_id(word: &[u8]) -> bool
    ensures { result ≡ is_use_id word.now }
{
    let length = word.len();
    1 <= length && length <= LONGEST_USE_ID && has_use_id_bytes(word)
}
