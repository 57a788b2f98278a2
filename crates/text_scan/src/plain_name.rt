// Plain names.
ghost use Rattle.std.specs.Prelude.{◌≡◌};
ghost use Rattle.std.specs.List.{list_all};
ghost use Rattle.text_scan.specs.PlainNames.{is_plain_byte, is_plain_name};

/// The greatest number of bytes of a plain name.
pub const LONGEST_NAME: usize = 64;

/// Whether a byte is a letter, a digit, `_` or `-`.
pub fn is_plain_byte(byte: u8) -> bool
    ensures { result ≡ is_plain_byte byte }
{
    byte.is_ascii_alphanumeric() || byte == b'_' || byte == b'-'
}

fn has_plain_bytes(word: &[u8]) -> bool
    ensures { result ≡ list_all is_plain_byte word.now }
{
    word.iter().all(|&byte| is_plain_byte(byte))
}

/// Whether a word is a plain name: 1 to [`LONGEST_NAME`] letters, digits, `_` or `-`.
pub fn is_plain_name(word: &[u8]) -> bool
    ensures { result ≡ is_plain_name word.now }
{
    let length = word.len();
    1 <= length && length <= LONGEST_NAME && has_plain_bytes(word)
}
