//! Bytes as a line of a case writes them: `\n`, `\r`, `\t`, `\\`, and `\x` with two small hexadecimal digits.

use std::alloc::{AllocError, Global};

/// The value of a small hexadecimal digit.
fn digit(byte: u8) -> Option<u8> {
    match byte {
        b'0'..=b'9' => Some(byte - b'0'),
        b'a'..=b'f' => Some(byte - b'a' + 10),
        _ => None,
    }
}

/// The byte that the beginning of a text stands for, and what follows it. The text begins behind a backslash.
fn escaped(text: &[u8]) -> Option<(u8, &[u8])> {
    match text {
        [b'n', rest @ ..] => Some((b'\n', rest)),
        [b'r', rest @ ..] => Some((b'\r', rest)),
        [b't', rest @ ..] => Some((b'\t', rest)),
        [b'\\', rest @ ..] => Some((b'\\', rest)),
        [b'x', high, low, rest @ ..] => {
            let (high, low) = (digit(*high)?, digit(*low)?);
            Some((high.wrapping_mul(16) | low, rest))
        }
        _ => None,
    }
}

/// The byte that the beginning of a text stands for, and what follows it.
fn first_byte(text: &[u8]) -> Option<(u8, &[u8])> {
    match text {
        [b'\\', rest @ ..] => escaped(rest),
        [byte, rest @ ..] => Some((*byte, rest)),
        [] => None,
    }
}

/// The bytes that a text stands for; `None` where a backslash begins nothing that stands for a byte.
pub fn unescaped(alloc: Global, text: &[u8]) -> Result<Option<Vec<u8>>, AllocError> {
    let mut bytes = Vec::new(alloc);
    let mut rest = text;
    for _ in 0..text.len() {
        if rest.is_empty() {
            break;
        }
        let Some((byte, after)) = first_byte(rest) else {
            return Ok(None);
        };
        bytes.push(byte)?;
        rest = after;
    }
    Ok(Some(bytes))
}
