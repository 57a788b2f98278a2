//! The parts of names of elements.
ghost use Rattle.std.specs.Prelude.{◌≡◌, ◌↔◌, ℤ, ◌∷◌, ◌++◌, position, IfNone, IfSome, IsTrue};
ghost use Rattle.std.specs.Int.{w32};
ghost use Rattle.std.specs.Int.RustNames.{FitsSigned};
ghost use Rattle.finite_sets.specs.Lists.{In};
ghost use Rattle.text_scan.specs.Decimal.{decimal};
ghost use Rattle.ext_model.specs.ElementNames.{IsIndexed};
ghost use Rattle.element_index.specs.NameParts.{is_byte, ArePartsOf, IsIndexText};

use ext_model::is_use_id;
use itoa::Buffer;
use text_scan::number;

/// The place of the first such byte.
fn first_place(text: &[u8], mark: u8) -> Option<usize>
    ensures { result ≡ position (is_byte mark) text.now }
{
    text.iter().position(|&byte| byte == mark)
}

/// What stands before the first such byte, and what behind it.
fn cut(text: &[u8], mark: u8) -> Option<(&[u8], &[u8])>
    ensures parts { IfSome result (λ parts. text.now ≡ parts.0.now ++ mark ∷ parts.1.now) }
    ensures first { IfSome result (λ parts. In mark parts.0.now → ⊥) }
    ensures none { IfNone result (In mark text.now → ⊥) }
{
    let at = first_place(text, mark)?;
    Some((&text[..at], &text[at + 1..]))
}

/// Whether the number fits 32 bits with sign.
fn is_short(z: i64) -> bool
    ensures { IsTrue result ↔ FitsSigned w32 z }
{
    i32::try_from(z).is_ok()
}

/// Whether the word is the shortest decimal form of the number.
fn is_text_of(word: &[u8], z: i64) -> bool
    ensures { IsTrue result ↔ (word.now ≡ decimal z) }
{
    let mut buffer = Buffer::new();
    buffer.format(z).as_bytes() == word
}

/// The number of 32 bits that a word writes in its shortest form.
fn index_in(word: &[u8]) -> Option<i64>
    ensures some { IfSome result (IsIndexText word.now) }
    ensures none { IfNone result ((z : ℤ) → IsIndexText word.now z → ⊥) }
{
    let Ok(z) = number(word) else {
        return None;
    };
    if is_short(z) && is_text_of(word, z) {
        Some(z)
    } else {
        None
    }
}

/// The id and the two indices of the name of an element of an array.
pub fn indexed_parts(name: &[u8]) -> Option<(&[u8], i64, i64)>
    ensures some { IfSome result (λ parts. ArePartsOf name.now parts.0.now parts.1 parts.2) }
    ensures none { IfNone result (IsIndexed name.now → ⊥) }
{
    let (id, indices) = cut(name, b'[')?;
    let (first, rest) = cut(indices, b',')?;
    let (second, behind) = cut(rest, b']')?;
    if !behind.is_empty() || !is_use_id(id) {
        return None;
    }
    Some((id, index_in(first)?, index_in(second)?))
}
