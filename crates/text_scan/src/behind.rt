//! Words and numbers that are put behind a text, each behind a blank.
ghost use Rattle.std.specs.Prelude.{◌≡◌, ◌∷◌, ◌++◌, OnOk};
ghost use Rattle.text_scan.specs.Decimal.{decimal};

use crate::decimal_text::append_decimal;
use std::alloc::AllocError;

/// Puts a blank and a word at the end of a text.
pub fn append_word(out: &mut Vec<u8>, word: &[u8]) -> Result<(), AllocError>
    ensures { OnOk result (out.new.items ≡ out.old.items ++ 32 ∷ word.now) }
{
    out.push(b' ')?;
    out.extend_from_slice(word)
}

/// Puts a blank and a number at the end of a text.
pub fn append_number(out: &mut Vec<u8>, value: i128) -> Result<(), AllocError>
    ensures { OnOk result (out.new.items ≡ out.old.items ++ 32 ∷ decimal value) }
{
    out.push(b' ')?;
    append_decimal(out, value)
}
