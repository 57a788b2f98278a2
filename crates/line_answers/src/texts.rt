//! Texts that are written piece by piece.
ghost use Rattle.std.specs.Prelude.{◌≡◌, ◌++◌, pos, codes, OnOk};
ghost use Rattle.text_scan.specs.Decimal.{decimal};
ghost use Rattle.line_answers.specs.Texts.{bounds_text};

use geo_core::Rect;
use names_lists::Name;
use std::alloc::AllocError;
use text_scan::append_decimal;

/// Writes one text and then another.
pub fn append_two(text: &mut Vec<u8>, first: &[u8], second: &[u8]) -> Result<(), AllocError>
    ensures { OnOk result (text.new.items ≡ text.old.items ++ (first.now ++ second.now)) }
{
    text.extend_from_slice(first)?;
    text.extend_from_slice(second)
}

/// Writes words and then a name.
pub fn append_with_name(text: &mut Vec<u8>, words: &[u8], name: &Name) -> Result<(), AllocError>
    ensures { OnOk result (text.new.items ≡ text.old.items ++ (words.now ++ name.now)) }
{
    append_two(text, words, name.bytes())
}

/// Writes a number between words.
pub fn append_count(
    text: &mut Vec<u8>,
    before: &[u8],
    count: usize,
    after: &[u8],
) -> Result<(), AllocError>
    ensures { OnOk result (text.new.items ≡ text.old.items ++ (before.now ++ decimal (pos count) ++ after.now)) }
{
    text.extend_from_slice(before)?;
    append_decimal(text, count as i128)?;
    text.extend_from_slice(after)
}

/// Writes the four numbers of a rectangle, a blank before each.
pub fn append_bounds(text: &mut Vec<u8>, area: &Rect) -> Result<(), AllocError>
    ensures { OnOk result (text.new.items ≡ text.old.items ++ bounds_text area.now) }
{
    append_number(text, area.xlo)?;
    append_number(text, area.ylo)?;
    append_number(text, area.xhi)?;
    append_number(text, area.yhi)
}

// Writes a blank and a number.
fn append_number(text: &mut Vec<u8>, number: i64) -> Result<(), AllocError>
    ensures { OnOk result (text.new.items ≡ text.old.items ++ (codes " " ++ decimal number)) }
{
    text.push(b' ')?;
    append_decimal(text, i128::from(number))
}
