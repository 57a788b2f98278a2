//! The names of uses and the ranges of elements.
ghost use Rattle.std.specs.Prelude.{◌≡◌, ◌≢◌, ◌==◌, ◌∷◌, ◌++◌, [], position, Some, Ok, Err, IfOk, IfErr, OnOk};
ghost use Rattle.text_scan.specs.Decimal.{decimal};
ghost use Rattle.ext_model.specs.ElementNames.{indexed_name};
ghost use Rattle.ext_model.specs.Plain.{before, behind, index_of};
ghost use Rattle.ext_reading.specs.declared.faults.ExtReadFault.TheVariants.{Memory as OutOfMemory};
ghost use Rattle.ext_reading.specs.Parts.{is_short, is_indexed};
ghost use Rattle.ext_reading.specs.LineForms.{span_in, array_in, use_name_in};
ghost use Rattle.ext_reading.specs.declared.lines.ElementRange.{ElementRange as IsRange};
ghost use Rattle.ext_reading.specs.Drafts.{IsElementRange, range_path, is_range, range_parts, range_of, range_in, second_of};

use crate::faults::ExtReadFault;
use crate::lines::{ElementRange, Numeral, UseName, Version};
use crate::parts::numeral_in;
use crate::ranges::is_short;
use ext_model::is_use_id;
use names_lists::Name;
use std::alloc::{AllocError, Global};
use text_scan::{append_decimal, number};

// Where the first such byte stands.
fn mark_at(text: &[u8], mark: u8) -> Option<usize>
    ensures { result ≡ position (λ byte. byte == mark) text.now }
{
    text.iter().position(|&byte| byte == mark)
}

// What stands before the first such byte and what stands behind it, or all and none where there is none.
fn cut_at(text: &[u8], mark: u8) -> (&[u8], &[u8])
    ensures front { result.0.now ≡ before mark text.now }
    ensures back { result.1.now ≡ behind mark text.now }
{
    match mark_at(text, mark) {
        Some(at) => (&text[..at], &text[at + 1..]),
        None => (text, &[]),
    }
}

// The number that a word writes, or 0 where it writes none.
fn index_of(word: &[u8]) -> i64
    ensures { result ≡ index_of word.now }
{
    match number(word) {
        Ok(index) => index,
        Err(_) => 0,
    }
}

fn is_short_index(index: i64) -> bool
    ensures { result ≡ is_short index }
{
    is_short(i128::from(index))
}

// Puts the decimal text of an index at the end of a text.
fn append_index(text: &mut Vec<u8>, index: &i64) -> Result<(), AllocError>
    ensures { OnOk result (text.new.items ≡ text.old.items ++ decimal index.now) }
{
    append_decimal(text, i128::from(*index))
}

// The text of the id with two indices.
fn indexed_text(alloc: Global, id: &[u8], i: &i64, j: &i64) -> Result<Vec<u8>, AllocError>
    ensures { IfOk result (λ text. text.items ≡ indexed_name id.now i.now j.now) }
{
    let mut text = Vec::from_slice(alloc, id)?;
    text.push(b'[')?;
    append_index(&mut text, i)?;
    text.push(b',')?;
    append_index(&mut text, j)?;
    text.push(b']')?;
    Ok(text)
}

fn is_indexed(alloc: Global, word: &[u8]) -> Result<bool, AllocError>
    ensures { IfOk result (λ is. is ≡ is_indexed word.now) }
{
    let (id, indices) = cut_at(word, b'[');
    let (first, others) = cut_at(indices, b',');
    let (second, _) = cut_at(others, b']');
    let i = index_of(first);
    let j = index_of(second);
    if !(is_use_id(id) && is_short_index(i) && is_short_index(j)) {
        return Ok(false);
    }
    let text = indexed_text(alloc, id, &i, &j)?;
    Ok(word == text.as_slice())
}

// The indices of a grid's columns or rows and their distance.
fn span_in(text: &[u8]) -> Result<(Numeral, Numeral, Numeral), ExtReadFault>
    ensures { result ≡ span_in text.now }
{
    let (lo, others) = cut_at(text, b':');
    let (hi, sep) = cut_at(others, b':');
    let lo = numeral_in(lo)?;
    let hi = numeral_in(hi)?;
    let sep = numeral_in(sep)?;
    Ok((lo, hi, sep))
}

// An id with two texts in brackets behind it.
fn array_text(alloc: Global, id: &[u8], x: &[u8], y: &[u8]) -> Result<Vec<u8>, AllocError>
    ensures { IfOk result (λ text. text.items ≡ id.now ++ 91 ∷ (x.now ++ 93 ∷ 91 ∷ (y.now ++ 93 ∷ []))) }
{
    let mut text = Vec::from_slice(alloc, id)?;
    text.push(b'[')?;
    text.extend_from_slice(x)?;
    text.extend_from_slice(b"][")?;
    text.extend_from_slice(y)?;
    text.push(b']')?;
    Ok(text)
}

// The name of an array, where the word is this id with these two texts in brackets behind it.
fn array_in(
    alloc: Global,
    word: &[u8],
    id: &[u8],
    x: &[u8],
    y: &[u8],
) -> Result<UseName, ExtReadFault>
    ensures read { IfOk result (λ name. array_in word.now id.now x.now y.now ≡ Ok name) }
    ensures refused { IfErr result (λ fault. fault ≢ OutOfMemory → array_in word.now id.now x.now y.now ≡ Err fault) }
{
    let text = array_text(alloc, id, x, y)?;
    if !(is_use_id(id) && word == text.as_slice()) {
        return Err(ExtReadFault::BadLine);
    }
    let (xlo, xhi, xsep) = span_in(x)?;
    let (ylo, yhi, ysep) = span_in(y)?;
    Ok(UseName {
        id: Name::of(alloc, id)?,
        grid: Some((xlo, xhi, xsep, ylo, yhi, ysep)),
    })
}

/// The name of a use: an id, one with two indices, or that of an array.
pub fn use_name_in(alloc: Global, word: &[u8]) -> Result<UseName, ExtReadFault>
    ensures read { IfOk result (λ name. use_name_in word.now ≡ Ok name) }
    ensures refused { IfErr result (λ fault. fault ≢ OutOfMemory → use_name_in word.now ≡ Err fault) }
{
    if is_use_id(word) || is_indexed(alloc, word)? {
        return Ok(UseName {
            id: Name::of(alloc, word)?,
            grid: None,
        });
    }
    let (id, spans) = cut_at(word, b'[');
    let (x, _) = cut_at(spans, b']');
    let (_, last) = cut_at(spans, b'[');
    let (y, _) = cut_at(last, b']');
    array_in(alloc, word, id, x, y)
}

// What stands between the marks of a range.
fn range_parts(alloc: Global, path: &[u8]) -> Result<ElementRange, AllocError>
    ensures { IfOk result (λ range. range ≡ range_parts path.now) }
{
    let (name, rest) = cut_at(path, b'/');
    let (id, inner) = cut_at(name, b'[');
    let (lo, others) = cut_at(inner, b':');
    let (hi, behind) = cut_at(others, b',');
    let (j, _) = cut_at(behind, b']');
    Ok(ElementRange {
        id: Name::of(alloc, id)?,
        lo: index_of(lo),
        hi: index_of(hi),
        j: index_of(j),
        rest: Name::of(alloc, rest)?,
    })
}

fn range_path(alloc: Global, range: &ElementRange) -> Result<Vec<u8>, AllocError>
    ensures { IfOk result (λ text. text.items ≡ range_path range.now) }
{
    let mut text = Vec::from_slice(alloc, range.id.bytes())?;
    text.push(b'[')?;
    append_index(&mut text, &range.lo)?;
    text.push(b':')?;
    append_index(&mut text, &range.hi)?;
    text.push(b',')?;
    append_index(&mut text, &range.j)?;
    text.extend_from_slice(b"]/")?;
    text.extend_from_slice(range.rest.bytes())?;
    Ok(text)
}

fn is_range(alloc: Global, path: &[u8], range: &ElementRange) -> Result<bool, AllocError>
    ensures { IfOk result (λ is. is ≡ is_range path.now range.now) }
{
    if !(is_use_id(range.id.bytes())
        && is_short_index(range.lo)
        && is_short_index(range.hi)
        && is_short_index(range.j)
        && range.lo < range.hi)
    {
        return Ok(false);
    }
    let text = range_path(alloc, range)?;
    Ok(path == text.as_slice())
}

fn range_of(alloc: Global, path: &[u8]) -> Result<Option<ElementRange>, AllocError>
    ensures { IfOk result (λ range. range ≡ range_of path.now) }
{
    let range = range_parts(alloc, path)?;
    let is = is_range(alloc, path, &range)?;
    Ok(if is { Some(range) } else { None })
}

// The text of the path of the first element of a range.
fn first_text(alloc: Global, range: &ElementRange) -> Result<Vec<u8>, AllocError>
    ensures { IfOk result (λ text. text.items ≡ second_of [] (Some range.now)) }
{
    let mut text = indexed_text(alloc, range.id.bytes(), &range.lo, &range.j)?;
    text.push(b'/')?;
    text.extend_from_slice(range.rest.bytes())?;
    Ok(text)
}

/// The path of the first element of a range.
pub fn first_path(alloc: Global, range: &ElementRange) -> Result<Name, AllocError>
    ensures { IfOk result (λ path. path ≡ second_of [] (Some range.now)) }
{
    let text = first_text(alloc, range)?;
    Name::of(alloc, text.as_slice())
}

/// The range that the second path of a merge is, in a file of the version.
pub fn range_in(
    alloc: Global,
    version: Option<Version>,
    path: &[u8],
) -> Result<Option<ElementRange>, AllocError>
    ensures value { IfOk result (λ range. range ≡ range_in version path.now) }
    ensures formed { IfOk result (λ range. (one : IsRange) → range ≡ Some one → IsElementRange one) }
{
    match version {
        Some(Version::Two) => range_of(alloc, path),
        _ => Ok(None),
    }
}
