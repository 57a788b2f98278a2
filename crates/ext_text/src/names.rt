//! The names of uses with their grids, and the paths of rows of merges.
ghost use Rattle.std.specs.Prelude.{◌≡◌, ◌==◌, ◌∷◌, ◌++◌, ◌<◌, pos, ◌+ℤ◌, ◌-ℤ◌, position, OnOk};
ghost use Rattle.std.specs.List.{before_first, after_first};
ghost use Rattle.text_scan.specs.Decimal.{decimal};
ghost use Rattle.ext_model.specs.LawfulArrays.{BeginsIndexed};
ghost use Rattle.ext_model.specs.Plain.{before, behind, first_index};
ghost use Rattle.ext_text.specs.NodeLines.{quoted};
ghost use Rattle.ext_text.specs.WrittenTexts.{span_text, use_name, ranged, row_path};

use crate::words::{append_quoted, append_word};
use geo_core::Grid;
use std::alloc::AllocError;
use text_scan::{append_decimal, number};

// Puts the decimal text of a coordinate at the end of a text.
fn append_index(out: &mut Vec<u8>, value: &i64) -> Result<(), AllocError>
    ensures { OnOk result (out.new.items ≡ out.old.items ++ decimal value.now) }
{
    append_decimal(out, i128::from(*value))
}

// Puts the indices of columns or of rows and their distance at the end of a text.
fn append_span(out: &mut Vec<u8>, lo: &i64, hi: &i64, sep: &i64) -> Result<(), AllocError>
    ensures { OnOk result (out.new.items ≡ out.old.items ++ span_text lo.now hi.now sep.now) }
{
    out.push(b'[')?;
    append_index(out, lo)?;
    out.push(b':')?;
    append_index(out, hi)?;
    out.push(b':')?;
    append_index(out, sep)?;
    out.push(b']')?;
    Ok(())
}

/// Puts a blank, the id of a use and its grid at the end of a text.
pub fn append_use_name(out: &mut Vec<u8>, id: &[u8], grid: &Option<Grid>) -> Result<(), AllocError>
    ensures { OnOk result (out.new.items ≡ out.old.items ++ 32 ∷ use_name id.now grid.now) }
{
    append_word(out, id)?;
    if let Some(grid) = grid {
        append_span(out, &grid.xlo, &grid.xhi, &grid.xsep)?;
        append_span(out, &grid.ylo, &grid.yhi, &grid.ysep)?;
    }
    Ok(())
}

// Where the first such byte stands.
fn mark_at(text: &[u8], mark: u8) -> Option<usize>
    ensures { result ≡ position (λ byte. byte == mark) text.now }
{
    text.iter().position(|&byte| byte == mark)
}

// What stands before the first such byte and what stands behind it, or all and none where there is none.
fn cut_at(text: &[u8], mark: u8) -> (&[u8], &[u8])
    ensures front { result.0.now ≡ before_first (λ byte. byte == mark) text.now }
    ensures back { result.1.now ≡ after_first (λ byte. byte == mark) text.now }
{
    match mark_at(text, mark) {
        Some(at) => (&text[..at], &text[at + 1..]),
        None => (text, &[]),
    }
}

// A path whose first name has indices: what stands before the bracket, the index i, and what stands behind the comma.
#[derive(Drop)]
struct IndexedPath<'a> {
    front: &'a [u8],
    index: i64,
    back: &'a [u8],
}

impl<'a> IndexedPath<'a> {
    // The parts of such a path.
    fn of(path: &'a [u8]) -> IndexedPath<'a>
        requires { BeginsIndexed path.now }
        ensures front { result.front.now ≡ before 91 path.now }
        ensures index { result.index ≡ first_index path.now }
        ensures back { result.back.now ≡ behind 44 (behind 91 path.now) }
    {
        let (front, indices) = cut_at(path, b'[');
        let (index, back) = cut_at(indices, b',');
        match number(index) {
            Ok(index) => IndexedPath { front, index, back },
            Err(_) => unreachable!(),
        }
    }
}

// Puts a path with a range of so many indices at the end of a text.
fn append_ranged(out: &mut Vec<u8>, path: &[u8], count: u64) -> Result<(), AllocError>
    requires { BeginsIndexed path.now }
    ensures { OnOk result (out.new.items ≡ out.old.items ++ ranged path.now (first_index path.now) (first_index path.now +ℤ pos count -ℤ pos 1)) }
{
    let path = IndexedPath::of(path);
    let lo = i128::from(path.index);
    let hi = lo + i128::from(count) - 1;
    out.extend_from_slice(path.front)?;
    out.push(b'[')?;
    append_decimal(out, lo)?;
    out.push(b':')?;
    append_decimal(out, hi)?;
    out.push(b',')?;
    out.extend_from_slice(path.back)?;
    Ok(())
}

/// Puts a blank and the second path of a row of so many merges between quotes at the end of a text.
pub fn append_row_path(out: &mut Vec<u8>, path: &[u8], count: u64) -> Result<(), AllocError>
    requires { 1 < count → BeginsIndexed path.now }
    ensures { OnOk result (out.new.items ≡ out.old.items ++ 32 ∷ quoted (row_path path.now count)) }
{
    if count <= 1 {
        return append_quoted(out, path);
    }
    out.extend_from_slice(b" \"")?;
    append_ranged(out, path, count)?;
    out.push(b'"')?;
    Ok(())
}
