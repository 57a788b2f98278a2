//! The merges of rows as records of their own.
ghost use Rattle.std.specs.Prelude.{◌≡◌, ◌==◌, ◌∷◌, ◌++◌, position, IfOk, OnOk};
ghost use Rattle.ext_model.specs.Plain.{before, behind, index_of, first_index, raised, plain_merge, plain_merges};
ghost use Rattle.text_scan.specs.Decimal.{decimal};

use ext_model::{MergeRec, MergeRow, copy_numbers};
use names_lists::Name;
use std::alloc::{AllocError, Global};
use text_scan::{append_decimal, number};

// A path by its index: what stands before the index, its number, and what stands behind it.
#[derive(Clone, Copy)]
struct IndexedPath<'a> {
    front: &'a [u8],
    index: i64,
    back: &'a [u8],
}

// The place of the first such byte.
fn place_of(text: &[u8], mark: u8) -> Option<usize>
    ensures { result ≡ position (λ byte. byte == mark) text.now }
{
    text.iter().position(|&byte| byte == mark)
}

// The bytes before the first such byte and those behind it, or all and none where there is none.
fn cut_at(text: &[u8], mark: u8) -> (&[u8], &[u8])
    ensures front { result.0.now ≡ before mark text.now }
    ensures back { result.1.now ≡ behind mark text.now }
{
    match place_of(text, mark) {
        Some(end) => (&text[..end], &text[end + 1..]),
        None => (text, &[]),
    }
}

// The number that a word writes, or 0.
fn index_of(word: &[u8]) -> i64
    ensures { result ≡ index_of word.now }
{
    match number(word) {
        Ok(index) => index,
        Err(_) => 0,
    }
}

// The parts of a path.
fn indexed_path(path: &[u8]) -> IndexedPath<'_>
    ensures front { result.front.now ≡ before 91 path.now }
    ensures index { result.index ≡ first_index path.now }
    ensures back { result.back.now ≡ behind 44 (behind 91 path.now) }
{
    let (front, rest) = cut_at(path, b'[');
    let (word, back) = cut_at(rest, b',');
    IndexedPath {
        front,
        index: index_of(word),
        back,
    }
}

// The path with this index.
fn with_index(alloc: Global, path: &IndexedPath<'_>, index: i128) -> Result<Name, AllocError>
    ensures { IfOk result (λ name. name ≡ path.now.front.now ++ 91 ∷ (decimal index ++ 44 ∷ path.now.back.now)) }
{
    let mut text = Vec::from_slice(alloc, path.front)?;
    text.push(b'[')?;
    append_decimal(&mut text, index)?;
    text.push(b',')?;
    text.extend_from_slice(path.back)?;
    Name::of(alloc, text.as_slice())
}

// The second path of the merge of this number of a row, whose first second path has these parts.
fn raised(
    alloc: Global,
    row: &MergeRow,
    parts: &IndexedPath<'_>,
    n: u64,
) -> Result<Name, AllocError>
    requires front { parts.now.front.now ≡ before 91 row.now.second }
    requires index { parts.now.index ≡ first_index row.now.second }
    requires back { parts.now.back.now ≡ behind 44 (behind 91 row.now.second) }
    ensures { IfOk result (λ name. name ≡ raised row.now.second n) }
{
    if n == 0 {
        return row.second.copy(alloc);
    }
    with_index(alloc, parts, i128::from(parts.index) + i128::from(n))
}

// The merge of this number of a row, whose first second path has these parts.
fn plain_merge(
    alloc: Global,
    row: &MergeRow,
    parts: &IndexedPath<'_>,
    n: u64,
) -> Result<MergeRec, AllocError>
    requires front { parts.now.front.now ≡ before 91 row.now.second }
    requires index { parts.now.index ≡ first_index row.now.second }
    requires back { parts.now.back.now ≡ behind 44 (behind 91 row.now.second) }
    ensures { IfOk result (λ merge. merge ≡ plain_merge row.now n) }
{
    Ok(MergeRec {
        first: row.first.copy(alloc)?,
        second: raised(alloc, row, parts, n)?,
        cap: row.cap,
        measures: copy_numbers(alloc, &row.measures)?,
    })
}

/// Appends the merges of a row. Want of memory alone refuses.
pub fn add_merges(
    alloc: Global,
    merges: &mut Vec<MergeRec>,
    row: &MergeRow,
) -> Result<(), AllocError>
    ensures { OnOk result (merges.new.items ≡ merges.old.items ++ plain_merges row.now) }
{
    let parts = indexed_path(row.second.bytes());
    for n in 0..row.count {
        merges.push(plain_merge(alloc, row, &parts, n)?)?;
    }
    Ok(())
}
