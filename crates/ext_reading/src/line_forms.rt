//! What a line says by itself.
ghost use Rattle.std.specs.Prelude.{◌≡◌, ◌≢◌, [], ◌∷◌, Ok, Err, IfOk, IfErr};
ghost use Rattle.text_scan.specs.Words.{words_of};
ghost use Rattle.ext_reading.specs.declared.faults.ExtReadFault.TheVariants.{Memory as OutOfMemory};
ghost use Rattle.ext_reading.specs.LineForms.{tech_line, version_line, classes_line, six_numerals, use_line, node_of, node_line, equiv_line};
ghost use Rattle.ext_reading.specs.LineForms.{side_in, sides_from, are_corners, if_corners, corners_in, fet_at, fet_line, merge_line, header_line};
ghost use Rattle.ext_reading.specs.LineForms.{body_line, line_by_key, words_say, says};

use crate::faults::ExtReadFault;
use crate::fet_forms::fet_line;
use crate::header_forms::{classes_line, tech_line, version_line};
use crate::lines::{ExtLine, HeaderLine, MergeLine, NodeLine, Numeral, Six, UseLine};
use crate::parts::{cell_in, node_name_in, numeral_in, numerals_in, path_in, word_in};
use crate::use_names::use_name_in;
use names_lists::List;
use std::alloc::Global;
use text_form::next_three;
use text_scan::{Words, words};

fn six_numerals(words: Words<'_>) -> Result<Six, ExtReadFault>
    ensures { result ≡ six_numerals words.entry }
{
    let mut rest = words;
    let (Some((a, b, c)), Some((d, e, f)), None) = (
        next_three(&mut rest),
        next_three(&mut rest),
        rest.next(),
    ) else {
        return Err(ExtReadFault::BadLine);
    };
    let a = numeral_in(a)?;
    let b = numeral_in(b)?;
    let c = numeral_in(c)?;
    let d = numeral_in(d)?;
    let e = numeral_in(e)?;
    let f = numeral_in(f)?;
    Ok((a, b, c, d, e, f))
}

/// What a line says by itself whose first word is that of a use.
pub fn use_line(alloc: Global, words: Words<'_>) -> Result<ExtLine, ExtReadFault>
    ensures read { IfOk result (λ said. use_line words.entry ≡ Ok said) }
    ensures refused { IfErr result (λ fault. fault ≢ OutOfMemory → use_line words.entry ≡ Err fault) }
{
    let mut rest = words;
    let (Some(cell), Some(name)) = (rest.next(), rest.next()) else {
        return Err(ExtReadFault::BadLine);
    };
    let cell = cell_in(alloc, cell)?;
    let name = use_name_in(alloc, name)?;
    let six = six_numerals(rest)?;
    Ok(ExtLine::Use(UseLine { cell, name, six }))
}

fn node_line(alloc: Global, words: Words<'_>) -> Result<ExtLine, ExtReadFault>
    ensures read { IfOk result (λ said. node_line words.entry ≡ Ok said) }
    ensures refused { IfErr result (λ fault. fault ≢ OutOfMemory → node_line words.entry ≡ Err fault) }
{
    let mut rest = words;
    let (Some((name, _, cap)), Some((x, y, kind))) = (next_three(&mut rest), next_three(&mut rest))
    else {
        return Err(ExtReadFault::BadLine);
    };
    let measures = numerals_in(alloc, rest)?;
    node_of(alloc, name, cap, x, y, kind, measures)
}

// A node with these measures.
fn node_of(
    alloc: Global,
    name: &[u8],
    cap: &[u8],
    x: &[u8],
    y: &[u8],
    kind: &[u8],
    measures: List<Numeral>,
) -> Result<ExtLine, ExtReadFault>
    ensures read { IfOk result (λ said.
        node_of name.now cap.now x.now y.now kind.now measures ≡ Ok said) }
    ensures refused { IfErr result (λ fault. fault ≢ OutOfMemory →
        node_of name.now cap.now x.now y.now kind.now measures ≡ Err fault) }
{
    let name = node_name_in(alloc, name)?;
    let cap = numeral_in(cap)?;
    let x = numeral_in(x)?;
    let y = numeral_in(y)?;
    let kind = word_in(alloc, kind)?;
    Ok(ExtLine::Node(NodeLine {
        name,
        cap,
        x,
        y,
        kind,
        measures,
    }))
}

fn equiv_line(alloc: Global, words: Words<'_>) -> Result<ExtLine, ExtReadFault>
    ensures read { IfOk result (λ said. equiv_line words.entry ≡ Ok said) }
    ensures refused { IfErr result (λ fault. fault ≢ OutOfMemory → equiv_line words.entry ≡ Err fault) }
{
    let mut rest = words;
    let (Some(name), Some(alias), None) = (rest.next(), rest.next(), rest.next()) else {
        return Err(ExtReadFault::BadLine);
    };
    let name = node_name_in(alloc, name)?;
    let alias = node_name_in(alloc, alias)?;
    Ok(ExtLine::Equiv(name, alias))
}

fn merge_line(alloc: Global, words: Words<'_>) -> Result<ExtLine, ExtReadFault>
    ensures read { IfOk result (λ said. merge_line words.entry ≡ Ok said) }
    ensures refused { IfErr result (λ fault. fault ≢ OutOfMemory → merge_line words.entry ≡ Err fault) }
{
    let mut rest = words;
    let Some((first, second, cap)) = next_three(&mut rest) else {
        return Err(ExtReadFault::BadLine);
    };
    let first = path_in(alloc, first)?;
    let second = path_in(alloc, second)?;
    let cap = numeral_in(cap)?;
    let measures = numerals_in(alloc, rest)?;
    Ok(ExtLine::Merge(MergeLine {
        first,
        second,
        cap,
        measures,
    }))
}

fn header_line(header: Result<HeaderLine, ExtReadFault>) -> Result<ExtLine, ExtReadFault>
    ensures { result ≡ header_line header }
{
    let header = header?;
    Ok(ExtLine::Header(header))
}

fn body_line(alloc: Global, key: &[u8], words: Words<'_>) -> Result<ExtLine, ExtReadFault>
    ensures read { IfOk result (λ said. body_line key.now words.entry ≡ Ok said) }
    ensures refused { IfErr result (λ fault. fault ≢ OutOfMemory → body_line key.now words.entry ≡ Err fault) }
{
    if key == b"use".as_slice() {
        use_line(alloc, words)
    } else if key == b"node".as_slice() {
        node_line(alloc, words)
    } else if key == b"equiv".as_slice() {
        equiv_line(alloc, words)
    } else if key == b"fet".as_slice() {
        fet_line(alloc, words)
    } else if key == b"merge".as_slice() {
        merge_line(alloc, words)
    } else {
        Err(ExtReadFault::BadLine)
    }
}

fn line_by_key(alloc: Global, key: &[u8], words: Words<'_>) -> Result<ExtLine, ExtReadFault>
    ensures read { IfOk result (λ said. line_by_key key.now words.entry ≡ Ok said) }
    ensures refused { IfErr result (λ fault. fault ≢ OutOfMemory → line_by_key key.now words.entry ≡ Err fault) }
{
    if key == b"tech".as_slice() {
        header_line(tech_line(alloc, words))
    } else if key == b"timestamp".as_slice() {
        Ok(ExtLine::Header(HeaderLine::Timestamp))
    } else if key == b"version".as_slice() {
        header_line(version_line(words))
    } else if key == b"style".as_slice() {
        Ok(ExtLine::Header(HeaderLine::Style))
    } else if key == b"scale".as_slice() {
        Ok(ExtLine::Header(HeaderLine::Scale))
    } else if key == b"resistclasses".as_slice() {
        header_line(classes_line(alloc, words))
    } else {
        body_line(alloc, key, words)
    }
}

fn words_say(alloc: Global, words: Words<'_>) -> Result<ExtLine, ExtReadFault>
    ensures read { IfOk result (λ said. words_say words.entry ≡ Ok said) }
    ensures refused { IfErr result (λ fault. fault ≢ OutOfMemory → words_say words.entry ≡ Err fault) }
{
    let mut rest = words;
    match rest.next() {
        None => Ok(ExtLine::Nothing),
        Some(key) => line_by_key(alloc, key, rest),
    }
}

/// What the line says, or that it has no form.
pub fn says(alloc: Global, line: &[u8]) -> Result<ExtLine, ExtReadFault>
    ensures read { IfOk result (λ said. says line.now ≡ Ok said) }
    ensures refused { IfErr result (λ fault. fault ≢ OutOfMemory → says line.now ≡ Err fault) }
{
    words_say(alloc, words(line))
}
