//! What a line says by itself.
ghost use Rattle.std.specs.Prelude.{◌≡◌, ◌≢◌, ◌∷◌, [], Ok, Err, IfOk, IfErr, IfSome, MatchOption};
ghost use Rattle.text_scan.specs.Words.{words_of};
ghost use Rattle.mag_text.specs.declared.faults.MagFault.TheVariants.{Memory as OutOfMemory};
ghost use Rattle.text_form.specs.SaidLines.{and_then};
ghost use Rattle.cell_library.specs.CellBodies.Words.{without_outer_blanks};
ghost use Rattle.mag_text.specs.NumberForms.{rect_in, if_painted};
ghost use Rattle.mag_text.specs.LineForms.{layer_in, label_layer_in, tech_line, timestamp_line, scale_line, is_read_over_name, group_named};
ghost use Rattle.mag_text.specs.LineForms.{if_four, if_six, four_numbers, six_numbers, group_line, area_line, label_place, label_at, label_line_of};
ghost use Rattle.mag_text.specs.LineForms.{label_behind, label_line};
ghost use Rattle.mag_text.specs.LineForms.{label_text, use_line, array_line};
ghost use Rattle.mag_text.specs.LineForms.{transform_line, box_line, is_left_out, other_line, header_line, line_of_use, line_by_key, begins_with_hash, says};
ghost use Rattle.mag_text.specs.WordForms.{after_word, after_words};

use crate::faults::MagFault;
use crate::files::{Group, MagLine};
use crate::numbers::{
    Four, Six, are_four_decimal, are_six_decimal, grid_in, if_painted, if_touched, is_decimal,
    number_in, position_in, rect_in, scale_in, six_in,
};
use cell_library::cell_bodies::{is_label_text, is_use_id, without_outer_blanks};
use geo_core::Rect;
use names_lists::Name;
use std::alloc::Global;
use tech_model::{Label, LayerId, Tech};
use text_form::next_three;
use text_scan::{Words, is_plain_name, number, split_word, words};

/// The first word of a line, and what follows it.
#[tactic(auto, unfolding(crate::specs::WordForms::after_word))]
pub fn next_word(line: &[u8]) -> Option<(&[u8], &[u8])>
    ensures words { MatchOption result (words_of line.now ≡ [])
        (λ split. words_of line.now ≡ split.0.now ∷ words_of split.1.now) }
    ensures rest { IfSome result (λ split. after_word line.now ≡ split.1.now) }
{
    split_word(line)
}

fn layer_in(tech: &Tech, word: &[u8]) -> Result<LayerId, MagFault>
    ensures { result ≡ layer_in tech.now word.now }
{
    tech.layer(word).ok_or(MagFault::NoLayer)
}

fn label_layer_in(tech: &Tech, word: &[u8]) -> Result<Option<LayerId>, MagFault>
    ensures { result ≡ label_layer_in tech.now word.now }
{
    if word == b"space".as_slice() {
        return Ok(None);
    }
    let layer = layer_in(tech, word)?;
    Ok(Some(layer))
}

fn tech_line(words: Words<'_>) -> Result<MagLine, MagFault>
    ensures { result ≡ tech_line words.entry }
{
    let mut rest = words;
    match (rest.next(), rest.next()) {
        (Some(_), None) => Ok(MagLine::Tech),
        _ => Err(MagFault::BadLine),
    }
}

fn timestamp_line(words: Words<'_>) -> Result<MagLine, MagFault>
    ensures { result ≡ timestamp_line words.entry }
{
    let mut rest = words;
    let (Some(time), None) = (rest.next(), rest.next()) else {
        return Err(MagFault::BadLine);
    };
    let time = number(time);
    if is_decimal(time) {
        Ok(MagLine::Timestamp(number_in(time)))
    } else {
        Err(MagFault::BadLine)
    }
}

fn scale_line(words: Words<'_>) -> Result<MagLine, MagFault>
    ensures { result ≡ scale_line words.entry }
{
    let mut rest = words;
    let (Some(n), Some(d), None) = (rest.next(), rest.next(), rest.next()) else {
        return Err(MagFault::BadLine);
    };
    let n = number(n);
    let d = number(d);
    if is_decimal(n) && is_decimal(d) {
        Ok(MagLine::Scale(scale_in(n, d)))
    } else {
        Err(MagFault::BadLine)
    }
}

fn is_read_over_name(name: &[u8]) -> bool
    ensures { result ≡ is_read_over_name name.now }
{
    name == b"checkpaint".as_slice()
        || name == b"error_p".as_slice()
        || name == b"error_s".as_slice()
        || name == b"error_ps".as_slice()
        || name == b"properties".as_slice()
}

fn group_named(tech: &Tech, name: &[u8]) -> Result<Group, MagFault>
    ensures { result ≡ group_named tech.now name.now }
{
    if name == b"labels".as_slice() {
        return Ok(Group::Labels);
    }
    if is_read_over_name(name) {
        return Ok(Group::ReadOver);
    }
    let layer = layer_in(tech, name)?;
    Ok(Group::Paint(layer))
}

fn group_line(tech: &Tech, words: Words<'_>) -> Result<MagLine, MagFault>
    ensures { result ≡ group_line tech.now words.entry }
{
    let mut rest = words;
    let (Some(name), Some(closing), None) = (rest.next(), rest.next(), rest.next()) else {
        return Err(MagFault::BadLine);
    };
    if closing != b">>".as_slice() {
        return Err(MagFault::BadLine);
    }
    if name == b"end".as_slice() {
        Ok(MagLine::End)
    } else {
        Ok(MagLine::Group(group_named(tech, name)))
    }
}

fn four_numbers(words: Words<'_>) -> Result<Four, MagFault>
    ensures { result ≡ four_numbers words.entry }
{
    let mut rest = words;
    let (Some((a, b, c)), Some(d), None) = (next_three(&mut rest), rest.next(), rest.next()) else {
        return Err(MagFault::BadLine);
    };
    if_four((number(a), number(b), number(c), number(d)))
}

#[tactic(auto, unfolding(crate::specs::LineForms::if_four))]
fn if_four(words: Four) -> Result<Four, MagFault>
    ensures { result ≡ if_four words }
{
    if are_four_decimal(words) {
        Ok(words)
    } else {
        Err(MagFault::BadLine)
    }
}

fn six_numbers(words: Words<'_>) -> Result<Six, MagFault>
    ensures { result ≡ six_numbers words.entry }
{
    let mut rest = words;
    let (Some((a, b, c)), Some((d, e, f)), None) = (
        next_three(&mut rest),
        next_three(&mut rest),
        rest.next(),
    ) else {
        return Err(MagFault::BadLine);
    };
    if_six((
        number(a),
        number(b),
        number(c),
        number(d),
        number(e),
        number(f),
    ))
}

#[tactic(auto, unfolding(crate::specs::LineForms::if_six))]
fn if_six(words: Six) -> Result<Six, MagFault>
    ensures { result ≡ if_six words }
{
    if are_six_decimal(words) {
        Ok(words)
    } else {
        Err(MagFault::BadLine)
    }
}

fn painted_area(edges: Four) -> Result<Rect, MagFault>
    ensures { result ≡ and_then (rect_in edges) if_painted }
{
    if_painted(rect_in(edges)?)
}

fn area_line(words: Words<'_>) -> Result<MagLine, MagFault>
    ensures { result ≡ area_line words.entry }
{
    let edges = four_numbers(words)?;
    Ok(MagLine::Area(painted_area(edges)))
}

fn label_place(
    tech: &Tech,
    layer: &[u8],
    area: Result<Rect, MagFault>,
) -> Result<(Option<LayerId>, Rect), MagFault>
    ensures { result ≡ label_place tech.now layer.now area }
{
    let layer = label_layer_in(tech, layer)?;
    let area = if_touched(area?)?;
    Ok((layer, area))
}

#[tactic(auto, unfolding(crate::specs::LineForms::label_line_of))]
fn label_line_of(
    alloc: Global,
    tech: &Tech,
    layer: &[u8],
    edges: Four,
    position: Option<u8>,
    text: &[u8],
) -> Result<MagLine, MagFault>
    ensures read { IfOk result (λ said. label_line_of tech.now layer.now edges position text.now ≡ Ok said) }
    ensures refused { IfErr result (λ fault. fault ≢ OutOfMemory
        → label_line_of tech.now layer.now edges position text.now ≡ Err fault) }
{
    let Some(position) = position else {
        return Err(MagFault::BadLine);
    };
    if !are_four_decimal(edges) || !is_label_text(text) {
        return Err(MagFault::BadLine);
    }
    let text = Name::of(alloc, text)?;
    Ok(MagLine::Label(label_at(label_place(tech, layer, rect_in(edges)), position, text)))
}

fn label_at(
    place: Result<(Option<LayerId>, Rect), MagFault>,
    position: u8,
    text: Name,
) -> Result<Label, MagFault>
    ensures { result ≡ label_at place position text }
{
    let (layer, area) = place?;
    Ok(Label {
        layer,
        area,
        position,
        text,
    })
}

// The line of a label, behind its first word.
fn label_line(alloc: Global, tech: &Tech, rest: &[u8]) -> Result<MagLine, MagFault>
    ensures read { IfOk result (λ said. label_line tech.now (words_of rest.now) (label_text rest.now) ≡ Ok said) }
    ensures refused { IfErr result (λ fault. fault ≢ OutOfMemory
        → label_line tech.now (words_of rest.now) (label_text rest.now) ≡ Err fault) }
{
    let Some((layer, rest)) = next_word(rest) else {
        return Err(MagFault::BadLine);
    };
    let Some((xbot, rest)) = next_word(rest) else {
        return Err(MagFault::BadLine);
    };
    let Some((ybot, rest)) = next_word(rest) else {
        return Err(MagFault::BadLine);
    };
    label_line_behind(alloc, tech, layer, xbot, ybot, rest)
}

// The same, of which three words more are found.
#[tactic(auto, unfolding(crate::specs::LineForms::label_behind))]
fn label_line_behind(
    alloc: Global,
    tech: &Tech,
    layer: &[u8],
    xbot: &[u8],
    ybot: &[u8],
    rest: &[u8],
) -> Result<MagLine, MagFault>
    ensures read { IfOk result (λ said.
        label_behind tech.now layer.now xbot.now ybot.now (words_of rest.now) (without_outer_blanks (after_words 3 rest.now)) ≡ Ok said) }
    ensures refused { IfErr result (λ fault. fault ≢ OutOfMemory
        → label_behind tech.now layer.now xbot.now ybot.now (words_of rest.now) (without_outer_blanks (after_words 3 rest.now)) ≡ Err fault) }
{
    let Some((xtop, rest)) = next_word(rest) else {
        return Err(MagFault::BadLine);
    };
    let Some((ytop, rest)) = next_word(rest) else {
        return Err(MagFault::BadLine);
    };
    let Some((position, rest)) = next_word(rest) else {
        return Err(MagFault::BadLine);
    };
    let edges = (number(xbot), number(ybot), number(xtop), number(ytop));
    label_line_of(
        alloc,
        tech,
        layer,
        edges,
        position_in(number(position)),
        without_outer_blanks(rest),
    )
}

fn use_line(alloc: Global, words: Words<'_>) -> Result<MagLine, MagFault>
    ensures read { IfOk result (λ said. use_line words.entry ≡ Ok said) }
    ensures refused { IfErr result (λ fault. fault ≢ OutOfMemory → use_line words.entry ≡ Err fault) }
{
    let mut rest = words;
    let (Some(cell), Some(id)) = (rest.next(), rest.next()) else {
        return Err(MagFault::BadLine);
    };
    if !is_plain_name(cell) || !is_use_id(id) {
        return Err(MagFault::BadLine);
    }
    let cell = Name::of(alloc, cell)?;
    let id = Name::of(alloc, id)?;
    Ok(MagLine::Use(cell, id))
}

fn array_line(words: Words<'_>) -> Result<MagLine, MagFault>
    ensures { result ≡ array_line words.entry }
{
    let numbers = six_numbers(words)?;
    Ok(MagLine::Array(grid_in(numbers)))
}

fn transform_line(words: Words<'_>) -> Result<MagLine, MagFault>
    ensures { result ≡ transform_line words.entry }
{
    let numbers = six_numbers(words)?;
    Ok(MagLine::Transform(six_in(numbers)))
}

fn box_line(words: Words<'_>) -> Result<MagLine, MagFault>
    ensures { result ≡ box_line words.entry }
{
    let _ = four_numbers(words)?;
    Ok(MagLine::Box)
}

fn is_left_out(key: &[u8]) -> bool
    ensures { result ≡ is_left_out key.now }
{
    key == b"tri".as_slice() || key == b"flabel".as_slice() || key == b"port".as_slice()
}

fn other_line(key: &[u8]) -> Result<MagLine, MagFault>
    ensures { result ≡ other_line key.now }
{
    if is_left_out(key) {
        Err(MagFault::NotHere)
    } else {
        Err(MagFault::BadLine)
    }
}

fn header_line(key: &[u8], rest: &[u8]) -> Result<MagLine, MagFault>
    ensures { result ≡ header_line key.now rest.now }
{
    if key == b"tech".as_slice() {
        return tech_line(words(rest));
    }
    if key == b"timestamp".as_slice() {
        return timestamp_line(words(rest));
    }
    if key == b"magscale".as_slice() {
        return scale_line(words(rest));
    }
    other_line(key)
}

fn line_of_use(alloc: Global, key: &[u8], rest: &[u8]) -> Result<MagLine, MagFault>
    ensures read { IfOk result (λ said. line_of_use key.now rest.now ≡ Ok said) }
    ensures refused { IfErr result (λ fault. fault ≢ OutOfMemory → line_of_use key.now rest.now ≡ Err fault) }
{
    if key == b"use".as_slice() {
        return use_line(alloc, words(rest));
    }
    if key == b"array".as_slice() {
        return array_line(words(rest));
    }
    if key == b"transform".as_slice() {
        return transform_line(words(rest));
    }
    if key == b"box".as_slice() {
        return box_line(words(rest));
    }
    header_line(key, rest)
}

#[tactic(auto, unfolding(crate::specs::LineForms::line_by_key))]
fn line_by_key(alloc: Global, tech: &Tech, key: &[u8], rest: &[u8]) -> Result<MagLine, MagFault>
    ensures read { IfOk result (λ said. line_by_key tech.now key.now rest.now ≡ Ok said) }
    ensures refused { IfErr result (λ fault. fault ≢ OutOfMemory → line_by_key tech.now key.now rest.now ≡ Err fault) }
{
    if key == b"rect".as_slice() {
        return area_line(words(rest));
    }
    if key == b"rlabel".as_slice() {
        return label_line(alloc, tech, rest);
    }
    if key == b"<<".as_slice() {
        return group_line(tech, words(rest));
    }
    line_of_use(alloc, key, rest)
}

fn begins_with_hash(line: &[u8]) -> bool
    ensures { result ≡ begins_with_hash line.now }
{
    matches!(line, [b'#', ..])
}

/// What the line says, or its first fault of those that it has wherever it stands.
pub fn says(alloc: Global, tech: &Tech, line: &[u8]) -> Result<MagLine, MagFault>
    ensures read { IfOk result (λ said. says tech.now line.now ≡ Ok said) }
    ensures refused { IfErr result (λ fault. fault ≢ OutOfMemory → says tech.now line.now ≡ Err fault) }
{
    if begins_with_hash(line) {
        return Ok(MagLine::Nothing);
    }
    match next_word(line) {
        None => Ok(MagLine::Nothing),
        Some((key, rest)) => line_by_key(alloc, tech, key, rest),
    }
}
