//! What a command says.
ghost use Rattle.std.specs.Prelude.{◌≡◌, ◌==◌, ◌∷◌, ◌++◌, ◌<◌, true, false, not, [], length, IfOk, IfSome, MatchOption, OnOk};
ghost use Rattle.std.specs.List.{list_all, list_any};
ghost use Rattle.cif_forms.specs.Words.{words_of};
ghost use Rattle.cif_forms.specs.declared.words.CifWord.TheVariants.{Number};
ghost use Rattle.cif_forms.specs.Commands.{goes_on, is_broken, is_layer_byte};
ghost use Rattle.cif_forms.specs.Commands.{is_layer_name, is_left_out, layer_said, moves_in, said_by};
ghost use Rattle.cif_forms.specs.Commands.{said_from, said_of, said_of_box, said_of_call, said_of_start, says, trimmed, without_last_blanks};

use crate::bytes::is_blank;
use crate::words::CifWord::Number;
use crate::words::{CifWord, from_first_word, words_of};
use names_lists::{List, Name};
use std::alloc::{AllocError, Global};

/// A step of a call as it is said. A turn is said by the point to which (1, 0) is turned, at any distance.
#[derive(Clone, Copy)]
pub enum SaidMove {
    Shift(i64, i64),
    MirrorX,
    MirrorY,
    Toward(i64, i64),
}

/// A command, by its form alone.
#[derive(Drop)]
pub enum CifCommand {
    /// Nothing but blanks.
    Empty,
    /// It begins with a digit.
    ReadOver,
    /// `E`, behind which nothing is read.
    End,
    /// A polygon, a wire, a round flash, or a symbol taken back.
    LeftOut,
    /// Any other form.
    Other,
    /// `L` and a name, if it is one.
    Layer(Option<Name>),
    /// `DS`: the symbol's number, and its scale.
    Start(i64, i64, i64),
    /// `DF`.
    Finish,
    /// `B`: length, width, the two coordinates of the centre, and whether a direction follows.
    Area(i64, i64, i64, i64, bool),
    /// `C`: the symbol's number, the steps, and whether something else follows them.
    Call(i64, List<SaidMove>, bool),
}

// Whether words begin a command that is left out.
fn is_left_out(words: &[CifWord]) -> bool
    ensures { result ≡ is_left_out words.now }
{
    match words {
        [CifWord::P | CifWord::W | CifWord::R, ..] => true,
        [CifWord::D, CifWord::D, ..] => true,
        _ => false,
    }
}

// The first step of a call, and what follows it.
fn first_move(words: &[CifWord]) -> Option<(SaidMove, &[CifWord])>
    ensures moves { MatchOption result (moves_in words.now ≡ []) (λ first. moves_in words.now ≡ first.0 ∷ moves_in first.1.now) }
    ensures more { MatchOption result (goes_on words.now ≡ not (length words.now == 0)) (λ first. goes_on words.now ≡ goes_on first.1.now) }
    ensures less { IfSome result (λ first. length first.1.now < length words.now) }
{
    match words {
        [CifWord::M, CifWord::X, more @ ..] => Some((SaidMove::MirrorX, more)),
        [CifWord::M, CifWord::Y, more @ ..] => Some((SaidMove::MirrorY, more)),
        [CifWord::T, Number(x), Number(y), more @ ..] => Some((SaidMove::Shift(*x, *y), more)),
        [CifWord::R, Number(p), Number(q), more @ ..] => Some((SaidMove::Toward(*p, *q), more)),
        _ => None,
    }
}

fn said_of_start(words: &[CifWord]) -> CifCommand
    ensures { result ≡ said_of_start words.now }
{
    match words {
        [Number(n)] => CifCommand::Start(*n, 1, 1),
        [Number(n), Number(a), Number(b)] => CifCommand::Start(*n, *a, *b),
        _ => CifCommand::Other,
    }
}

fn said_of_box(words: &[CifWord]) -> CifCommand
    ensures { result ≡ said_of_box words.now }
{
    match words {
        [Number(l), Number(w), Number(x), Number(y)] => CifCommand::Area(*l, *w, *x, *y, false),
        [
            Number(l),
            Number(w),
            Number(x),
            Number(y),
            Number(_),
            Number(_),
        ] => { CifCommand::Area(*l, *w, *x, *y, true) }
        _ => CifCommand::Other,
    }
}

fn put(moves: &mut Vec<SaidMove>, step: SaidMove) -> Result<(), AllocError>
    ensures { OnOk result (moves.new.items ≡ moves.old.items ++ step ∷ []) }
{
    moves.push(step)?;
    Ok(())
}

// The steps that words begin with, and whether something else follows them.
fn moves_in(alloc: Global, words: &[CifWord]) -> Result<(Vec<SaidMove>, bool), AllocError>
    ensures moves { IfOk result (λ found. found.0.items ≡ moves_in words.now) }
    ensures more { IfOk result (λ found. found.1 ≡ goes_on words.now) }
{
    let mut moves = Vec::new(alloc);
    let mut rest = words;
    while let Some((step, more)) = first_move(rest) {
        put(&mut moves, step)?;
        rest = more;
    }
    Ok((moves, !rest.is_empty()))
}

fn said_of_call(alloc: Global, words: &[CifWord]) -> Result<CifCommand, AllocError>
    ensures { IfOk result (λ said. said ≡ said_of_call words.now) }
{
    let [Number(n), steps @ ..] = words else {
        return Ok(CifCommand::Other);
    };
    let (moves, more) = moves_in(alloc, steps)?;
    Ok(CifCommand::Call(*n, List::of(moves), more))
}

fn said_of(alloc: Global, words: &[CifWord]) -> Result<CifCommand, AllocError>
    ensures { IfOk result (λ said. said ≡ said_of words.now) }
{
    match words {
        [CifWord::B, rest @ ..] => Ok(said_of_box(rest)),
        [CifWord::C, rest @ ..] => said_of_call(alloc, rest),
        [CifWord::D, CifWord::S, rest @ ..] => Ok(said_of_start(rest)),
        [CifWord::D, CifWord::F] => Ok(CifCommand::Finish),
        _ => Ok(CifCommand::Other),
    }
}

fn is_broken(word: CifWord) -> bool
    ensures { result ≡ is_broken word }
{
    matches!(word, CifWord::Broken)
}

fn has_broken(words: &[CifWord]) -> bool
    ensures { result ≡ list_any is_broken words.now }
{
    words.iter().any(|&word| is_broken(word))
}

fn said_by(alloc: Global, words: &[CifWord]) -> Result<CifCommand, AllocError>
    ensures { IfOk result (λ said. said ≡ said_by words.now) }
{
    if is_left_out(words) {
        return Ok(CifCommand::LeftOut);
    }
    if has_broken(words) {
        return Ok(CifCommand::Other);
    }
    said_of(alloc, words)
}

fn without_last_blanks(bytes: &[u8]) -> &[u8]
    ensures { result.now ≡ without_last_blanks bytes.now }
{
    let mut rest = bytes;
    while let [front @ .., byte] = rest {
        if !is_blank(*byte) {
            return rest;
        }
        rest = front;
    }
    rest
}

fn trimmed(bytes: &[u8]) -> &[u8]
    ensures { result.now ≡ trimmed bytes.now }
{
    without_last_blanks(from_first_word(bytes))
}

fn is_layer_byte(byte: u8) -> bool
    ensures { result ≡ is_layer_byte byte }
{
    byte.is_ascii_uppercase() || byte.is_ascii_digit()
}

fn has_layer_bytes(name: &[u8]) -> bool
    ensures { result ≡ list_all is_layer_byte name.now }
{
    name.iter().all(|&byte| is_layer_byte(byte))
}

fn is_layer_name(name: &[u8]) -> bool
    ensures { result ≡ is_layer_name name.now }
{
    let length = name.len();
    0 < length && length < 5 && has_layer_bytes(name)
}

fn layer_said(alloc: Global, name: &[u8]) -> Result<CifCommand, AllocError>
    ensures { IfOk result (λ said. said ≡ layer_said name.now) }
{
    if !is_layer_name(name) {
        return Ok(CifCommand::Layer(None));
    }
    match Name::of(alloc, name) {
        Ok(name) => Ok(CifCommand::Layer(Some(name))),
        Err(_) => Err(AllocError),
    }
}

fn said_by_words(alloc: Global, bytes: &[u8]) -> Result<CifCommand, AllocError>
    ensures { IfOk result (λ said. said ≡ said_by (words_of bytes.now)) }
{
    let words = words_of(alloc, bytes)?;
    said_by(alloc, words.as_slice())
}

fn said_from(alloc: Global, bytes: &[u8]) -> Result<CifCommand, AllocError>
    ensures { IfOk result (λ said. said ≡ said_from bytes.now) }
{
    let Some((first, rest)) = bytes.split_first() else {
        return Ok(CifCommand::Empty);
    };
    if first.is_ascii_digit() {
        return Ok(CifCommand::ReadOver);
    }
    match *first {
        b'E' => Ok(CifCommand::End),
        b'L' => layer_said(alloc, trimmed(rest)),
        _ => said_by_words(alloc, bytes),
    }
}

/// What a command says.
#[tactic(auto, unfolding(crate::specs::Commands::says))]
pub fn says(alloc: Global, bytes: &[u8]) -> Result<CifCommand, AllocError>
    ensures { IfOk result (λ said. said ≡ says bytes.now) }
{
    said_from(alloc, from_first_word(bytes))
}
