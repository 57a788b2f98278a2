//! The parts of a text, which are read where they stand.
ghost use Rattle.std.specs.Prelude.{◌≡◌, ◌∷◌, [], MatchOption, position, slice_index_or};
ghost use Rattle.tech_draft.specs.Words.{is_comma, pieces_of};
ghost use Rattle.tech_draft.specs.steps.Parts.{parts_in};

use std::marker::Model;
use text_scan::split_word;

/// A text that has parts.
#[derive(Clone, Copy)]
pub(crate) enum Parted<'a> {
    /// It has none.
    Nothing,
    /// It is one part.
    Lone(&'a [u8]),
    /// Its parts are the pieces of a comma list.
    Listed(&'a [u8]),
    /// Its parts are the words of a line.
    Line(&'a [u8]),
}

/// The parts of a text that are left, the first one first. A contract sees it as the list of these parts.
#[derive(Drop)]
pub(crate) struct Parts<'a> {
    rest: Parted<'a>,
}

impl<'a> Model for Parts<'a> {
    ghost use Rattle.std.specs.Prelude.{ℕ, List};
    ghost use Rattle.tech_draft.specs.steps.Parts.{parts_in};

    ghost Value = { List (List ℕ) };

    ghost view = { λ parts. parts_in parts.rest };
}

impl<'a> Iterator for Parts<'a> {
    ghost use Rattle.std.specs.Iterator.{YieldsFirstRef, item_count};

    type Item = &'a [u8];

    ghost next_gives = { YieldsFirstRef (λ parts. parts) };

    ghost remaining = { item_count (λ parts. parts) };

    fn next(&mut self) -> Option<&'a [u8]> {
        let (part, rest) = split_part(self.rest)?;
        self.rest = rest;
        Some(part)
    }
}

/// Each part of the text.
pub(crate) fn each_part(text: Parted<'_>) -> Parts<'_>
    ensures { result ≡ parts_in text.entry }
{
    Parts { rest: text }
}

// The first part, and what is left behind it.
fn split_part(text: Parted<'_>) -> Option<(&[u8], Parted<'_>)>
    ensures { MatchOption result (parts_in text.entry ≡ []) (λ split. parts_in text.entry ≡ split.0.now ∷ parts_in split.1) }
{
    match text {
        Parted::Nothing => None,
        Parted::Lone(word) => Some((word, Parted::Nothing)),
        Parted::Listed(list) => Some(split_piece(list)),
        Parted::Line(line) => {
            let (word, rest) = split_word(line)?;
            Some((word, Parted::Line(rest)))
        }
    }
}

fn comma_at(list: &[u8]) -> Option<usize>
    ensures { result ≡ position is_comma list.now }
{
    list.iter().position(|&byte| byte == b',')
}

// The first piece of a list, and the pieces behind it.
fn split_piece(list: &[u8]) -> (&[u8], Parted<'_>)
    ensures { pieces_of list.now ≡ result.0.now ∷ parts_in result.1 }
{
    match comma_at(list) {
        Some(end) => (&list[..end], Parted::Listed(&list[end + 1..])),
        None => (list, Parted::Nothing),
    }
}

/// The first piece of a comma list.
pub(crate) fn first_piece(list: &[u8]) -> &[u8]
    ensures { result.now ≡ slice_index_or (pieces_of list.now) 0 [] }
{
    let (first, _) = split_piece(list);
    first
}
