//! The entries of a list: the pieces between its commas, and their form.
ghost use Rattle.std.specs.Prelude.{◌≡◌, ◌∷◌, position};
ghost use Rattle.std.specs.Option.{option_map};
ghost use Rattle.tech_draft.specs.Words.{is_comma, is_slash, has_slash, name_part, plane_part, pieces_of};
ghost use Rattle.drc_rules.specs.steps.Pieces.{pieces_left};
ghost use Rattle.drc_rules.specs.RuleLines.{is_entry, is_list};

use std::marker::Model;
use text_scan::is_plain_name;

/// The entries of a list that are left, the first one first. A contract sees it as the list of these entries.
#[derive(Drop)]
pub struct Entries<'a> {
    rest: Option<&'a [u8]>,
}

impl<'a> Model for Entries<'a> {
    ghost use Rattle.std.specs.Prelude.{ℕ, List};
    ghost use Rattle.std.specs.Option.{option_map};
    ghost use Rattle.drc_rules.specs.steps.Pieces.{pieces_left};

    ghost Value = { List (List ℕ) };

    ghost view = { λ entries. pieces_left (option_map (λ list. list.now) entries.rest) };
}

impl<'a> Iterator for Entries<'a> {
    ghost use Rattle.std.specs.Iterator.{YieldsFirstRef, item_count};

    type Item = &'a [u8];

    ghost next_gives = { YieldsFirstRef (λ entries. entries) };

    ghost remaining = { item_count (λ entries. entries) };

    fn next(&mut self) -> Option<&'a [u8]> {
        let (entry, rest) = split_entry(self.rest?);
        self.rest = rest;
        Some(entry)
    }
}

/// The entries of a list.
pub fn each_entry(list: &[u8]) -> Entries<'_>
    ensures { result ≡ pieces_of list.now }
{
    Entries { rest: Some(list) }
}

fn comma_at(list: &[u8]) -> Option<usize>
    ensures { result ≡ position is_comma list.now }
{
    list.iter().position(|&byte| byte == b',')
}

// The first entry of a list, and the list behind it.
fn split_entry(list: &[u8]) -> (&[u8], Option<&[u8]>)
    ensures { pieces_of list.now ≡ result.0.now ∷ pieces_left (option_map (λ rest. rest.now) result.1) }
{
    match comma_at(list) {
        Some(end) => (&list[..end], Some(&list[end + 1..])),
        None => (list, None),
    }
}

/// Whether an entry names a plane.
pub fn has_slash(entry: &[u8]) -> bool
    ensures { result ≡ has_slash entry.now }
{
    entry.iter().any(|&byte| byte == b'/')
}

fn slash_at(entry: &[u8]) -> Option<usize>
    ensures { result ≡ position is_slash entry.now }
{
    entry.iter().position(|&byte| byte == b'/')
}

/// The parts of an entry: its name, and its plane where it has one.
pub fn parts_of_entry(entry: &[u8]) -> (&[u8], &[u8])
    ensures name { result.0.now ≡ name_part entry.now }
    ensures plane { result.1.now ≡ plane_part entry.now }
{
    match slash_at(entry) {
        Some(end) => (&entry[..end], &entry[end + 1..]),
        None => (entry, &[]),
    }
}

fn is_entry(entry: &[u8]) -> bool
    ensures { result ≡ is_entry entry.now }
{
    let (name, plane) = parts_of_entry(entry);
    is_plain_name(name) && (!has_slash(entry) || is_plain_name(plane))
}

/// Whether each piece of a list is an entry.
pub fn is_list(list: &[u8]) -> bool
    ensures { result ≡ is_list list.now }
{
    each_entry(list).all(is_entry)
}
