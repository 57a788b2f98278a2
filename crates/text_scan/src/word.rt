// The words of a line.
ghost use Rattle.std.specs.Prelude.{◌≡◌, [], ◌∷◌, ◌++◌, position, drop, length, IfSome, MatchOption};
ghost use Rattle.std.specs.List.{before_first, position_or_len};
ghost use Rattle.text_scan.specs.Words.{words_of, is_blank, is_in_word, from_first_word};

use std::marker::Model;

/// The words of a line that are left, the first one first: the result of [`words`](crate::words).
/// A contract sees it as the list of these words.
#[derive(Drop)]
pub struct Words<'a> {
    rest: &'a [u8],
}

impl<'a> Model for Words<'a> {
    ghost use Rattle.std.specs.Prelude.{ℕ, List};
    ghost use Rattle.text_scan.specs.Words.{words_of};

    ghost Value = { List (List ℕ) };

    ghost view = { λ words. words_of words.rest.now };
}

impl<'a> Words<'a> {
    pub(crate) fn new(line: &'a [u8]) -> Words<'a>
        ensures { result ≡ words_of line.now }
    {
        Words { rest: line }
    }
}

impl<'a> Iterator for Words<'a> {
    ghost use Rattle.std.specs.Iterator.{YieldsFirstRef, item_count};

    type Item = &'a [u8];

    ghost next_gives = { YieldsFirstRef (λ words. words) };

    ghost remaining = { item_count (λ words. words) };

    fn next(&mut self) -> Option<&'a [u8]> {
        let (word, rest) = split_word(self.rest)?;
        self.rest = rest;
        Some(word)
    }
}

fn is_blank(byte: u8) -> bool
    ensures { result ≡ is_blank byte }
{
    byte == b' ' || byte == b'\t'
}

fn first_in_word(line: &[u8]) -> Option<usize>
    ensures { result ≡ position is_in_word line.now }
{
    line.iter().position(|&byte| !is_blank(byte))
}

fn first_blank(line: &[u8]) -> Option<usize>
    ensures { result ≡ position is_blank line.now }
{
    line.iter().position(|&byte| is_blank(byte))
}

// The line from its first word on: nothing where it has none.
fn from_first_word(line: &[u8]) -> &[u8]
    ensures { result.now ≡ from_first_word line.now }
{
    match first_in_word(line) {
        Some(start) => &line[start..],
        None => &[],
    }
}

// The bytes before the first blank, and those from it on.
fn split_at_blank(line: &[u8]) -> (&[u8], &[u8])
    ensures before { result.0.now ≡ before_first is_blank line.now }
    ensures from { result.1.now ≡ drop (position_or_len is_blank line.now) line.now }
    ensures whole { line.now ≡ result.0.now ++ result.1.now }
{
    match first_blank(line) {
        Some(end) => line.split_at(end),
        None => (line, &[]),
    }
}

/// The first word of a line, and what follows it, from the next blank on. `None` is for a line
/// without a word.
pub fn split_word(line: &[u8]) -> Option<(&[u8], &[u8])>
    ensures words { MatchOption result (words_of line.now ≡ [])
        (λ split. words_of line.now ≡ split.0.now ∷ words_of split.1.now) }
    ensures word { IfSome result
        (λ split. split.0.now ≡ before_first is_blank (from_first_word line.now)) }
    ensures rest { IfSome result
        (λ split. from_first_word line.now ≡ split.0.now ++ split.1.now) }
{
    let line = from_first_word(line);
    if line.is_empty() {
        return None;
    }
    Some(split_at_blank(line))
}
