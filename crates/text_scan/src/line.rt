// The lines of a text.
ghost use Rattle.std.specs.Prelude.{◌≡◌, ◌≤◌, ◌↔◌, [], ◌∷◌, length, position, IsNone, IfSome, MatchOption};
ghost use Rattle.std.specs.List.{before_first, after_first};
ghost use Rattle.std.specs.Str.Lines.{strip_carriage_return};
ghost use Rattle.text_scan.specs.Lines.{lines_of, is_line_feed};

use std::marker::Model;

/// The lines of a text that are left, the first one first: the result of [`lines`](crate::lines).
/// A contract sees it as the list of these lines.
#[derive(Drop)]
pub struct Lines<'a> {
    rest: &'a [u8],
}

impl<'a> Model for Lines<'a> {
    ghost use Rattle.std.specs.Prelude.{ℕ, List};
    ghost use Rattle.text_scan.specs.Lines.{lines_of};

    ghost Value = { List (List ℕ) };

    ghost view = { λ lines. lines_of lines.rest.now };
}

impl<'a> Lines<'a> {
    pub(crate) fn new(text: &'a [u8]) -> Lines<'a>
        ensures { result ≡ lines_of text.now }
    {
        Lines { rest: text }
    }
}

impl<'a> Iterator for Lines<'a> {
    ghost use Rattle.std.specs.Iterator.{YieldsFirstRef, item_count};

    type Item = &'a [u8];

    ghost next_gives = { YieldsFirstRef (λ lines. lines) };

    ghost remaining = { item_count (λ lines. lines) };

    fn next(&mut self) -> Option<&'a [u8]> {
        let (line, rest) = split_line(self.rest)?;
        self.rest = rest;
        Some(line)
    }
}

fn line_feed_at(text: &[u8]) -> Option<usize>
    ensures { result ≡ position is_line_feed text.now }
{
    text.iter().position(|&byte| byte == b'\n')
}

// The bytes before the first line feed and those after it, or all and none where there is none.
fn split_at_line_feed(text: &[u8]) -> (&[u8], &[u8])
    ensures before { result.0.now ≡ before_first is_line_feed text.now }
    ensures after { result.1.now ≡ after_first is_line_feed text.now }
{
    match line_feed_at(text) {
        Some(end) => (&text[..end], &text[end + 1..]),
        None => (text, &[]),
    }
}

// The line without the carriage return at its end, if it has one.
fn without_return(line: &[u8]) -> &[u8]
    ensures { result.now ≡ strip_carriage_return line.now }
{
    match line {
        [front @ .., b'\r'] => front,
        _ => line,
    }
}

/// The first line of a text, and what follows its line feed. `None` is for an empty text.
pub fn split_line(text: &[u8]) -> Option<(&[u8], &[u8])>
    ensures none { IsNone result ↔ (text.now ≡ []) }
    ensures line { IfSome result
        (λ split. split.0.now ≡ strip_carriage_return (before_first is_line_feed text.now)) }
    ensures rest { IfSome result (λ split. split.1.now ≡ after_first is_line_feed text.now) }
    ensures lines { MatchOption result (lines_of text.now ≡ [])
        (λ split. lines_of text.now ≡ split.0.now ∷ lines_of split.1.now) }
{
    if text.is_empty() {
        return None;
    }
    let (line, rest) = split_at_line_feed(text);
    Some((without_return(line), rest))
}
