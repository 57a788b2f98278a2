//! Which line of a mag text says its scale.
ghost use Rattle.std.specs.Prelude.{◌≡◌};
ghost use Rattle.text_scan.specs.Words.{words_of};
ghost use Rattle.mag_text.specs.Drafts.{begins_with_word};
ghost use Rattle.mag_text.specs.ScaleLines.{ends_header, scale_line};

use text_scan::{lines, words};

/// The number of the line that says the scale of a text, and 1 where none does.
#[tactic(auto, unfolding(crate::specs::ScaleLines::scale_line))]
pub fn scale_line(text: &[u8]) -> usize
    ensures { result ≡ scale_line text.now }
{
    let mut number = 0;
    for line in lines(text) {
        number += 1;
        if begins_with_word(line, b"magscale") {
            return number;
        }
        if ends_header(line) {
            return 1;
        }
    }
    1
}

// Whether the line begins a group or a use.
fn ends_header(line: &[u8]) -> bool
    ensures { result ≡ ends_header (words_of line.now) }
{
    begins_with_word(line, b"<<") || begins_with_word(line, b"use")
}

// Whether the first word of the line is this.
fn begins_with_word(line: &[u8], key: &[u8]) -> bool
    ensures { result ≡ begins_with_word key.now (words_of line.now) }
{
    match words(line).next() {
        Some(word) => word == key,
        None => false,
    }
}
