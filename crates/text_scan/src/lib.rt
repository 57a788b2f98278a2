//! Reads texts that are lists of lines: their lines, the words of a line, and numbers in decimal.
//!
//! Nothing is copied: a line and a word are parts of the text that they stand in.
//!
//! # How the proof goes
//!
//! Lines and words are defined by std's splits of a list, all at once, and are found one at a time. So each has a law that says what
//! the first one is and what is left behind it (`lines_of-first`, `words_of-split`), which is the step of every loop over them; and one
//! that says what stands in front of a separator (`lines_of-at`, `words_of-at`), by which what is written is read back
//! (`proofs/WrittenLemmas.antt`). A number is read with its digits held at the top of 128 bits, so that no sum overflows: a law ties the
//! held value to the true one as far as the ranges can see.
#![tactic(auto)]

ghost use Rattle.std.specs.Prelude.{◌≡◌, ◌≤◌, length};
ghost use Rattle.text_scan.specs.Lines.{lines_of};
ghost use Rattle.text_scan.specs.Words.{words_of};

pub use behind::{append_number, append_word};
pub use decimal_text::append_decimal;
pub use laws::{reads_written_lines, reads_written_numbers, reads_written_words};
pub use line::{Lines, split_line};
pub use numeral::{NumFault, number, wide};
pub use plain_name::{LONGEST_NAME, is_plain_byte, is_plain_name};
pub use word::{Words, split_word};

mod behind;
mod decimal_text;
mod laws;
mod line;
mod numeral;
mod plain_name;
mod word;

/// The lines of a text, without the line feeds that end them.
///
/// A text that ends with no line feed ends with a line all the same. One carriage return at a
/// line's end is dropped.
pub fn lines(text: &[u8]) -> Lines<'_>
    ensures value { result ≡ lines_of text.now }
    ensures count { length result ≤ length text.now }
{
    Lines::new(text)
}

/// The words of a line: the pieces between blanks and tabs that are not empty.
pub fn words(line: &[u8]) -> Words<'_>
    ensures value { result ≡ words_of line.now }
    ensures count { length result ≤ length line.now }
{
    Words::new(line)
}
