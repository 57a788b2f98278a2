//! CIF texts command by command: where commands end, what their words are, and what each says by its form alone.
//!
//! A comment is blanks, a command is what stands between semicolons, and a text is read command by command up to the first faulty
//! one. What a command says depends on nothing that stands before it; whether it may stand there is a reader's to tell.
//!
//! # How the proof goes
//!
//! Comments are taken out by one walk over the bytes (`specs/Comments.antt`), which keeps the place of each byte and each line feed, so that
//! lines may be counted afterwards. What is left is split at its semicolons (`specs/Cutting.antt`). The loop over commands keeps one
//! equation: what the rest of the text makes of the present state is what the text makes of the first one. Words are found from
//! the front, each by one law (`proofs/WordLaws.antt`), and what they say is read off them by patterns.
//!
//! What is written is read again (`src/laws.rt`). A written text has no comment and is split into the commands that it was made of, so that
//! reading it is one fold over them (`proofs/WrittenTexts.antt`). The words of a line are those of its parts, and the text of a number is one
//! word, the number (`proofs/WrittenWords.antt`). So each written command says what it was written for (`proofs/WrittenLaws.antt`).
#![tactic(auto)]

mod bytes;
mod commands;
mod comments;
mod cutting;
mod laws;
mod limits;
mod words;

pub use bytes::{is_blank, is_numeral, is_semicolon};
pub use commands::{CifCommand, SaidMove, says};
pub use comments::{Place, Scan, without_comments};
pub use cutting::{CommandReader, read_commands};
pub use laws::{reads_written_texts, says_what_is_written, written_commands_are_unmarked};
pub use limits::{HIGHEST, LOWEST};
pub use words::{CifWord, words_of};
