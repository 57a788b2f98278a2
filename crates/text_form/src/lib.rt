//! Texts that are read line by line up to their first faulty line.
//!
//! A reader of a format says what one line does to what was read so far, or which fault the line has, and what the end of the
//! text does. [`read_text`] does the rest: it numbers the lines from 1 and stops at the first fault. What it answers is one
//! definition, `text_state`, for every format.
//!
//! # How the proof goes
//!
//! The loop keeps one equation: what the rest of the lines makes of the present state is what all lines make of the first one.
//! The laws of that fold are inductions over the lines (`proofs/FoldLaws.antt`): what stands before a line may be read first, the
//! first faulty line decides, what each line keeps the text keeps; and where lines say things by themselves, written lines
//! are read back (`proofs/SaidLaws.antt`).
//!
//! A text whose parts are not its lines, as one of statements that span lines, is read by the same fold over parts that know their
//! line (`specs/Parts.antt`), with the same laws (`proofs/PartLaws.antt`).
#![tactic(auto)]

mod laws;
mod next_words;
mod reading;

pub use laws::{
    lines_are_refused_at_the_first_faulty_one, lines_say_what_they_give,
    parts_are_refused_at_the_first_faulty_one,
};
pub use next_words::next_three;
pub use reading::{At, LineReader, read_lines, read_text};
