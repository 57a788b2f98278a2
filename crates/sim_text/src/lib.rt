//! Sim texts: the transistors, capacitances and aliases of a circuit, read and written.
//!
//! # How the proof goes
//!
//! What one line says by itself is a definition whose steps are those of the code, so the reader needs no proof of its own: the fold over
//! numbered lines does the rest. That the fold gives what the lines spell, and refuses at the first faulty line, is shown by what a line of
//! each form can say: the first a header alone, a further one anything else (`proofs/SpelledTexts.antt`, `proofs/RefusedTexts.antt`).
//!
//! The writer appends line by line, and its loop keeps that what stands and what is left make the whole text
//! (`proofs/AppendedText.antt`). A line that is written says what it was written from (`proofs/WrittenLines.antt`), so the lines of a
//! written text say the circuit (`proofs/WrittenBack.antt`).
#![tactic(auto)]

mod faults;
mod files;
mod laws;
mod limits;
mod line_forms;
mod parts;
mod reading;
mod writing;

pub use faults::{SimAt, SimFault};
pub use files::{SimFet, SimFile, SimLine};
pub use laws::{
    texts_are_read_as_what_they_spell, texts_are_refused_at_their_first_faulty_line,
    written_circuits_are_read_back,
};
pub use limits::{CAP_EDGE, LONGEST_SIM_NAME, LONGEST_TEXT, SimLimit};
pub use reading::read_sim;
pub use writing::{append_alias, append_cap, append_fet, append_header, write_sim};
