//! Reads CIF texts.
//!
//! A text is read command by command, each by its form (`cif_forms`) and by what stands before it. The first faulty command refuses the text
//! at the line of its first byte, with its first fault; a text without an `E` is refused at its last line.
//!
//! - What a command is faulty for is one table for each kind of command, in the order in which faults are told: what is left out, the form, a
//!   number outside 32 bits, a symbol a second time, a call of no symbol, a box without a layer, an edge or a shift that isn't whole.
//! - The layer is none at the start of a text and of a symbol. Behind a symbol it is again what it was before it, and a call leaves it.
//! - Numbers of a symbol are multiplied by its scale; those of the top level stand as they are. An edge lies half a side from the centre, so
//!   a box with an odd side around a whole centre has no whole edges, at the top level too.
//! - A turn is to a point of an axis that isn't (0, 0), and `-0` is 0.
//! - A symbol isn't defined before it ends, so it can't call itself. Its number may be negative.
//! - A layer has its place by its first box in the text, also where that box stands in a symbol that nothing calls.
//! - Nothing behind an `E` is read: `EX` and `E(` end a text.
//!
//! # How the proof goes
//!
//! The definitions have the steps of the code: what may be wrong with a command (`specs/Faults.antt`), and what it adds where nothing is
//! (`specs/Additions.antt`). Tests of several numbers are shut words, each with a function of its own, so a table is read row by row
//! without a proof. The symbols and the layers stand in lists beside an index, which has the same numbers and names in the same order; so what
//! the index finds is the place in the list (`proofs/PlaceLaws.antt`).
//!
//! That what is read is lawful is shown of the definitions alone. Each number that is scaled stays below 2^53, since it has 32 bits and a
//! scale's numbers are at most 1,000,000 (`proofs/NumberLaws.antt`); each command without fault keeps what was read lawful, and what each
//! command keeps, the text keeps (`proofs/LawfulDrafts.antt`). What the fold over commands answers is said once more without it, and both
//! ways, in `proofs/RefusedTexts.antt`.
#![tactic(auto)]

mod boxes;
mod drafts;
mod faults;
mod laws;
mod layers;
mod limits;
mod reading;
mod scales;
mod steps;
mod symbols;

pub use faults::{CifAt, CifFault};
pub use laws::{
    cif_texts_are_refused_at_their_first_faulty_command, nothing_behind_the_end_is_read,
    what_is_read_is_lawful,
};
pub use limits::{MOST_FACTOR, MOST_SCALED};
pub use reading::read_cif;
