//! Circuit files of cells, as they are read, of versions 1 and 2.
//!
//! A text is read whole or refused at its first faulty line, with that line's first fault. What one line says by itself, or that it has no
//! form, is one definition (`specs/LineForms.antt`); what it adds to what was read, or why it can't stand there, another
//! (`specs/Drafts.antt`). A path may begin with an element whose line stands later, so a first pass over the lines collects the uses, whose
//! elements an index knows by their names. No array is ever taken apart, and no range of merges.
//!
//! # How the proof goes
//!
//! The definitions have the steps of the code, and so the reader of a line and the loop over the lines need next to no proof: what is left
//! are loops over words, where what the words that are left add stays what all of them give (`proofs/LineSteps.antt`), and paths, which
//! are split name by name or cut at a byte (`proofs/PathLaws.antt`). What the name of a use and the path of a range tell is shown in
//! `proofs/UseNames.antt`, what the names of elements are in `proofs/ElementIds.antt`, and where the paths of a row lead in
//! `proofs/RowPaths.antt`.
//!
//! That the record is lawful is shown of results: a step is without fault only where its tests passed, so its value has their facts
//! (`proofs/Outcomes.antt`). What a line says is of its form (`proofs/LawfulLines.antt`), numbers are in their ranges
//! (`proofs/LawfulDrafts.antt`), each line keeps what was read sound (`proofs/SoundRecords.antt`,
//! `proofs/SoundNodes.antt`, `proofs/SoundDrafts.antt`), and so does a text
//! (`proofs/LawfulTexts.antt`). There it is shown too that each element of the first pass is an element of the record
//! (`proofs/OutlineLaws.antt`), and that lines are no longer than their text, which bounds the lengths of a transistor's terminals together.
//!
//! A written record is read back word by word (`proofs/WrittenWords.antt`, `proofs/WrittenNames.antt`), line by line: what each says
//! (`proofs/WrittenLines.antt`), and what that adds to a draft that is made of the records so far (`proofs/WrittenSteps.antt`); then kind by
//! kind, the header first (`proofs/WrittenHeaders.antt`, `proofs/WrittenParts.antt`), and in the first pass the uses
//! (`proofs/WrittenOutlines.antt`). What the lines of a lawful record need follows from its law (`proofs/WrittenRecords.antt`,
//! `proofs/WrittenPaths.antt`), and `proofs/WrittenBack.antt` puts the kinds together.
#![tactic(auto)]

mod drafts;
mod faults;
mod fet_forms;
mod header_forms;
mod headers;
mod known_names;
mod laws;
mod limits;
mod line_forms;
mod lines;
mod outlines;
mod parts;
mod ranges;
mod reading;
mod records;
mod use_names;

pub use faults::{ExtAt, ExtReadFault};
pub use laws::written_records_are_read_back;
pub use limits::{GREATEST_CLASS_VALUE, LONGEST_READ_TEXT, MOST_USES};
pub use reading::read_ext;
