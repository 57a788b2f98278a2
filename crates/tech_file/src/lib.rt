//! Reads the text of a technology.
//!
//! # How the proof goes
//!
//! A text is read twice: for its outline, the first line of each section, and then line by line by the fold that all texts share, with
//! the outline as its context. What the lines leave is a sound draft (`SoundReading`), so it is a well-formed technology at the end.
//!
//! Above this stands what a text is: sections, each a line with its name alone, lines, and an end (`specs/Texts.antt`). That a text is
//! read exactly where it is of that form is an induction over its lines, in both directions (`ReadTexts`, `SectionTexts`); that sections begin neither too
//! early nor twice exactly where they are in their order is a law of the first headings (`HeadingLaws`); `WholeTexts` adds what is missing
//! and the rules.
#![tactic(auto)]

mod laws;
mod outline;
mod places;
mod reading;
mod sections;
mod whole;

pub use laws::{texts_are_refused_for_their_first_fault, texts_are_sections};
pub use reading::TechAt;
pub use whole::read_tech;
