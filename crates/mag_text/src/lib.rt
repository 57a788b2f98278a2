//! Mag texts: a cell's rectangles, uses and labels, read and written.
//!
//! # How the proof goes
//!
//! What one line says by itself, and what a line adds in its section, are definitions whose steps are those of the code, so the reader needs
//! next to no proof of its own: the fold over numbered lines does the rest, and refuses at the first faulty line (`RefusedTexts`). The ids of
//! the uses are found in a set, which grows as their list does (`UseIdLaws`). That what was read is lawful is kept line by line: what a
//! line says is of its form (`LawfulLines`), and each section takes it so (`LawfulDrafts`). The rectangles are painted at the end, those of one layer
//! that follow each other together (`DrawingSteps`).
//!
//! The writer appends line by line, and its loops keep that what stands and what is left make the whole text (`WrittenTextLaws`). A written
//! line says what it was written from (`ReadLines`, and `ReadLabels` for the text of a label, which may have blanks); the first name of a layer
//! names that layer (`LayerNames`). So the lines of a cell lead from nothing to the cell (`ReadBack`), and its text has these lines (`ReadText`). The strips
//! of paint are rectangles that a text may have (`StripLaws`).
//!
//! What a cell of a lawful library has fits a text (`CellTextLaws`, `CellFits`). Painting its strips gives its paint again: at one square the
//! rectangles that cover it show one layer after the other, each on all planes of its images, and at the end each layer that has a type there is
//! shown (`PaintAgain`, over `ShownLaws` of `cell_paint`). So what is read of a cell's text is the cell (`CellsAgain`).
#![tactic(auto)]

mod cell_texts;
mod drafts;
mod faults;
mod files;
mod laws;
mod line_forms;
mod numbers;
mod painting;
mod reading;
mod scale_lines;
mod use_tables;
mod writing;
mod written;

pub use cell_library;
pub use cell_library::cell_bodies;
pub use cell_texts::write_mag;
pub use faults::{MagAt, MagFault};
pub use files::{Drawn, Group, MagLine, Section, Seen, UsePart};
pub use laws::{
    cell_texts_are_read_back, cells_are_read_back, painting_what_is_written_gives_the_paint_again,
    texts_are_refused_at_their_first_faulty_line, written_cells_are_read_back,
    written_lines_say_what_they_were_written_from, written_texts_are_read_back,
};
pub use reading::read_mag;
pub use scale_lines::scale_line;
pub use writing::write_cell;
pub use written::{LayerStrips, WrittenUse};
