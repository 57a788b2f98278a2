//! What the texts of files mean: the CIF text of a cell is read without a fault and means the flat layout of the cell, and a circuit file is read
//! as what it spells, or refused at its first faulty line. The functions here do nothing; their contracts are the laws, which stand above the
//! readers and the writer, so that these prove nothing of them.
#![tactic(auto)]

mod cif_layouts;
mod cif_texts;
mod circuit_files;

pub use cif_layouts::{cell_texts_are_read_as_the_layout, cell_texts_mean_the_layout};
pub use cif_texts::written_texts_are_read;
pub use circuit_files::{
    circuit_files_are_read_as_what_they_spell, circuit_files_are_refused_at_their_first_faulty_line,
};
