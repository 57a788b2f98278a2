//! Commands that extract a cell: `extract`, `flat`, `sim`, `vectors`, `grade` and `generate`; and the laws that each of them has one effect.
//!
//! # How the proof goes
//!
//! What is said of a library is said of what is seen of it: of a lawful library whose paint is sound, types are those of the technology, and
//! so clean cells have one record and a clean tree (`SoundLibraries`). The cells at and below a cell have one order; below a clean cell they
//! are clean, so the record that is made of each is one, and so are the texts of its labels that name nothing. A cell that is not clean is
//! told instead, and below a clean cell there is none (`OneExtraction`).
//!
//! Two lists with the records of a clean tree have one record of each cell of it. What a record uses are the elements of its tree, so uses
//! lead from the root to cells of the tree alone, and the lists agree on all that is reached (`ReachedRecords`). So they mean one circuit or
//! have one fault (`OneCircuit`).
//!
//! A command on a cell finds the cell by its name (`OnCells`). What it writes or runs is of the circuit of the cell, or of the limit that it
//! passes (`CircuitEffects`, `RunEffects`), and the cells that `generate` makes are those that the technology says (`StackEffects`).
#![tactic(auto)]

mod cell_runs;
mod command_circuits;
mod command_extract;
mod command_generate;
mod command_vectors;
mod laws;

pub use command_circuits::circuit;
pub use command_extract::extract;
pub use command_generate::generate;
pub use command_vectors::{VectorQuestion, vectors};
pub use laws::{
    cell_circuits_are_unique, extracting_lines_have_one_effect, extractions_are_unique,
};
pub use uniqueness;
pub use uniqueness::{circuit_commands, network_commands};
