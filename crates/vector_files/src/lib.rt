//! Vector files: what is set, freed, run and shown of a network, line by line.
//!
//! # How the proof goes
//!
//! What one line says by itself is a definition whose steps are those of the code, so the reader needs hardly any proof of its own: the
//! fold over numbered lines does the rest, and it tells the first faulty line (`proofs/RefusedFiles.antt`). That each line fits the
//! network follows from what a line of each form can say (`proofs/FittingLines.antt`).
//!
//! Lines are read with an index of the network's names, in which each name stands once and power and ground are found beforehand. A name
//! has the same node there as in the network (`proofs/Places.antt`); a node is power or ground exactly where it is the node of one of
//! their names, since no name has two nodes (`proofs/Rails.antt`); and so each line says the same (`proofs/Alike.antt`).
#![tactic(auto)]

mod adding;
mod faults;
mod files;
mod laws;
mod line_forms;
mod nodes;
mod reading;
mod words;

pub use faults::{VecAt, VecFault};
pub use files::{VecLine, Vectors};
pub use laws::vector_files_are_refused_at_their_first_faulty_line;
pub use nodes::NodeNames;
pub use reading::read_vectors;
