//! A large library from a number.
//!
//! `generate` adds three cells to a library: a tile in which poly crosses diffusion, a row of n tiles, and a stack of n rows. What they are
//! and why they are refused stands in `Generated` and `Refusals`.
//!
//! # How the proof goes
//!
//! The bodies of the cells are said one by one (`Bodies`). Their names are new and differ, their words and numbers are of their forms, and
//! their uses find the cells that came before them, so they may be added, and the library with them is the one that is meant (`MadeCells`).
//!
//! That nothing then refuses them but the number of edits goes by a tree in which they stand already. The paint and the labels of the tile lie
//! in a square of six, so the row is at most three thousand wide and the stack as high, and with the number of elements and the depth all are
//! within their limits (`Sizes`). A lawful tree stays lawful with such cells at its end (`Trees`), and cells that can stand in a lawful tree
//! are not refused (`Additions`, over `cell_library`). The numbers of edits and the stamps have no part in that, so the tree is taken as if it
//! had never been edited.
#![tactic(auto)]

mod bodies;
mod checks;
mod faults;
mod generating;
mod limits;
mod words;

pub use faults::GenerateFault;
pub use generating::generate;
pub use limits::MOST_TILES;
