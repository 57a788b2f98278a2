//! Writes a cell and all below it as a CIF text: a symbol for each cell, children before parents, then a call of the cell's own symbol, and the end.
//!
//! A symbol has the boxes of the cell's own paint, part by part, and behind them calls of its children's symbols, one for each element; a child
//! without a hull is not called. The parts are the atoms of the technology and the marks of its contacts, and the boxes of a part are the strips
//! of the squares at which a type has it, on whatever planes. The tiles of the paint are taken out once, and looked through once for each part,
//! of which there is at most one a type. All lengths stand twice in symbols of scale 1/2, so that the centres of boxes are whole. A text that is
//! too long is found while it is written: its length is asked before each box, each element of an array and each symbol.
//!
//! # How the proof goes
//!
//! A command is defined as its words with blanks between; the code appends it word by word, and `CommandLaws` turns the one into the other.
//! `PartLaws` finds the parts type by type, each a set with one bit, and `StripLaws` shows that the tiles whose types have a part cover exactly
//! the squares that hold it. `ElementLaws` are the elements of a grid one by one.
//!
//! The text is told by relations, since strips, hulls and the library order are. The lines of parts, uses and symbols are runs, one behind the
//! other, each of one thing (`AreRuns`); a loop keeps that the lines of the first things have been written (`WritingLaws`), and `SymbolLaws` puts
//! the parts of a symbol and of the whole text together. A refusal speaks of every text that the cell has, so there must be only one: a set has
//! one list of strips, a cell one hull and one library order, hence each symbol one list of lines (`OneText`), and so what was written before
//! the refusal is the beginning of any text of the cell. From there on lengths alone count: what is too long stays so with more behind it. That
//! calls go by the right numbers is `OrderLaws`: the cells of the order are cells of the library, and an index of them finds each at its place.
#![tactic(auto)]

mod commands;
mod faults;
mod limits;
mod numbers;
mod parts;
mod strips;
mod writing;

pub use faults::CifWriteFault;
pub use limits::LONGEST_TEXT;
pub use writing::{CifText, write_cif};
