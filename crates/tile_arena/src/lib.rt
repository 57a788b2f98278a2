//! Values under names that stay, in blocks of room that never move.
//!
//! An [`Arena`] is what the tiles of a painted plane lie in: each knows its neighbours by their ids. Room is reserved ahead, so that an
//! insert can't fail half way through a change. Empty slots are chained, and the next insert takes the first of them.
//!
//! # How the proof goes
//!
//! Three layers, each seen by the next as plain data. `places` holds the raw pointers: five functions, proved step by step over
//! separation logic, show a block's room as a list of places, each empty or with an item (`proofs/PlaceSteps.antt`). `blocks` and
//! `block_lists` show items in order, wherever they lie: an item's block and place are its number divided by the size of a block
//! (`proofs/ListLaws.antt`). `arenas` shows a finite map: the slots from which the chain of empty ones leads to their end are exactly
//! those without a value, since a number starts one such chain at most (`proofs/SlotLaws.antt`), and the map of the values changes with
//! the slots one by one (`proofs/LiveLaws.antt`).
#![tactic(auto)]

mod arenas;
mod block_lists;
mod blocks;
mod faults;
mod ids;
mod limits;
mod places;
mod slots;

pub use arenas::Arena;
pub use faults::ArenaFault;
pub use ids::Id;
pub use limits::{BLOCK_SIZE, MOST_VALUES};
