//! Searches over rectangles of the grid.
//!
//! # How the proof goes
//!
//! Rectangles that have no square in common are apart in x or in y (`Apart`), so the sides that they have on one line,
//! once sorted, each end before the next begins (`Sorting`). Over two lists of such sides the search keeps that what it
//! found are the meetings of sides of which one is passed (`Sweep`): the side that ends first meets nothing that comes
//! later. `Touches` goes from meetings of sides to contacts of rectangles, with the laws of `overlap` and of the four
//! edges (`Intervals`, `Shared`).
//!
//! That lengths count edges of squares goes by counting integers: those of one range that lie in another (`Counting`)
//! give the edges from one rectangle to another or to itself (`Leading`), and what is left over is open (`Opening`).
//! A sum over contacts is a sum over ordered pairs of places, and so half of one over all pairs (`BothWays`).
//!
//! The rectangles of two lists that have squares in common come from a sweep over their beginnings and ends, in order
//! (`EventOrder`). What a line crosses of one list lies apart along it, so a rectangle that begins meets some of them in a
//! row (`RowLaws`). Each turn keeps that the rows have what has begun and not ended, and that the pairs found are those
//! of rectangles that have begun (`CommonSweep`).
#![tactic(auto)]

mod actives;
mod contacts;
mod edges;
mod events;
mod overlapping;
mod sides;

pub use contacts::{Contact, touching};
pub use edges::lengths_count_edges;
pub use geo_strips;
pub use overlapping::overlaps;
