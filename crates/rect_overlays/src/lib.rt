//! Rectangles laid over each other: the pieces that they make, and which of them cover each piece.
//!
//! A region is an area with the rectangles that have squares in it, its members. A list of regions that are still to be looked at begins
//! with one, what goes round all rectangles. One at a time is taken from its end: it is a stack if all its members go round it, and
//! else it is cut in two along a side of one of them, and what the members have of either half is put back, drawn in to what
//! goes round that. Which side it is matters for speed alone. A region of few members that lie apart is not cut: what each of
//! them has of it is a stack. The members of all regions, which are indices of the list, stand in one list, those of one region
//! behind those of another, so that a region takes no memory of its own.
//!
//! # How the proof goes
//!
//! The stacks so far and the regions to come lie apart, and have each square that a rectangle covers (`Splitting`). To make a
//! stack of a region changes no square of either, and the two halves of a region lie apart and have all of it (`Halves`). Where
//! members lie apart, no other rectangle covers a square of what one has of the region, since it would be a member too (`Apart`).
//! A region that is drawn in loses no square that its rectangles cover, and its members stay those of the list that have squares
//! in it, in order (`Parts`; `Begin` for the first). What is kept of regions, their areas, counts and members in a row, is a list
//! of regions to which one is added and from whose end one is taken (`Held`, `Turns`). Twice the number of squares in all
//! regions, less the number of regions, falls at each turn, and so the turns come to an end (`Weights`).
#![tactic(auto)]

mod cuts;
mod regions;
mod singles;
mod stacks;

pub use rect_contacts;
pub use rect_contacts::geo_strips;
pub use stacks::{Stack, overlay};
