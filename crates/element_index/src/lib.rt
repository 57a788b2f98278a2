//! Which names of elements the uses of a circuit file give. They are held as rectangles, and no grid is ever taken apart.
//!
//! Each id has a number. The element `id[i,j]` is the square in column i of row j of the id's rows, and an element without indices a
//! square in a column of its own. So a use is one rectangle, and two uses give a name both where their rectangles meet.
//!
//! # How the proof goes
//!
//! A name is cut at its brackets and its comma, each of which stands in it once, so its parts are those that it was made of (`IdLaws`,
//! `PartLaws`). With the id's number they tell the square, and the square tells them: a name has one square, and a square one name
//! (`SquareLaws`). The names of a use have the squares of one rectangle (`BlockLaws`). What an index holds (`specs/Holds.antt`) is then
//! said of squares: those that its rectangles cover are those of its names. A use more adds its names to one side and its rectangle
//! to the other, and a name that two lists share is a square that both cover (`HoldLaws`). Strips of the rectangles cover the same
//! squares, and a strip has no square on its right: so a row of names is known where the strip with its first square goes past its last
//! (`RowLaws`). `PlainNames` ties the names that a use gives to the uses that its record means.
#![tactic(auto)]

mod forests;
mod index;
mod known;
mod limits;
mod name_parts;
mod uses;

pub use index::ElementIndex;
pub use known::KnownElements;
pub use name_parts::indexed_parts;
pub use uses::UseElements;
