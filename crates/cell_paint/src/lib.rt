//! The paint of a cell: for each plane of a technology the tile type at each square.
//!
//! # How the proof goes
//!
//! What a brush leaves on one plane of a square depends on what stood on that plane alone, where contacts stand whole
//! (`ColumnsLaws`, over `tech_model`). So a whole piece of one type changes as its corner does, space too, and what
//! becomes of a type is found once. The pieces of the areas that change are then the changes of the plane (`ChangeLaws`).
//!
//! Areas go in as the strips of what they cover, which lie apart (`AreaLaws`). Painting a layer twice is painting it once
//! (`AgainLaws`), so paint over all areas at once is paint over each of them in order (`PaintLaws`).
//!
//! The changes of all planes are made ready, and only then is any of them set (`PlaneLaws`). When all are set the
//! layout is the changed one, and what holds of every cell's paint holds of it (`PaintLaws`). What a plane lists of
//! itself is what the paint has on it (`PaintTiles`).
//!
//! What is put back into an area is set on planes that have nothing else, and the pieces that these list of the area, those
//! of space too, are the changes. Tiles that were taken out of the area show what stood there (`PieceLaws`).
#![tactic(auto)]

mod brushes;
mod changes;
mod faults;
mod paints;
mod planes;
mod restorations;

pub use faults::PaintFault;
pub use paints::{CellPaint, PAINT_RANGE, is_coordinate};
