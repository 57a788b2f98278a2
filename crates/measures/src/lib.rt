//! Areas and perimeters of regions, by class.
#![tactic(auto)]

mod columns;
mod sizes;
mod tables;

pub use flood_nodes;
pub use sizes::{area_of, perimeter_of};
pub use tables::{MeasureRow, Measures, measure, measure_tiles};
