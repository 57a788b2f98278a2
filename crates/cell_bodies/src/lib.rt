//! What a cell has, and the forms of its words and numbers.
//!
//! A body is what a cell's file says and what a library is handed. The tests are those that a reader of files, a reader of
//! commands and a library make alike.
#![tactic(auto)]

mod bodies;
mod forms;
mod limits;

pub use bodies::{CellBody, CellUse};
pub use cell_paint;
pub use ext_model::{LONGEST_USE_ID, is_use_id};
pub use forms::{
    are_few_elements, grids_of_uses_are_lawful, has_sides, is_displacement, is_grid, is_index,
    is_label_area, is_label_text, is_position, is_scale_number, without_outer_blanks,
};
pub use limits::{DISPLACEMENT_EDGE, LARGEST_SCALE, LAST_POSITION, MOST_USES};
