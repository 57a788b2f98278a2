//! Changes of one cell, by which edits are taken back.

use cell_tree::UseBody;
use ext_model::CellKey;
use geo_core::{Grid, Piece, Rect};
use names_lists::{List, Name};
use tech_model::Label;

/// A change of one cell.
#[derive(Drop)]
pub enum Change {
    /// These pieces of planes stand in the area, and space between them.
    Repaint(Rect, List<(u8, Piece)>),
    /// A use of this id comes to this place among the uses.
    InsertUse(usize, Name, UseBody),
    /// The use of this id goes.
    DeleteUse(Name),
    /// The use of this id moves so much to the right and upward.
    MoveUse(Name, i64, i64),
    /// The use of this id has this grid, or none.
    SetGrid(Name, Option<Grid>),
    /// A label comes last.
    AddLabel(Label),
    /// The last label goes.
    DropLabel,
    /// The labels are these.
    SetLabels(List<Label>),
}

/// A change of a cell that takes an edit back.
#[derive(Drop)]
pub struct Inverse {
    pub cell: CellKey,
    pub change: Change,
}
