//! What a cell has.

use cell_paint::CellPaint;
use geo_core::Grid;
use names_lists::{List, Name};
use tech_model::Label;

/// A use of a cell, its child, in another one: the child's name, the id of the use, where it stands, and the grid where it stands in
/// rows and columns.
///
/// A use stands as the transform of its six numbers takes the child: `x' = six[0]*x + six[1]*y + six[2]` and
/// `y' = six[3]*x + six[4]*y + six[5]`, in lambda.
#[derive(Debug)]
pub struct CellUse {
    pub cell: Name,
    pub id: Name,
    pub six: [i64; 6],
    pub grid: Option<Grid>,
}

impl Drop for CellUse {
    fn drop(self) {
        let CellUse {
            cell: _,
            id: _,
            six: _,
            grid: _,
        } = self;
    }
}

/// What a cell has: its own paint, its uses and its labels, each in their order, and its scale, of which lambda is the first number
/// divided by the second.
#[derive(Drop)]
pub struct CellBody {
    pub paint: CellPaint,
    pub uses: List<CellUse>,
    pub labels: List<Label>,
    pub scale: (u32, u32),
}
