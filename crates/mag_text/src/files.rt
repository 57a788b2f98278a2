//! What the lines of a mag text say, and the sections that they stand in.

use crate::faults::MagFault;
use geo_core::{Grid, Rect};
use names_lists::Name;
use tech_model::{Label, LayerId};

/// A rectangle of a cell's file: the area over which a layer is painted.
#[derive(Clone, Copy, Debug, PartialEq, Eq)]
pub struct Drawn {
    pub layer: LayerId,
    pub area: Rect,
}

/// What a line `<< NAME >>` begins.
#[derive(Clone, Copy, Debug, PartialEq, Eq)]
pub enum Group {
    /// Rectangles of the layer.
    Paint(LayerId),
    /// Labels.
    Labels,
    /// Lines that are read over.
    ReadOver,
}

/// Which of the lines of a header have been.
#[derive(Clone, Copy, Debug, PartialEq, Eq)]
pub struct Seen {
    pub tech: bool,
    pub timestamp: bool,
    pub scale: bool,
}

/// The last line of a use that was read, of those before its `box`.
#[derive(Clone, Copy, Debug, PartialEq, Eq)]
pub enum UsePart {
    /// `use`: the child and the id.
    Named,
    /// `array`: the grid.
    Arrayed,
    /// `timestamp`.
    Dated,
    /// `transform`: where the use stands.
    Placed,
}

/// The section that a line of a text stands in.
#[derive(Clone, Copy, Debug, PartialEq, Eq)]
pub enum Section {
    /// The first line.
    Start,
    /// Before the first group and the first use.
    Header(Seen),
    /// A group.
    Inside(Group),
    /// A use, of which this line was the last that was read.
    Use(UsePart),
    /// Behind a use.
    Between,
    /// Behind the line `<< end >>`.
    Ended,
}

/// What a line says by itself, wherever it stands.
///
/// A fault that stands in place of a value counts only where such a line can stand.
#[derive(Debug, Drop)]
pub enum MagLine {
    /// Nothing: the line is blank or a comment.
    Nothing,
    /// The technology, whose name is not compared.
    Tech,
    /// The time of the last change, which is not kept.
    Timestamp(Result<i64, MagFault>),
    /// The scale of the cell.
    Scale(Result<(u32, u32), MagFault>),
    /// A group begins.
    Group(Result<Group, MagFault>),
    /// The last line that is read.
    End,
    /// A rectangle.
    Area(Result<Rect, MagFault>),
    /// A label.
    Label(Result<Label, MagFault>),
    /// A use begins: its child and its id.
    Use(Name, Name),
    /// The grid of a use.
    Array(Result<Grid, MagFault>),
    /// The six numbers by which a use stands.
    Transform(Result<[i64; 6], MagFault>),
    /// The box of a use, which is read over.
    Box,
}
