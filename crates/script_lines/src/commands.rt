//! The commands of a script.

use geo_core::Rect;
use names_lists::Name;

/// What a line of a script asks for. The fields are the further words of the line in their order.
///
/// The names of cells and files are plain, ids of uses and texts of labels have their forms, and the name of a layer may be any
/// word. Rectangles may be empty. Numbers fit 32 bits with sign.
#[derive(Debug, Drop)]
pub enum Command {
    /// `tech FILE`: read the technology of the file.
    Tech(Name),
    /// `load CELL`: read the files of the cell and of those below it.
    Load(Name),
    /// `new CELL`: make an empty cell.
    New(Name),
    /// `edit CELL`: make the cell the current one.
    Edit(Name),
    /// `paint LAYER XLO YLO XHI YHI`: paint the rectangle with the layer.
    Paint(Name, Rect),
    /// `erase LAYER XLO YLO XHI YHI`: erase the layer from the rectangle.
    Erase(Name, Rect),
    /// `place CELL ID A B C D E F`: place a use of the cell, by the six numbers of a transform.
    Place(Name, Name, [i64; 6]),
    /// `array ID XLO XHI XSEP YLO YHI YSEP`: make the use an array, by the six numbers of a grid.
    Array(Name, [i64; 6]),
    /// `move ID DX DY`: displace the use.
    Move(Name, i64, i64),
    /// `delete ID`: take the use away.
    Delete(Name),
    /// `label LAYER XBOT YBOT XTOP YTOP POSITION TEXT`: attach a label. The position is from 0 to 8.
    Label(Name, Rect, i64, Name),
    /// `unlabel TEXT`: take the labels with the text away.
    Unlabel(Name),
    /// `undo`: take the latest edit back.
    Undo,
    /// `redo`: make the latest edit again that was taken back.
    Redo,
    /// `save CELL`: write the file of the cell.
    Save(Name),
    /// `nodes CELL`: tell the nodes of the cell's own paint.
    Nodes(Name),
    /// `squares CELL`: tell the squares by which the cell and those below it are not clean.
    Squares(Name),
    /// `drc CELL FILE`: tell the squares of the cell at which it violates the design rules of the file.
    Drc(Name, Name),
    /// `cif CELL`: write the cell and those below it as a CIF text.
    Cif(Name),
    /// `cifstat FILE`: tell the areas of the layers of a CIF text.
    Cifstat(Name),
    /// `extract CELL`: extract the cell and those below it.
    Extract(Name),
    /// `flat CELL`: write the flat circuit of the cell.
    Flat(Name),
    /// `sim CELL`: write the switches of the cell.
    Sim(Name),
    /// `vectors CELL FILE`: simulate the cell with the vectors of the file.
    Vectors(Name, Name),
    /// `grade CELL FILE`: tell which stuck faults of the cell the vectors of the file detect.
    Grade(Name, Name),
    /// `generate N`: make a cell of that many rows with as many tiles in each, and simulate it. The number is from 1 to 500.
    Generate(i64),
    /// `ext2sim CELL`: write the switches of circuit files.
    Ext2sim(Name),
    /// `simrun CELL FILE`: simulate the switches of a file with the vectors of another.
    Simrun(Name, Name),
}
