//! What a line of a circuit file says by itself.

use names_lists::{List, Name};

/// A decimal number, or nothing where 128 bits do not hold it. What its range is counts only once the whole line has a form.
pub type Numeral = Option<i128>;

/// The numbers of a use, or of a grid.
pub type Six = (Numeral, Numeral, Numeral, Numeral, Numeral, Numeral);

/// Which version of the format a file is of.
#[derive(Clone, Copy, Debug, PartialEq, Eq)]
pub enum Version {
    One,
    Two,
    /// Another word stands in its place.
    Other,
}

/// A line of the header.
#[derive(Debug, Drop)]
pub enum HeaderLine {
    /// The technology's name.
    Tech(Name),
    Timestamp,
    Version(Version),
    Style,
    Scale,
    /// The values of the classes.
    Classes(List<Numeral>),
}

/// The id of a use, and the numbers of its grid where it is an array.
#[derive(Debug, Drop)]
pub struct UseName {
    pub id: Name,
    pub grid: Option<Six>,
}

/// A use.
#[derive(Debug, Drop)]
pub struct UseLine {
    pub cell: Name,
    pub name: UseName,
    pub six: Six,
}

/// A node, and for each class an area and a perimeter, one behind the other.
#[derive(Debug, Drop)]
pub struct NodeLine {
    pub name: Name,
    pub cap: Numeral,
    pub x: Numeral,
    pub y: Numeral,
    pub kind: Name,
    pub measures: List<Numeral>,
}

/// A gate or a terminal of a transistor.
#[derive(Debug, Drop)]
pub struct SideLine {
    pub node: Name,
    pub length: Numeral,
}

/// The point of a transistor and the far corner of its square.
#[derive(Clone, Copy, Debug)]
pub struct Corners {
    pub x: Numeral,
    pub y: Numeral,
    pub far_x: Numeral,
    pub far_y: Numeral,
}

/// A transistor.
#[derive(Debug, Drop)]
pub struct FetLine {
    pub kind: Name,
    pub corners: Corners,
    pub area: Numeral,
    pub perimeter: Numeral,
    pub substrate: Name,
    pub gate: SideLine,
    pub terminals: List<SideLine>,
}

/// Two paths to one node, and what is added to the sum of the parts' measures.
#[derive(Debug, Drop)]
pub struct MergeLine {
    pub first: Name,
    pub second: Name,
    pub cap: Numeral,
    pub measures: List<Numeral>,
}

/// The path of a range of elements: the id of their use, the first and the last index i, the index j, and what stands behind the slash.
#[derive(Debug, Drop)]
pub struct ElementRange {
    pub id: Name,
    pub lo: i64,
    pub hi: i64,
    pub j: i64,
    pub rest: Name,
}

/// What a line says.
#[derive(Debug, Drop)]
pub enum ExtLine {
    /// Nothing: the line is blank.
    Nothing,
    Header(HeaderLine),
    Use(UseLine),
    Node(NodeLine),
    /// A name of a node, and another name of it.
    Equiv(Name, Name),
    Fet(FetLine),
    Merge(MergeLine),
}

/// Which lines of the header have been read.
#[derive(Clone, Copy, Debug)]
pub struct Seen {
    pub tech: bool,
    pub timestamp: bool,
    pub version: bool,
    pub style: bool,
    pub scale: bool,
    pub classes: bool,
}
