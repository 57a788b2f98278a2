//! What a sim text says, as a whole and in each of its lines.

use names_lists::{List, Name};

/// A transistor between two nodes.
#[derive(Debug)]
pub struct SimFet {
    /// The letter of its kind: e, n, p or d in a text that is read.
    pub letter: u8,
    pub gate: Name,
    pub source: Name,
    pub drain: Name,
    /// Length, width, and the two coordinates of its point, in lambda.
    pub numbers: [i128; 4],
}

impl Drop for SimFet {
    fn drop(self) {
        let SimFet {
            letter: _,
            gate: _,
            source: _,
            drain: _,
            numbers: _,
        } = self;
    }
}

/// A circuit as a sim text spells it, each list in the order of its lines.
#[derive(Debug)]
pub struct SimFile {
    /// The technology's name.
    pub tech: Name,
    pub fets: List<SimFet>,
    /// Nodes, each with its capacitance in thousands of attofarads.
    pub caps: List<(Name, i128)>,
    /// Nodes, each with another name that it has.
    pub aliases: List<(Name, Name)>,
}

impl Drop for SimFile {
    fn drop(self) {
        let SimFile {
            tech: _,
            fets: _,
            caps: _,
            aliases: _,
        } = self;
    }
}

/// What a line says.
#[derive(Debug, Drop)]
pub enum SimLine {
    /// The first line: the technology's name.
    Header(Name),
    Fet(SimFet),
    /// A node and its capacitance.
    Cap(Name, i128),
    /// A node and another name of it.
    Alias(Name, Name),
    /// Nothing: the line is read over.
    Nothing,
}
