//! The laws that a library and its cells are held to: edits are refused for one fault, cells have one hull and one text, and one cell is the
//! first that is not clean. The functions here do nothing; their contracts are the laws.
//!
//! # How the proof goes
//!
//! Faults are told in a chain, each where its condition holds and none before it does. That a condition both holds and does not is absurd,
//! so two faults of a chain are one, and it need not be decided which (`OneFault`). Each edit has such a chain (`LibraryFaults`), and a command
//! looks up what it names first (`CommandFaults`).
//!
//! Cells have one list of own boxes, and each has the size that those of its children give: whatever sizes there are, a child is less deep
//! than its parent, so they agree from the bottom up, as far as uses lead to cells (`OneHull`). The text tells of a cell what has one value:
//! the scale, the strips of its layers, its uses with the hulls of their children, and its labels (`OneText`).
//!
//! A set of squares has one list of strips, plane by plane, and a library has one order below a root (`OneUncleanCell`). Each use has an
//! element, and the tree of a cell has those of its children, so what a clean cell uses is clean (`CleanBelow`).

ghost use Rattle.uniqueness.specs.Hulls.{CellTextsAreUnique, HullsAreUnique};
ghost use Rattle.uniqueness.specs.Refusals.{CommandFaultsAreUnique, CommandsHaveOneOutcome, LibraryFaultsAreUnique};
ghost use Rattle.uniqueness.specs.UncleanCells.{CleanCellsHaveNoneBelow, FirstUncleanCellsAreUnique, OffendingSquaresAreUnique};
ghost use Rattle.uniqueness.specs.UncleanCells.{UncleanCellsBelowAreUnique};

/// Each edit of a library is refused for one fault.
pub fn library_faults_are_unique()
    ensures { LibraryFaultsAreUnique }
{}

/// Each command is refused for one fault, and what comes of it, but for want of memory, is one.
pub fn command_outcomes_are_unique<X>()
    ensures faults { CommandFaultsAreUnique }
    ensures outcomes { CommandsHaveOneOutcome X }
{}

/// A cell of a library has one hull.
pub fn hulls_are_unique()
    ensures { HullsAreUnique }
{}

/// A cell of a library has one text.
pub fn cell_texts_are_unique()
    ensures { CellTextsAreUnique }
{}

/// The squares of a cell that offend have one list of strips.
pub fn offending_squares_are_unique()
    ensures { OffendingSquaresAreUnique }
{}

/// The first cell that is not clean is one, in an order of cells and at or below a root; below a clean cell there is none.
pub fn unclean_cells_are_unique()
    ensures first { FirstUncleanCellsAreUnique }
    ensures below { UncleanCellsBelowAreUnique }
    ensures clean { CleanCellsHaveNoneBelow }
{
    offending_squares_are_unique();
}
