//! The cells of a library as trees with names and labels. The functions here do nothing; their contracts are the laws.
//!
//! `specs/NamedCells.antt` has the named tree of a cell: as `cell_library` has its tree of layouts, with the names of elements, which
//! `specs/ElementNames.antt` has, and with the names and labels of cells. `specs/Laws.antt` has the laws.
//!
//! `specs/RecordLaws.antt` has the laws of the records that are kept of the cells of a library, and the records of a cell's tree.
//!
//! # How the proof goes
//!
//! ## Trees
//!
//! The elements of a use are displaced as those of the tree of layouts are, so without names and labels the trees are the same
//! (`LayoutLaws`). Depth falls from a cell to its children, so a tree that is unfolded as far as the cell's depth is whole
//! (`WholeTrees`), and no deeper than the cell (`TreeDepths`). An id has no slash and no bracket, nor has a number, so what stands before
//! the first bracket of an element's name tells the use, and what stands behind it tells the two indices (`TextCuts`, `ElementNameLaws`):
//! the names of elements differ (`TreeNameLaws`). A tree is made of what is seen of the cells that chains of uses lead to
//! (`AgreeingViews`), and an edit changes one cell (`EditedTrees`), and raises the stamps of all cells above it (`StampedTrees`). What is
//! asked of clean trees is then what is known of trees of layouts, and of names (`CleanTrees`).
//!
//! ## Records of trees
//!
//! A list of records, each kept of a cell and with its name, has one record of that name, as the names of cells differ: by the name it is found
//! (`NamedRecords`). Depth falls from a cell to its children, and the tree of a cell has the trees of its children, so by depth each cell of the
//! tree has its record. For the first law the list is that of all records that are kept with the name of their cell (`RecordedTrees`).
#![tactic(auto)]

ghost use Rattle.library_trees.specs.Laws.{AreChainsShort, CleanCellHasCleanTree, EditsKeepOtherTrees, ElementNamesTellElements};
ghost use Rattle.library_trees.specs.Laws.{NamedTreesAreOfTheCellsBelow, NamedTreesHaveTheLayouts, NamedTreesUnfold};
ghost use Rattle.library_trees.specs.Laws.{NewCellsKeepTrees, StampsTellChangedTrees};
ghost use Rattle.library_trees.specs.RecordLaws.{KeptRecordsAreOfTheTree, ListedRecordsAreOfTheTree};
ghost use Rattle.std.specs.Prelude.{◌<◌, length};

pub use cell_library;
use cell_library::Reader;
use ext_model::CellKey;
pub use tree_names::cell_nodes;

/// Without names and labels, the named tree of a cell is its tree of layouts.
pub fn named_trees_have_the_layouts()
    ensures { NamedTreesHaveTheLayouts }
{}

/// The named tree of a cell has the named trees of its children.
pub fn named_trees_unfold(library: &Reader<'_>)
    ensures { NamedTreesUnfold library.now }
{
    library.lawful();
}

/// The names of the elements of each cell at and below a cell have no slash, and differ.
pub fn element_names_tell_elements(library: &Reader<'_>)
    ensures { ElementNamesTellElements library.now }
{
    library.lawful();
}

/// The chains of elements of a cell are short enough for the records of cells to be read along them.
pub fn chains_are_short(library: &Reader<'_>)
    ensures { AreChainsShort library.now }
{
    library.lawful();
}

/// The named tree of a cell is made of what is seen of the cells at and below it alone.
pub fn named_trees_are_of_the_cells_below()
    ensures { NamedTreesAreOfTheCellsBelow }
{}

/// An edit of a cell keeps the named trees of all cells that it is not, and does not stand below.
pub fn edits_keep_other_trees()
    ensures { EditsKeepOtherTrees }
{}

/// A new cell keeps the named trees of all cells of the library.
pub fn new_cells_keep_trees(library: &Reader<'_>)
    ensures { NewCellsKeepTrees library.now }
{
    library.lawful();
}

/// An edit of a cell keeps the named trees of all cells whose stamps it keeps.
pub fn stamps_tell_changed_trees(library: &Reader<'_>)
    ensures { StampsTellChangedTrees library.now }
{
    library.lawful();
}

/// The named tree of a clean cell is clean.
pub fn clean_cell_has_clean_tree(library: &Reader<'_>, cell: CellKey)
    requires { cell.0 < length library.now.contents }
    ensures { CleanCellHasCleanTree library.now cell.0 }
{
    library.lawful();
    library.typed(cell);
}

/// Where records are kept of all cells below a cell, the elements of its tree have the records of some list.
pub fn kept_records_are_of_the_tree(library: &Reader<'_>)
    ensures { KeptRecordsAreOfTheTree library.now }
{
    library.lawful();
}

/// A list of the kept records of all cells at and below a cell has the records of the cell's tree.
pub fn listed_records_are_of_the_tree(library: &Reader<'_>)
    ensures { ListedRecordsAreOfTheTree library.now }
{
    library.lawful();
}
