//! The laws that the CIF text of a cell is held to. The functions here do nothing; their contracts are the laws.
//!
//! `specs/CellCifs.antt` has what such a text says (`IsCellCif`), `cif_model` what any text means (`Means`), and `layout_model` the flat layout of a
//! cell with all that stands below it (`flat_sets`). `specs/CellMeanings.antt` has the law: the layer of each part has exactly the squares where
//! the flat layout has the part.
//!
//! # How the proof goes
//!
//! A square is covered by a box that a call moves exactly where the square that the call moves to it is covered by the box itself. So what
//! items mean is what a box among them covers, and what the items of a called symbol mean at the square that is moved to this one
//! (`ItemMeanings`). The flat layout of a tree is told in the same way: a part is a set with one bit (`BitParts`), so it is in the set of a
//! place where it is in the set of the cell's own type there, or in that of an element at the place that is moved to this one (`TreeParts`).
//!
//! The boxes on the layer of a part cover what holds the part of the cell's own paint, for parts have names that differ (`PartBoxes`). The
//! calls are those of the elements of the cell's uses, but for children without a hull (`UseCalls`), in which no place has a part
//! (`LibraryMeanings`), and the steps of a call are the element's transform. So a symbol means the tree of its cell if those that it calls
//! do (`SymbolMeanings`); they stand before it, as children stand before parents in library order (`SymbolPlaces`). The top level calls the
//! root's symbol without steps (`CellMeanings`). And what the text of a cell is read as is what the cell says (`cif_texts`).

ghost use Rattle.file_laws.specs.CellMeanings.{CellTextsAreReadAsTheLayout, CellTextsMeanTheLayout};

use crate::cif_texts::written_texts_are_read;

/// What the CIF text of a cell of a lawful library says means the flat layout of the cell: the layer of each part has exactly the squares where
/// something at or below the cell has the part on some plane.
pub fn cell_texts_mean_the_layout()
    ensures { CellTextsMeanTheLayout }
{}

/// The CIF text of a cell of a lawful library is read without fault, and what is read means the flat layout of the cell: the layer of each part has
/// exactly the squares where something at or below the cell has the part on some plane.
pub fn cell_texts_are_read_as_the_layout()
    ensures { CellTextsAreReadAsTheLayout }
{
    written_texts_are_read();
    cell_texts_mean_the_layout();
}
