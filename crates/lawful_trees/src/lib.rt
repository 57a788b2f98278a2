//! The records of a library's cells are lawful: their names and numbers are such as a circuit file may have. The function here does
//! nothing; its contract is the law.
//!
//! # How the proof goes
//!
//! The material of a cell lies in its hull, and so within the range of paint, on the planes of the technology (`NearPlaces`). So the nodes
//! and the transistors of the own layout are lawful as in a record without uses (`OwnParts`, over laws of `own_record_laws`).
//!
//! The uses of a cell have the form that they have in a record (`LibraryUses`). An id, and what stands behind it in the name of an element of
//! an array, has bytes of words and no slash (`ElementForms`). A grid of a lawful use has at most a million elements whose separations are below 2^27, so it displaces them by less than 2^47, and the use by less
//! than 2^27 more: less than the 2^52 that an element may have (`ElementPlaces`). `LibraryElements` has that of each element of a cell, and
//! the forms of the names of all elements at and below it.
//!
//! The paths of a merge are members of a group: names of nodes of the own layout, or an element's name before the name of a group of its
//! cell, which is the path of a node (`TreePaths`).
//!
//! A type is in one class at most, a place has four edges and a class counts at most a million for each, so a place counts at most five
//! million, which is below 2^23, for an area, a perimeter or a capacitance (`SmallWeights`). There are fewer than 2^57 places where there may
//! be paint, and a cell has fewer than 2^20 parts. A member counts what its places count in its part, and different members share no place
//! of a part, so what the members of a group have together is less than 2^100, and so is what the group has (`FewPlaces`, `MemberSums`).
//! Neither is negative, and an adjustment is their difference: it has the size of a measure (`LawfulMerges`). `LawfulTrees` puts the
//! record together.
#![tactic(auto)]

ghost use Rattle.std.specs.Prelude.{◌<◌, length};
ghost use Rattle.lawful_trees.specs.Laws.{RecordIsLawful};

use ext_model::CellKey;
pub use library_trees;
use library_trees::cell_library::Reader;

/// The record of the cell is lawful where the cell is clean. It does nothing.
pub fn record_is_lawful(library: &Reader<'_>, cell: CellKey)
    requires { cell.0 < length library.now.contents }
    ensures { RecordIsLawful library.now cell.0 }
{
    library.lawful();
    library.typed(cell);
}
