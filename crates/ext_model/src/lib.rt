//! What a circuit file says of a cell: its uses, nodes, transistors and merges; the flat circuit that such records make; the
//! order in which names of nodes stand; and a table of the records of cells.
//!
//! # Which records are lawful
//!
//! The records are plain data. Which of them a circuit file may have is said by `IsLawful` in `specs/Lawful.antt`: the forms
//! and ranges of names and numbers, that no two nodes share a name, and that whatever is named is there.
//!
//! # How the proof goes
//!
//! The name order compares lists of numbers, so its laws are those of lists (`NameOrders`). Laws of paths go by recursion on the
//! names of the elements: `PathOrders` has what one name before a path changes of its kind, slashes, length and bytes, `PartOrders`
//! takes the bytes apart at their slashes, and `PathNames` finds the last name. `NameKinds` ties kinds to last bytes, and
//! `RecordNameLaws` the paths of a record to its names. `EntryLaws` shows the entries of a hash table as a finite map, which a change
//! of one entry changes as it should.
#![tactic(auto)]

mod arrays;
mod circuits;
mod ids;
mod laws;
mod limits;
mod names;
mod records;
mod tables;

pub use arrays::{ArrayExt, ArrayUse, MergeRow};
pub use circuits::Circuit;
pub use ids::is_use_id;
pub use laws::{
    full_names_go_by_parts, kinds_tell_global_names, name_order_is_total,
    paths_name_nodes_or_lead_into_elements,
};
pub use limits::{
    ELEMENT_EDGE, FET_EDGE, LENGTHS_EDGE, LONGEST_USE_ID, MEASURE_EDGE, MOST_CLASSES, SHIFT_EDGE,
};
pub use names::{GENERATED_MARK, GLOBAL_MARK, NameKind, SLASH, compare_names, kind_of_name};
pub use records::{
    CellExt, FetRec, MergeRec, NodeRec, Part, TermRec, UseRec, copy_numbers, copy_parts,
};
pub use tables::{CellKey, ExtEntry, ExtTable};
