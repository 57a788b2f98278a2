//! The laws that the record of a cell without uses is held to. The functions here do nothing; their contracts are the laws.
//!
//! `specs/Laws.antt` has them, over `tree_records`' definitions of the record and of the circuit of a layout with labels.
//!
//! # How the proof goes
//!
//! A record without uses is the only element of its tree (`OneElement`), and so its faults are computed (`NoOtherFaults`). Its names are
//! their own full names, and a chain of links never leaves a node, since no name is in two of them (`FlatNames`). So a flat node has the
//! names, the place and the sums of the one node of the record that has its preferred name, and is that node (`SameNodes`). What a
//! place's node goes by is the preferred name of its record (`PreferredNames`), and so gates and terminals keep their names
//! (`SameTerminals`); the transistors are the layout's with their terminals in name order (`SameFets`). `OwnMeanings` has the circuit.
//!
//! The record is lawful (`OwnLawful`), since texts that name and generated names have the forms of names (`NameForms`), and paint is
//! within its range, so that measures and capacitances of nodes (`NodeSizes`) and edges of transistors (`FetSizes`, `LawfulFets`) are
//! few. No two nodes share a name (`NamesDiffer`): a text attaches to one node alone, and of two nodes with one generated name the least
//! places lie on one square and have types of one layer, which connect (`NodesByName`).
#![tactic(auto)]

ghost use Rattle.own_record_laws.specs.Laws.{OwnRecordsAreLawful, OwnRecordsHaveNoOtherFault, OwnRecordsMeanTheLayout};

pub use tree_records::cell_nodes;
/// The record of a cell without uses is lawful, where its paint is sound and of the technology's types.
pub fn own_records_are_lawful()
    ensures { OwnRecordsAreLawful }
{}

/// What the record of a cell without uses means is the circuit that the cell's paint is.
pub fn own_records_mean_the_layout()
    ensures { OwnRecordsMeanTheLayout }
{}

/// The record of a cell without uses means a circuit, unless it has too many nodes or too long names.
pub fn own_records_have_no_other_fault()
    ensures { OwnRecordsHaveNoOtherFault }
{}
