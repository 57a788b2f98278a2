//! A cell with all that stands below it determines its records: there is one list of merges of its groups, one record of the cell, and one of
//! each cell below it. The functions here do nothing; their contracts are the laws.
//!
//! # How the proof goes
//!
//! The name of a member tells whether it is a node of the own layout or a group of an element's cell, and of which element; so it has one
//! total, and a group adds one number to its members (`SameTotals`). Groups with one name have the same places, and so the same members,
//! which stand in name order, and the same adjustment (`SameGroups`). A group of one member with nothing to add may be listed or not, but it
//! has no merge. Each other group has a place, which has material in a clean cell, so it is in the other list too; and groups stand in name
//! order (`SameMerges`). With the nodes and the transistors of the own layout (`own_records`) this is the cell's record, and by
//! recursion over what stands below it that of each cell there (`SameTreeRecords`).

ghost use Rattle.uniqueness.specs.RecordUniqueness.{GroupMergesAreUnique, RecordsOfTreesAreUnique, TreeRecordsAreUnique};

/// The groups of a clean cell have one list of merges.
pub fn group_merges_are_unique()
    ensures { GroupMergesAreUnique }
{}

/// A clean cell has one record.
pub fn tree_records_are_unique()
    ensures { TreeRecordsAreUnique }
{}

/// All lists of the records of a clean cell and of all cells below it have one record of each of them.
pub fn records_of_trees_are_unique()
    ensures { RecordsOfTreesAreUnique }
{}
