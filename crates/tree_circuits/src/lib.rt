//! The laws of circuits of cells that use each other. The functions here do nothing; their contracts are the laws.
//!
//! `specs/Laws.antt` has them, over the flat layouts and the records of `tree_records`.
//!
//! `specs/FetLaws.antt` has the laws of transistors in cells that use each other.
//!
//! `specs/SumLaws.antt` has the laws of sums over the records of a cell and of all cells below it: what all records together have of a weight is what the cell's groups have of it in the flat layout, since
//! each record's merges say what its groups have more or less than their members.
//!
//! # How the proof goes
//!
//! ## The circuit
//!
//! A circuit that the records of a tree mean has the nodes of the flat layout and its transistors, and the
//! technology and the classes of the root's record, which are those of the layout (`TreeCircuits`).
//!
//! Cells of one name are equally deep, so that a walk through the records never comes back to an open cell (`WalkFaults`). The members of
//! groups are nodes of the own layout, and groups of the elements' cells by the elements' names, so that the paths of merges lead to nodes
//! (`MergePaths`). No two groups share a member, and different members go by the paths of different nodes at and below the cell; so a
//! record has no more merges than there are such nodes, and each node is counted once for each cell that it is at or below
//! (`RecordCounts`, `MergeCounts`). What is left are the numbers of nodes and of bytes in names (`NoOtherFaults`).
//!
//! ## Transistors
//!
//! The own types at a place are those of the cells as they stand there, in order (`StandingTypes`), so what clean cells keep is told of
//! these: a channel of the flat layout has one owner, and beside it roles are kept (`OwnedChannels`). Where roles are kept, the set of one
//! channel neither grows nor shrinks (`SameChannels`), and a transform takes places and edges one for one (`MovedSets`). So the
//! transistors of the flat layout, nodes left out, are those of the cells as they stand (`ChannelSets`); their least places are found
//! among finitely many (`LeastPlaces`).
//!
//! All places of a channel are of one node (`NodesOfChannels`), and an edge that leads to a terminal leads to one in both layouts, so the
//! length to a flat node is the sum of those to the own nodes that lie in it (`RenamedTerminals`, `FlatTransistors`).
//!
//! A node of a cell as it stands has a path in the tree (`StandingPaths`), and so what is found by its full name is its flat node
//! (`FoundNames`, over the laws of names). So each flat transistor that a record means is the record of one of the flat layout
//! (`FlatRecords`): those of a cell as it stands by their least places (`OwnedFets`), and all of them by their owners (`AllFets`).
//! `RecordFets` puts the records of the tree in.
//!
//! ## Sums over records
//!
//! A member has a place, which has material in the flat layout (`MaterialPlaces`), and so the merges tell of its group, or it is alone in
//! its group, which adds nothing (`AllGroups`). No two groups share a member (`GroupNames`), so the members of all groups are those of
//! the cell, each once: the nodes of its own layout (`OwnMembers`), and the groups of its elements' cells (`BelowSums`). What the members
//! of a group have and what the group adds is what it has (`Shares`, `GroupShares`), for each number of a record (`RecordedQuantities`). So the sums
//! of a cell close where those of the cells below it do (`CellSums`), and by recursion they do (`ClosedSums`). The elements of the records
//! are the cells as they stand, so that sums over elements are sums over the tree (`ElementSums`). The names of a flat node are those of
//! whole groups, since records join members with their groups (`GroupTests`), and the places of these groups are its places (`FlatTotals`):
//! so its sums are its measures (`FlatMeasures`). With its names and its point it is the flat layout's node (`FlatNodes`).
#![tactic(auto)]

ghost use Rattle.tree_circuits.specs.FetLaws.{ChannelsAreOwned, ChannelSetsAreOwned, ChannelsStayTheSame, FlatFetsAreRecords};
ghost use Rattle.tree_circuits.specs.FetLaws.{TransistorsAreOfTheFlatLayout};
ghost use Rattle.tree_circuits.specs.Laws.{RecordsStandForTheFlatLayout, TreeRecordsHaveNoOtherFault};
ghost use Rattle.tree_circuits.specs.SumLaws.{CircuitsHaveTheFlatNodes, ElementsHaveTheSums, FlatNodesAreMeasured, FlatNodesHaveTheSumsOfTheirGroups};
ghost use Rattle.tree_circuits.specs.SumLaws.{FlatNodesHaveTheSumsOfTheirPlaces, GroupTotalsAreUnique, NamesAreThoseOfGroups, SumsOfRecordsClose};

/// The circuit that the records of a clean cell and of all below it mean is that of the cell's flat layout.
pub fn records_stand_for_the_flat_layout()
    ensures { RecordsStandForTheFlatLayout }
{}

/// The records of a clean cell and of all below it have no other fault than too many nodes or too long names, where chains and instances
/// are no more than may be.
pub fn tree_records_have_no_other_fault()
    ensures { TreeRecordsHaveNoOtherFault }
{}

/// The channels of a clean cell's flat layout are own channels of the cells as they stand, each of exactly one.
pub fn channels_are_owned()
    ensures { ChannelsAreOwned }
{}

/// The set of one channel of an own layout is the set of one channel of the flat layout, with as many squares and edges.
pub fn channels_stay_the_same()
    ensures { ChannelsStayTheSame }
{}

/// Each transistor of the flat layout, nodes left out, is that of one cell as it stands, and each of a cell as it stands is one of the
/// flat layout.
pub fn channel_sets_are_owned()
    ensures { ChannelSetsAreOwned }
{}

/// Each transistor of a cell as it stands is one of the flat layout: the terminals that are of one flat node are made one, as long as they
/// are together, and what is written for the gate stays.
pub fn transistors_are_of_the_flat_layout()
    ensures { TransistorsAreOfTheFlatLayout }
{}

/// The flat transistors that the records of a clean cell and of all below it mean are the records of the flat layout's transistors.
pub fn flat_fets_are_records()
    ensures { FlatFetsAreRecords }
{}

/// What the records of a clean cell and of all cells below it have together is what the cell's groups have in the flat layout.
pub fn sums_of_records_close()
    ensures { SumsOfRecordsClose }
{}

/// All lists of a cell's groups with their totals have the same sums.
pub fn group_totals_are_unique()
    ensures { GroupTotalsAreUnique }
{}

/// What the elements of the records of a tree have of a flat node is what the tree's records have of it.
pub fn elements_have_the_sums()
    ensures { ElementsHaveTheSums }
{}

/// What the elements of the records of a clean cell have of a flat node, where its names are those of whole groups, is the total of these.
pub fn flat_nodes_have_the_sums_of_their_groups()
    ensures { FlatNodesHaveTheSumsOfTheirGroups }
{}

/// The names of a flat node that the records of a clean cell mean are those of whole groups.
pub fn names_are_those_of_groups()
    ensures { NamesAreThoseOfGroups }
{}

/// What the elements of the records of a clean cell have of a flat node that they mean is what is on its places in the flat layout.
pub fn flat_nodes_have_the_sums_of_their_places()
    ensures { FlatNodesHaveTheSumsOfTheirPlaces }
{}

/// A flat node that the records of a clean cell mean has the areas, perimeters and capacitance of the flat layout's node.
pub fn flat_nodes_are_measured()
    ensures { FlatNodesAreMeasured }
{}

/// The nodes that the records of a clean cell and of all below it mean are those of its flat layout.
pub fn circuits_have_the_flat_nodes()
    ensures { CircuitsHaveTheFlatNodes }
{}
