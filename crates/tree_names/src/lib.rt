//! The laws of names in cells that use each other. The functions here do nothing; their contracts are the laws.
//!
//! `specs/Laws.antt` has them, over `named_trees`' groups and paths and `tree_records`' records, and over the elements and full names of
//! `circuit_model`. A tree is clean where its cells are and the names of its elements are in order (`specs/CleanTrees.antt`).
//!
//! # How the proof goes
//!
//! What a part has is within the flat type, and so its links are links of the flat layout, and its texts stand there (`LiftedLinks`). By
//! recursion over what stands below a cell, the places of a group are of one flat node (`GroupNodes`). The elements of the records are the
//! cells of the tree as they stand, one for one (`TreeElements`), since the uses of a record are the elements of its cell.
//!
//! A name of a node of an own layout tells the node (`OwnNames`, over the laws of a cell without uses) and has no slash, so a name of a
//! member tells the element that it lies in by what stands before its first slash (`Paths`), and by recursion names of groups tell groups
//! (`GroupNames`). The name of a group is the path of a node in it (`Representatives`). The merges of a record join the name of each group
//! with its members (`GroupMerges`), and the names of a node are joined by its record (`RecordedNodes`): so each path of a place is joined
//! with the name of the place's group (`ToGroups`), and joined paths have places of one flat node (`JoinedPaths`).
//!
//! Places with one path are of one flat node (`OnePath`), and so are places with paths to one global name, since a label gives it to
//! both flat nodes (`GlobalPaths`). So places with one full name are of one flat node, and chains of linked full names stay within it; and
//! places that are linked have one group, or one global name, and so linked full names (`NodeNames`). Linked full names are those of joined
//! paths (`ElementLinks`, by the cells as they stand of `Standings`). Hence the names of flat nodes are the classes of full names
//! (`FlatNames`), which are the names of the nodes that the records mean (`CircuitNodes`). Full names stand in the order of the names in
//! their cells (`FullOrders`), so the preferred name of a flat node is that of a preferred name in the first cell that has it, and these
//! nodes lie where the flat nodes do (`NodePoints`).
#![tactic(auto)]

ghost use Rattle.tree_names.specs.Laws.{CircuitsNameFlatNodes, CircuitsPlaceFlatNodes, ElementsAreTheCellsAsTheyStand};
ghost use Rattle.tree_names.specs.Laws.{GroupNamesArePaths, GroupNamesTellGroups};
ghost use Rattle.tree_names.specs.Laws.{GroupsAreOfOneFlatNode, JoinedPathsShareFlatNodes, OwnNamesTellNodes, PartsKeepTheirLinks};
ghost use Rattle.tree_names.specs.Laws.{PathsAreWhereMaterialIs, PathsLeadToGroups, RecordsTellFlatNodes};

pub use own_record_laws::cell_nodes;
/// Links of a part of a clean cell are links of the cell's flat layout.
pub fn parts_keep_their_links()
    ensures { PartsKeepTheirLinks }
{}

/// The places of a group of a clean cell are of one flat node.
pub fn groups_are_of_one_flat_node()
    ensures { GroupsAreOfOneFlatNode }
{}

/// The elements of the records of a tree are the cells of the tree as they stand, in order.
pub fn elements_are_the_cells_as_they_stand()
    ensures { ElementsAreTheCellsAsTheyStand }
{}

/// Names tell the nodes of a cell's own layout apart.
pub fn own_names_tell_nodes()
    ensures { OwnNamesTellNodes }
{}

/// Names tell the groups of a clean cell apart, and its members.
pub fn names_tell_groups()
    ensures { GroupNamesTellGroups }
{}

/// The name of a group is the path of a node in the group.
pub fn group_names_are_paths()
    ensures { GroupNamesArePaths }
{}

/// The records of a clean cell and of all below it join each path of a place with the name of the place's group.
pub fn paths_lead_to_groups()
    ensures { PathsLeadToGroups }
{}

/// Two paths that these records join have places of one flat node.
pub fn joined_paths_share_flat_nodes()
    ensures { JoinedPathsShareFlatNodes }
{}

/// The places of a clean cell's flat layout that have material are those that have a path.
pub fn paths_are_where_material_is()
    ensures { PathsAreWhereMaterialIs }
{}

/// The records of a clean cell and of all below it tell its flat nodes and their names.
pub fn records_tell_flat_nodes()
    ensures { RecordsTellFlatNodes }
{}

/// The nodes that these records mean have the names of the flat nodes.
pub fn circuits_name_flat_nodes()
    ensures { CircuitsNameFlatNodes }
{}

/// The nodes that these records mean have the points and kinds of the flat nodes.
pub fn circuits_place_flat_nodes()
    ensures { CircuitsPlaceFlatNodes }
{}
