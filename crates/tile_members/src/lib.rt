//! The members of a cell that have the tiles at which its parts meet, by name.
//!
//! A tile is of the own paint of some cell that stands at or below the cell. That cell is opened, and its own paint tells which of its own nodes
//! the tile is of. The elements that lead down to it then tell the member: step by step upward, the record of the child names the first
//! member of the group, and the element's name goes before that.
//!
//! `specs/TileLaws.antt` has the law of tiles of the parts of a clean cell, and the members that have them.
//!
//! `groups` has the groups of members, told by the merges of a record.
//!
//! # How the proof goes
//!
//! ## The finder
//!
//! Whatever stands at or below a cell of a lawful library is a cell of it, and its transform is in reach (`StandingCells`). So is the lower left
//! square of a tile, since hulls hold all material, and there the standing cell has the tile's type (`TileCorners`). In the opened cell some
//! tile of the plane has that square, and its region's number is that of the node there (`OpenedLaws`, `NodesFound`); nodes are found at all,
//! since the labels of a lawful library may name them (`LabelLaws`).
//!
//! The tree of an element is that of a child of the cell. It is clean, as the cell is, and a group of it is a member of the cell (`ChildCells`).
//! So a climb goes by the steps down: along none a node is a member itself. Along one more, the name from below is that of a member of the child;
//! the child's record tells the name of its group, which makes the name of a member of the cell behind the element's name, and that member is of
//! the part that the element is (`GroupPaths`, `Climbs`).
//!
//! What is known of the members of nodes stays so while cells are opened and names come (`KnownLaws`, `NewNames`). A member that has one place
//! of a tile has each place of it, so the member of the corner has the tile; tile by tile the finder gives the numbers (`FoundTiles`,
//! `FinderLaws`). `ListPlaces` has what stands at places of lists.
//!
//! ## Members of whole tiles
//!
//! A tile is a strip of one own type of a cell that stands in the part. The own types of what stands in an element are own types of the
//! element's cell, and where that is clean they are within its flat type: at each square of the tile the part has a type that the tile's type
//! is within (`StandingTypes`). A type connects to itself, and goes on to connect where it is widened, so neighbours in the tile are linked in
//! the part. A walk within the tile leads from each of its squares to each other, and a member goes along the links of its part
//! (`WholeTiles`).
//!
//! ## Groups by the merges of a record
//!
//! The table of merges is filled from the last merge to the first, so that at each number it finds the first merge from there on that has a
//! member as its second (`MergeFinds`). Each merge of a group begins with the group's name, and each member but the first is the second of a
//! merge (`GroupFirsts`). Where a merge of the record has the member as its second, it is of a group that has the member. That group is the
//! member's own, as a member is of one group, and goes by the name with which the merge begins. Where no merge has it, the member is the first
//! of its group, or has a group of its own that needs no merge: it is the name itself (`RecordedGroups`).
#![tactic(auto)]

ghost use Rattle.tile_members.specs.GroupLaws.{RecordsTellGroups};
ghost use Rattle.tile_members.specs.TileLaws.{MembersHaveWholeTiles};

pub use element_paths;
pub use element_paths::library_trees;
pub use group_meetings;
use tech_model::Tech;

mod finding;
mod group_tables;
mod groups;
mod known_members;
mod member_names;
mod members;
mod opened_cells;

pub use members::{TileMembers, tile_members};

/// A member of a part of a clean cell that has one place of a tile of the part has each place of it. It does nothing.
pub fn members_have_whole_tiles(tech: &Tech)
    ensures { MembersHaveWholeTiles tech.now }
{}

/// The record of a clean cell tells the name of the group of each member. It does nothing.
pub fn records_tell_groups(tech: &Tech)
    ensures { RecordsTellGroups tech.now }
{}
