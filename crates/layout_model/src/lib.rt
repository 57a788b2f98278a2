//! What a layout is, and what its nodes are: the definitions that the theorems of the crates above speak of, and their laws.
//!
//! Cells with all that stands below them, and their flat layouts: definitions that contracts cite.
#![tactic(auto)]

ghost use Rattle.layout_model.specs.Laws.{HasOneNodeList};

mod region_tiles;

pub use region_tiles::RegionTile;

/// The law that a layout has one list of nodes, whatever the technology. It does nothing.
pub fn node_list_is_unique()
    ensures { HasOneNodeList }
{}
