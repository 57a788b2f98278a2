//! Labels on the nodes of a cell's own paint: where labels attach, which nodes global names join, and the names of nodes.
//!
//! # How the proof goes
//!
//! A label is looked for among tiles. They are sorted so that those of one type that are close to each other mostly stand close,
//! and from each index a block of them begins whose rectangle goes round them: where that rectangle has nothing for the label, or
//! nothing before what was found, its tiles are passed over (`TakingLaws`, `BlockLaws`). The order and the ends of blocks are for
//! speed alone, and no proof rests on them. `AttachLaws` goes from tiles to places: a label suits a place exactly where it takes the
//! tile there, and the least place of those tiles is where it attaches.
//!
//! Then labels are counted in order, with the region of the first label of each text (`CountingLaws`): what each label names, and
//! pairs of regions that global names join. `JoinedRegions` shows that the classes of such pairs are nodes, both ways along a
//! chain of links and global names, and that a label names a region exactly where it names a place of it. The first tile of a
//! class in the order of places has its least place (`FirstTileLaws`), groups have the regions and the labels of a class
//! (`GroupLaws`), and sorted texts, each kept once, are names in order (`NamingLaws`). `NamedNodeLaws` puts these together.
#![tactic(auto)]

mod attaching;
mod blocks;
mod counting;
mod first_tiles;
mod groups;
mod naming;
mod nodes;
mod texts;

pub use nodes::{Named, NamedNode, name_nodes};
