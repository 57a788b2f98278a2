//! The nodes of a stack of rows of tiles: its circuit has those that rows and columns are set by, and so has the network of its circuit; and the sums
//! that are reported of them fit 128 bits. The functions here do nothing; their contracts are the laws.
//!
//! # How the proof goes
//!
//! Paint of a layer leaves the layer's images where there was no paint, since no mark of a contact is taken off there (`FreshPaint`). So beside
//! the label of poly, where diffusion isn't painted, poly stands, and beside that of diffusion, where poly isn't painted, diffusion, whatever
//! stands where they cross (`TilePaint`): each label suits a place of the tile. Of the places that it suits, and of those of the node there, one is
//! the least, since a tile has finitely many places (`LeastPlaces`); that one is least is not decided, and need not be, since it is decided whether
//! a circuit has a name. So the tile has nodes that are called `w` and `b` (`TileNodes`).
//!
//! The named tree of the stack is unfolded to rows and tiles (`StackTrees`), whose elements are displaced by whole tiles (`Arrays`,
//! `StackElements`). So each place lies in one tile at most, and the flat layout has there what the tile has (`StackSets`). The names of
//! elements before a name of the tile's node are a path to a place with material, which is a full name (`StackNames`), and the flat node there has
//! it (`CircuitNodes`). All names of the nodes stand in the sim records, as capacitances or aliases (`NetworkNodes`).
//!
//! No text of a tile is global, so the places of a node have material, and that lies between the sides of the stack. A list of such places without
//! repetition is short (`PlaceSums`): so a node's areas and perimeters are small, and the nodes, which have places of their own, are few
//! (`NodeSums`).
#![tactic(auto)]

ghost use Rattle.stack_nodes.specs.StackNodes.{StackCircuitsHaveTheirNodes, StackNetworksHaveTheirNodes};
ghost use Rattle.stack_nodes.specs.StackSums.{StackSumsFit};

/// The circuit of a stack of rows of tiles has a node of the name of each row and of each column.
pub fn stack_circuits_have_their_nodes()
    ensures { StackCircuitsHaveTheirNodes }
{}

/// The network of the sim records of such a circuit has a node of each of these names.
pub fn stack_networks_have_their_nodes()
    ensures { StackNetworksHaveTheirNodes }
{}

/// The sums of areas and perimeters that are reported of such a circuit fit 128 bits.
pub fn stack_sums_fit()
    ensures { StackSumsFit }
{}
