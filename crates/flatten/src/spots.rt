//! The spots of the names that records have of their nodes and beside their transistors.
ghost use Rattle.std.specs.Prelude.{◌≡◌, true, IfOk, All, map};
ghost use Rattle.name_classes.specs.FullNames.Names.{AreNames, IsSpotOf};
ghost use Rattle.flatten.specs.steps.Spots.{HasName, HasNames, HasFetNames, AreSpotsOf, AreFetSpots, AreFetSpotsOf, AreSpotsIn, IsCellOf, AreCellSpots};

use crate::reached::reached_cells;
use element_tree::ElementTree;
use ext_model::{CellExt, FetRec, NodeRec, TermRec};
use name_classes::full_names::{FullNames, Spot};
use names_lists::{List, Name};
use std::alloc::{AllocError, Global};

/// The spots of the names beside a transistor.
#[derive(Debug, Drop)]
pub struct FetSpots {
    pub gate: Spot,
    /// Those of its terminals, in their order.
    pub terminals: List<Spot>,
}

/// The spots that a record is asked for.
#[derive(Debug, Drop)]
pub struct CellSpots {
    /// Those of its nodes' preferred names, in the order of nodes.
    pub nodes: List<Spot>,
    /// Those beside its transistors, in their order.
    pub fets: List<FetSpots>,
}

// the spot of a name that the record has
fn spot_of(names: &FullNames<'_>, cell: usize, name: &Name) -> Spot
    requires names { AreNames names.now }
    requires name { HasName names.now cell name.now }
    ensures { IsSpotOf names.now cell name.now result }
{
    match names.spot(cell, name.bytes()) {
        Some(spot) => spot,
        None => unreachable!(),
    }
}

// the spots of the preferred names of nodes
fn node_spots(
    alloc: Global,
    names: &FullNames<'_>,
    cell: usize,
    nodes: &[NodeRec],
) -> Result<Vec<Spot>, AllocError>
    requires names { AreNames names.now }
    requires has { HasNames names.now cell (map (λ node. node.name) nodes.now) }
    ensures { IfOk result (λ spots. AreSpotsOf names.now cell (map (λ node. node.name) nodes.now) spots.items) }
{
    let mut spots = Vec::with_capacity(alloc, nodes.len())?;
    for node in nodes {
        spots.push(spot_of(names, cell, &node.name))?;
    }
    Ok(spots)
}

// the spots of the names of terminals
fn terminal_spots(
    alloc: Global,
    names: &FullNames<'_>,
    cell: usize,
    terminals: &[TermRec],
) -> Result<Vec<Spot>, AllocError>
    requires names { AreNames names.now }
    requires has { HasNames names.now cell (map (λ side. side.node) terminals.now) }
    ensures { IfOk result (λ spots. AreSpotsOf names.now cell (map (λ side. side.node) terminals.now) spots.items) }
{
    let mut spots = Vec::with_capacity(alloc, terminals.len())?;
    for side in terminals {
        spots.push(spot_of(names, cell, &side.node))?;
    }
    Ok(spots)
}

// the spots beside a transistor
fn spots_beside(
    alloc: Global,
    names: &FullNames<'_>,
    cell: usize,
    fet: &FetRec,
) -> Result<FetSpots, AllocError>
    requires names { AreNames names.now }
    requires has { HasFetNames names.now cell fet.now }
    ensures { IfOk result (λ spots. AreFetSpots names.now cell fet.now spots) }
{
    Ok(FetSpots {
        gate: spot_of(names, cell, &fet.gate.node),
        terminals: List::of(terminal_spots(alloc, names, cell, fet.terminals.items())?),
    })
}

// the spots beside transistors
fn fet_spots(
    alloc: Global,
    names: &FullNames<'_>,
    cell: usize,
    fets: &[FetRec],
) -> Result<Vec<FetSpots>, AllocError>
    requires names { AreNames names.now }
    requires has { All (HasFetNames names.now cell) fets.now }
    ensures { IfOk result (λ spots. AreFetSpotsOf names.now cell fets.now spots.items) }
{
    let mut spots = Vec::with_capacity(alloc, fets.len())?;
    for fet in fets {
        spots.push(spots_beside(alloc, names, cell, fet)?)?;
    }
    Ok(spots)
}

// the spots of a record
fn spots_in(
    alloc: Global,
    names: &FullNames<'_>,
    cell: usize,
    ext: &CellExt,
) -> Result<CellSpots, AllocError>
    requires names { AreNames names.now }
    requires cell { IsCellOf names.now cell ext.now }
    ensures { IfOk result (λ spots. AreSpotsIn names.now cell ext.now spots) }
{
    Ok(CellSpots {
        nodes: List::of(node_spots(alloc, names, cell, ext.nodes.items())?),
        fets: List::of(fet_spots(alloc, names, cell, ext.fets.items())?),
    })
}

// the spots of a record that an element has, and of any other nothing
fn spots_at(
    alloc: Global,
    names: &FullNames<'_>,
    cell: usize,
    ext: &CellExt,
    reached: bool,
) -> Result<CellSpots, AllocError>
    requires names { AreNames names.now }
    requires cell { reached ≡ true → IsCellOf names.now cell ext.now }
    ensures { IfOk result (λ spots. reached ≡ true → AreSpotsIn names.now cell ext.now spots) }
{
    if reached {
        return spots_in(alloc, names, cell, ext);
    }
    Ok(CellSpots {
        nodes: List::of(Vec::new(alloc)),
        fets: List::of(Vec::new(alloc)),
    })
}

/// The spots of each record that an element has. It takes a look-up for each node and for each name beside a transistor of these
/// records. Want of memory alone refuses.
pub fn cell_spots(
    alloc: Global,
    exts: &[CellExt],
    tree: &ElementTree,
    names: &FullNames<'_>,
) -> Result<Vec<CellSpots>, AllocError>
    requires names { AreNames names.now }
    requires exts { exts.now ≡ names.now.exts.now }
    requires tree { tree.now ≡ names.now.tree.now }
    ensures { IfOk result (λ spots. AreCellSpots names.now spots.items) }
{
    let reached = reached_cells(alloc, tree, names, exts.len())?;
    let mut spots = Vec::with_capacity(alloc, exts.len())?;
    for (cell, ext) in exts.iter().enumerate() {
        spots.push(spots_at(alloc, names, cell, ext, reached[cell])?)?;
    }
    Ok(spots)
}
