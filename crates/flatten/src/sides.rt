//! Terminals between nodes of the flat circuit.
ghost use Rattle.std.specs.Prelude.{◌≡◌, ◌<◌, IfOk, OnOk, All, IsPermutation, length, map, sum_by};
ghost use Rattle.std.specs.Int.RustNames.{unsigned_abs};
ghost use Rattle.name_classes.specs.FullNames.Names.{AreNames, elements_in};
ghost use Rattle.flatten.specs.steps.Spots.{HaveLabels, AreSpotsOf, cell_at};
ghost use Rattle.flatten.specs.steps.Spots.{AreLabelsOf, AreNamedOf, element_at};
ghost use Rattle.flatten.specs.steps.Sides.{AreSides, AreByNode, AreShort, FitsLast, with_side, AreJoined, named_side, AreFlatTerminals};

use crate::labels::node_of;
use ext_model::{LENGTHS_EDGE, NodeRec, TermRec};
use name_classes::full_names::{FullNames, Spot};
use std::alloc::{AllocError, Global};

/// A node of the flat circuit beside a transistor, and the length of its edges there.
#[derive(Clone, Copy, Debug, PartialEq, Eq)]
pub struct Side {
    pub node: usize,
    pub length: i128,
}

// the nodes of terminals, with their lengths
fn sides_of(
    alloc: Global,
    names: &FullNames<'_>,
    labels: &[usize],
    element: usize,
    terminals: &[TermRec],
    spots: &[Spot],
) -> Result<Vec<Side>, AllocError>
    requires names { AreNames names.now }
    requires long { HaveLabels names.now labels.now }
    requires element { element < length (elements_in names.now) }
    requires spots { AreSpotsOf names.now (cell_at names.now element) (map (λ side. side.node) terminals.now) spots.now }
    ensures { IfOk result (λ sides. AreSides names.now labels.now element terminals.now sides.items) }
{
    let mut sides = Vec::with_capacity(alloc, terminals.len())?;
    for (at, terminal) in terminals.iter().enumerate() {
        sides.push(Side {
            node: node_of(names, labels, element, spots[at]),
            length: terminal.length,
        })?;
    }
    Ok(sides)
}

// the sides in the order of their nodes
fn by_node(mut sides: Vec<Side>) -> Vec<Side>
    ensures moved { IsPermutation sides.items result.items }
    ensures sorted { AreByNode result.items }
{
    sides.sort_unstable_by_key(|side| side.node);
    sides
}

// one more side, joined with the last where that is of the same node
fn push_side(joined: &mut Vec<Side>, side: Side) -> Result<(), AllocError>
    requires { FitsLast joined.old.items side }
    ensures { OnOk result (joined.new.items ≡ with_side joined.old.items side) }
{
    let count = joined.len();
    if count > 0 && joined[count - 1].node == side.node {
        joined[count - 1].length += side.length;
    } else {
        joined.push(side)?;
    }
    Ok(())
}

// the sides with those of one node joined, in the order of nodes
fn joined_sides(alloc: Global, sides: Vec<Side>) -> Result<Vec<Side>, AllocError>
    requires { AreShort sides.items }
    ensures { IfOk result (λ joined. AreJoined sides.items joined.items) }
{
    let ordered = by_node(sides);
    let mut joined = Vec::with_capacity(alloc, ordered.len())?;
    for side in &ordered {
        push_side(&mut joined, *side)?;
    }
    Ok(joined)
}

// the sides by the names of their nodes
fn named_sides(alloc: Global, nodes: &[NodeRec], sides: &[Side]) -> Result<Vec<TermRec>, AllocError>
    requires { All (λ side. side.node < length nodes.now) sides.now }
    ensures { IfOk result (λ named. named.items ≡ map (named_side nodes.now) sides.now) }
{
    let mut named = Vec::with_capacity(alloc, sides.len())?;
    for side in sides {
        named.push(TermRec {
            node: nodes[side.node].name.copy(alloc)?,
            length: side.length,
        })?;
    }
    Ok(named)
}

/// The terminals of an element's transistor between nodes of the flat circuit: those of one node are one. It takes time for a sort of
/// the terminals.
pub fn flat_terminals(
    alloc: Global,
    names: &FullNames<'_>,
    labels: &[usize],
    nodes: &[NodeRec],
    element: usize,
    terminals: &[TermRec],
    spots: &[Spot],
) -> Result<Vec<TermRec>, AllocError>
    requires names { AreNames names.now }
    requires labels { AreLabelsOf names.now labels.now (length nodes.now) }
    requires nodes { AreNamedOf names.now labels.now (length nodes.now) nodes.now }
    requires element { element < length (elements_in names.now) }
    requires spots { AreSpotsOf names.now (cell_at names.now element) (map (λ side. side.node) terminals.now) spots.now }
    requires lengths { sum_by (λ side. unsigned_abs side.length) terminals.now < LENGTHS_EDGE }
    ensures { IfOk result (λ flats. AreFlatTerminals nodes.now (element_at names.now element) terminals.now flats.items) }
{
    let sides = sides_of(alloc, names, labels, element, terminals, spots)?;
    let joined = joined_sides(alloc, sides)?;
    named_sides(alloc, nodes, joined.as_slice())
}
