//! Transistors between nodes of the flat circuit.
ghost use Rattle.std.specs.Prelude.{◌≡◌, ◌<◌, IfOk, OnOk, All, length, map};
ghost use Rattle.ext_model.specs.Lawful.{IsLawfulFet};
ghost use Rattle.circuit_model.specs.FlatFets.{IsFlatFet, side_name, fets_of};
ghost use Rattle.name_classes.specs.FullNames.Names.{AreNames, elements_in};
ghost use Rattle.flatten.specs.steps.Spots.{AreFetSpots, AreFetSpotsOf, AreCellSpots, AreLabelsOf, AreNamedOf, cell_at, element_at};
ghost use Rattle.flatten.specs.Sinks.{AllFit, GivesFets};

use crate::labels::node_of;
use crate::sides::flat_terminals;
use crate::sinks::FetSink;
use crate::spots::{CellSpots, FetSpots};
use element_tree::ElementTree;
use ext_model::{CellExt, FetRec, NodeRec, TermRec};
use geo_core::Square;
use name_classes::full_names::FullNames;
use names_lists::List;
use std::alloc::{AllocError, Global};

// the gate of an element's transistor
fn flat_gate(
    alloc: Global,
    names: &FullNames<'_>,
    labels: &[usize],
    nodes: &[NodeRec],
    element: usize,
    fet: &FetRec,
    spots: &FetSpots,
) -> Result<TermRec, AllocError>
    requires names { AreNames names.now }
    requires labels { AreLabelsOf names.now labels.now (length nodes.now) }
    requires nodes { AreNamedOf names.now labels.now (length nodes.now) nodes.now }
    requires element { element < length (elements_in names.now) }
    requires spots { AreFetSpots names.now (cell_at names.now element) fet.now spots.now }
    ensures node { IfOk result (λ gate. gate.node ≡ side_name nodes.now (element_at names.now element) fet.now.gate) }
    ensures length { IfOk result (λ gate. gate.length ≡ fet.now.gate.length) }
{
    let node = node_of(names, labels, element, spots.gate);
    Ok(TermRec {
        node: nodes[node].name.copy(alloc)?,
        length: fet.gate.length,
    })
}

// a transistor of the element of this number, between nodes
fn flat_fet(
    alloc: Global,
    names: &FullNames<'_>,
    labels: &[usize],
    nodes: &[NodeRec],
    tree: &ElementTree,
    element: usize,
    fet: &FetRec,
    spots: &FetSpots,
) -> Result<FetRec, AllocError>
    requires names { AreNames names.now }
    requires labels { AreLabelsOf names.now labels.now (length nodes.now) }
    requires nodes { AreNamedOf names.now labels.now (length nodes.now) nodes.now }
    requires tree { tree.now ≡ names.now.tree.now }
    requires element { element < length (elements_in names.now) }
    requires fet { IsLawfulFet (element_at names.now element).ext fet.now }
    requires spots { AreFetSpots names.now (cell_at names.now element) fet.now spots.now }
    ensures { IfOk result (λ flat. IsFlatFet nodes.now (element_at names.now element) fet.now flat) }
{
    let sides = fet.terminals.items();
    let ends = spots.terminals.items();
    let terminals = flat_terminals(alloc, names, labels, nodes, element, sides, ends)?;
    let square = Square { x: fet.x, y: fet.y };
    let place = tree.elements.items()[element].to_root.square(square);
    Ok(FetRec {
        kind: fet.kind.copy(alloc)?,
        x: place.x,
        y: place.y,
        area: fet.area,
        perimeter: fet.perimeter,
        substrate: fet.substrate.copy(alloc)?,
        gate: flat_gate(alloc, names, labels, nodes, element, fet, spots)?,
        terminals: List::of(terminals),
    })
}

// gives the transistors of the element of this number
fn give_fets<S: FetSink>(
    alloc: Global,
    sink: &mut S,
    names: &FullNames<'_>,
    labels: &[usize],
    nodes: &[NodeRec],
    tree: &ElementTree,
    element: usize,
    fets: &[FetRec],
    spots: &[FetSpots],
) -> Result<(), AllocError>
    requires names { AreNames names.now }
    requires labels { AreLabelsOf names.now labels.now (length nodes.now) }
    requires nodes { AreNamedOf names.now labels.now (length nodes.now) nodes.now }
    requires tree { tree.now ≡ names.now.tree.now }
    requires element { element < length (elements_in names.now) }
    requires fets { All (IsLawfulFet (element_at names.now element).ext) fets.now }
    requires spots { AreFetSpotsOf names.now (cell_at names.now element) fets.now spots.now }
    requires fit { AllFit S.fits }
    ensures { OnOk result
        (GivesFets S.has nodes.now (map (λ fet. (element_at names.now element, fet)) fets.now) sink.old sink.new) }
{
    for (at, fet) in fets.iter().enumerate() {
        sink.give(flat_fet(alloc, names, labels, nodes, tree, element, fet, &spots[at])?)?;
    }
    Ok(())
}

/// Gives the transistors of all elements between these nodes to a sink: in the order of elements, and then in that of their records. It
/// takes time for a sort of the terminals of each. Want of memory alone refuses.
pub fn give_flat_fets<S: FetSink>(
    alloc: Global,
    sink: &mut S,
    exts: &[CellExt],
    tree: &ElementTree,
    names: &FullNames<'_>,
    labels: &[usize],
    spots: &[CellSpots],
    nodes: &[NodeRec],
) -> Result<(), AllocError>
    requires names { AreNames names.now }
    requires exts { exts.now ≡ names.now.exts.now }
    requires tree { tree.now ≡ names.now.tree.now }
    requires labels { AreLabelsOf names.now labels.now (length nodes.now) }
    requires spots { AreCellSpots names.now spots.now }
    requires nodes { AreNamedOf names.now labels.now (length nodes.now) nodes.now }
    requires fit { AllFit S.fits }
    ensures { OnOk result (GivesFets S.has nodes.now (fets_of (elements_in names.now)) sink.old sink.new) }
{
    for (number, element) in tree.elements.items().iter().enumerate() {
        let fets = exts[element.cell].fets.items();
        let ends = spots[element.cell].fets.items();
        give_fets(alloc, sink, names, labels, nodes, tree, number, fets, ends)?;
    }
    Ok(())
}
