//! Circuits out of classes of names.
ghost use Rattle.std.specs.Prelude.{◌≡◌, ◌≤◌, IfOk, length};
ghost use Rattle.finite_sets.specs.Lists.{In};
ghost use Rattle.circuit_model.specs.Elements.{Element};
ghost use Rattle.circuit_model.specs.Circuits.{IsCircuitOf};
ghost use Rattle.circuit_model.specs.FlatNodes.{AreFlatNodes};
ghost use Rattle.circuit_model.specs.Refusals.{node_count, merge_count};
ghost use Rattle.name_classes.specs.FullNames.Names.{AreNames, elements_in};
ghost use Rattle.name_classes.specs.Classes.{AreClasses};
ghost use Rattle.flatten.specs.steps.Spots.{AreCellSpots, AreNamedOf};
ghost use Rattle.flatten.specs.Sinks.{AllFit, IsGiven};

use crate::fets::give_flat_fets;
use crate::filling::with_sums;
use crate::nodes::named_nodes;
use crate::sinks::{FetSink, GivenCircuit};
use crate::spots::{CellSpots, cell_spots};
use crate::sums::node_sums;
use circuit_model::{MOST_MERGES, MOST_NODES};
use element_tree::ElementTree;
use ext_model::{CellExt, NodeRec};
use name_classes::NameClasses;
use name_classes::full_names::FullNames;
use names_lists::List;
use std::alloc::{AllocError, Global};

// the nodes of a flat circuit with so many classes of material
fn flat_nodes(
    alloc: Global,
    exts: &[CellExt],
    tree: &ElementTree,
    names: &FullNames<'_>,
    classes: &NameClasses,
    spots: &[CellSpots],
    measured: usize,
) -> Result<Vec<NodeRec>, AllocError>
    requires names { AreNames names.now }
    requires exts { exts.now ≡ names.now.exts.now }
    requires tree { tree.now ≡ names.now.tree.now }
    requires classes { AreClasses names.now classes.now }
    requires spots { AreCellSpots names.now spots.now }
    requires measured { (element : Element) → In element (elements_in names.now) → length element.ext.classes ≡ measured }
    requires few_nodes { node_count (elements_in names.now) ≤ MOST_NODES }
    requires few_merges { merge_count (elements_in names.now) ≤ MOST_MERGES }
    ensures nodes { IfOk result (λ nodes. AreFlatNodes (elements_in names.now) measured nodes.items) }
    ensures named { IfOk result (λ nodes. AreNamedOf names.now classes.now.labels classes.now.count nodes.items) }
    ensures count { IfOk result (λ nodes. length nodes.items ≡ classes.now.count) }
{
    let labels = classes.labels.items();
    let sums = node_sums(alloc, exts, tree, names, classes, spots, measured)?;
    let nodes = named_nodes(alloc, exts, tree, names, labels, classes.count)?;
    Ok(with_sums(nodes, sums))
}

/// The circuit that the elements of a tree mean, whose root has this record. Want of memory alone refuses.
pub fn circuit_of<S: FetSink>(
    alloc: Global,
    exts: &[CellExt],
    top: &CellExt,
    tree: &ElementTree,
    names: &FullNames<'_>,
    classes: &NameClasses,
) -> Result<GivenCircuit<S>, AllocError>
    requires names { AreNames names.now }
    requires exts { exts.now ≡ names.now.exts.now }
    requires tree { tree.now ≡ names.now.tree.now }
    requires classes { AreClasses names.now classes.now }
    requires measured { (element : Element) → In element (elements_in names.now) → length element.ext.classes ≡ length top.now.classes }
    requires few_nodes { node_count (elements_in names.now) ≤ MOST_NODES }
    requires few_merges { merge_count (elements_in names.now) ≤ MOST_MERGES }
    requires fit { AllFit S.fits }
    ensures { IfOk result (IsGiven S.has (IsCircuitOf (elements_in names.now) top.now)) }
{
    let measured = top.classes.items();
    let spots = cell_spots(alloc, exts, tree, names)?;
    let spots = spots.as_slice();
    let nodes = flat_nodes(alloc, exts, tree, names, classes, spots, measured.len())?;
    let labels = classes.labels.items();
    let mut sink = S::begin(alloc, &top.tech)?;
    give_flat_fets(
        alloc,
        &mut sink,
        exts,
        tree,
        names,
        labels,
        spots,
        nodes.as_slice(),
    )?;
    Ok(GivenCircuit {
        tech: top.tech.copy(alloc)?,
        classes: List::of(Vec::from_slice(alloc, measured)?),
        nodes: List::of(nodes),
        sink,
    })
}
