//! The sums of all nodes.
ghost use Rattle.std.specs.Prelude.{◌≡◌, ◌<◌, ◌≤◌, ◌^◌, [], All, length, map, IfOk};
ghost use Rattle.finite_sets.specs.Lists.{In};
ghost use Rattle.circuit_model.specs.Elements.{Element};
ghost use Rattle.circuit_model.specs.Refusals.{node_count, merge_count};
ghost use Rattle.name_classes.specs.FullNames.Names.{AreNames, elements_in};
ghost use Rattle.name_classes.specs.Classes.{AreClasses, HasEnds};
ghost use Rattle.flatten.specs.steps.Spots.{HaveLabels, AreSpotsOf, AreCellSpots, cell_at, element_at};
ghost use Rattle.flatten.specs.steps.Sums.{HaveSums, HaveRoomForNodes, HaveRoomForMerges, AddNodes, AddMerges, AreNodeSums};

use crate::adding::add_amounts;
use crate::labels::node_of;
use crate::spots::CellSpots;
use circuit_model::{MOST_MERGES, MOST_NODES};
use element_tree::ElementTree;
use ext_model::{CellExt, MergeRec, NodeRec};
use name_classes::full_names::{FullNames, Spot};
use name_classes::{MergeEnd, NameClasses};
use std::alloc::{AllocError, Global};

/// What all elements have of a node of the flat circuit.
#[derive(Debug, Drop)]
pub struct NodeSum {
    pub cap: i128,
    /// The area and the perimeter in each class.
    pub measures: Vec<(i128, i128)>,
}

// so many sums that are zero
fn zero_sums(alloc: Global, count: usize, classes: usize) -> Result<Vec<NodeSum>, AllocError>
    ensures { IfOk result (λ sums. HaveSums count classes [] sums.items) }
{
    let mut sums = Vec::with_capacity(alloc, count)?;
    for _node in 0..count {
        sums.push(NodeSum {
            cap: 0,
            measures: vec![in alloc; (0, 0); classes]?,
        })?;
    }
    Ok(sums)
}

// adds what the nodes of an element have
fn add_nodes(
    sums: &mut [NodeSum],
    names: &FullNames<'_>,
    labels: &[usize],
    element: usize,
    nodes: &[NodeRec],
    spots: &[Spot],
)
    requires names { AreNames names.now }
    requires long { HaveLabels names.now labels.now }
    requires below { All (λ label. label < length sums.old) labels.now }
    requires element { element < length (elements_in names.now) }
    requires nodes { nodes.now ≡ (element_at names.now element).ext.nodes }
    requires spots { AreSpotsOf names.now (cell_at names.now element) (map (λ node. node.name) nodes.now) spots.now }
    requires room { HaveRoomForNodes nodes.now sums.old }
    ensures { AddNodes names.now labels.now element sums.old sums.new }
{
    for (at, node) in nodes.iter().enumerate() {
        let number = node_of(names, labels, element, spots[at]);
        add_amounts(&mut sums[number], node.cap, node.measures.items());
    }
}

// adds what the merges of an element add
fn add_merges(
    sums: &mut [NodeSum],
    names: &FullNames<'_>,
    labels: &[usize],
    element: usize,
    merges: &[MergeRec],
    ends: &[MergeEnd],
)
    requires names { AreNames names.now }
    requires long { HaveLabels names.now labels.now }
    requires below { All (λ label. label < length sums.old) labels.now }
    requires few { length (elements_in names.now) < 2 ^ 64 }
    requires merges { merges.now ≡ (element_at names.now element).ext.merges }
    requires ends { HasEnds names.now element (element_at names.now element) ends.now }
    requires room { HaveRoomForMerges merges.now sums.old }
    ensures { AddMerges names.now labels.now element sums.old sums.new }
{
    for (at, merge) in merges.iter().enumerate() {
        let end = ends[at];
        let number = node_of(names, labels, element + end.step, end.spot);
        add_amounts(&mut sums[number], merge.cap, merge.measures.items());
    }
}

/// What all elements of a tree have of each node, in so many classes.
pub fn node_sums(
    alloc: Global,
    exts: &[CellExt],
    tree: &ElementTree,
    names: &FullNames<'_>,
    classes: &NameClasses,
    spots: &[CellSpots],
    measured: usize,
) -> Result<Vec<NodeSum>, AllocError>
    requires names { AreNames names.now }
    requires exts { exts.now ≡ names.now.exts.now }
    requires tree { tree.now ≡ names.now.tree.now }
    requires classes { AreClasses names.now classes.now }
    requires spots { AreCellSpots names.now spots.now }
    requires measured { (element : Element) → In element (elements_in names.now) → length element.ext.classes ≡ measured }
    requires few_nodes { node_count (elements_in names.now) ≤ MOST_NODES }
    requires few_merges { merge_count (elements_in names.now) ≤ MOST_MERGES }
    ensures { IfOk result (λ sums. AreNodeSums names.now classes.now.labels classes.now.count measured sums.items) }
{
    let labels = classes.labels.items();
    let firsts = classes.firsts.items();
    let mut sums = zero_sums(alloc, classes.count, measured)?;
    for (number, element) in tree.elements.items().iter().enumerate() {
        let cell = element.cell;
        let ext = &exts[cell];
        add_nodes(
            &mut sums,
            names,
            labels,
            number,
            ext.nodes.items(),
            spots[cell].nodes.items(),
        );
        add_merges(
            &mut sums,
            names,
            labels,
            number,
            ext.merges.items(),
            firsts[cell].items(),
        );
    }
    Ok(sums)
}
