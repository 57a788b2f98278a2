//! The tree of elements.
ghost use Rattle.std.specs.Prelude.{◌≡◌, ◌⊎◌, ◌<◌, length, IfOk, IfErr};
ghost use Rattle.circuit_model.specs.Elements.{AreRecords};
ghost use Rattle.element_tree.specs.Graphs.{IsGraphOf};
ghost use Rattle.element_tree.specs.Trees.{IsTreeOf, HasNoTreeFault, IsTreeFaultOf};
ghost use Rattle.element_tree.specs.steps.Links.{top_flat};

use crate::branches::all_branches;
use crate::elements::add_elements;
use crate::graph::RecordGraph;
use crate::sizes::checked_sizes;
use circuit_model::{FlatFault, LONGEST_CHAIN};
use ext_model::CellExt;
use geo_core::{Orient, Transform};
use names_lists::List;
use std::alloc::Global;

/// A use of a record in a tree.
#[derive(Clone, Copy, Debug, PartialEq, Eq)]
pub struct Branch {
    /// The number of the record that it leads to.
    pub child: usize,
    /// How far the number of the element that it leads to is above that of the element that it stands in.
    pub step: usize,
    /// How far the rank of the element that it leads to is above that of the element that it stands in.
    pub rank_step: usize,
}

/// An element of a tree.
#[derive(Clone, Copy, Debug, PartialEq, Eq)]
pub struct TreeElement {
    /// The number of its record.
    pub cell: usize,
    /// The number of the element that it stands in. That of the root says nothing.
    pub parent: usize,
    /// The number of its use there.
    pub at: usize,
    /// How many uses lead to it.
    pub depth: usize,
    /// How many bytes the names of the elements that lead to it have in a path, with the slash behind each.
    pub bytes: usize,
    /// Its number when branches are taken in the order of their names: of two elements as deep, the one whose path stands first has the
    /// lesser rank.
    pub rank: usize,
    /// Takes coordinates of its cell to those of the root.
    pub to_root: Transform,
}

/// The elements of a tree, and the uses that lead to them.
#[derive(Debug)]
pub struct ElementTree {
    /// The branches of each record, one for each of its uses.
    pub branches: List<List<Branch>>,
    /// The elements, depth first in the order of uses; the root is the first.
    pub elements: List<TreeElement>,
}

impl Drop for ElementTree {
    fn drop(self) {
        let ElementTree {
            branches: _,
            elements: _,
        } = self;
    }
}

// The root's own element.
fn top_element(root: usize) -> TreeElement
    ensures { result ≡ top_flat root }
{
    TreeElement {
        cell: root,
        parent: 0,
        at: 0,
        depth: 0,
        bytes: 0,
        rank: 0,
        to_root: Transform {
            orient: Orient::R0,
            dx: 0,
            dy: 0,
        },
    }
}

/// The elements of the tree whose root is that record. It takes time linear in the elements and near-linear in the uses.
///
/// More than `LONGEST_CHAIN` cells in a chain of uses are refused as `TooMany(Depth)`, and then more than `MOST_FLAT_ELEMENTS` elements
/// as `TooMany(Elements)`; beside that `Memory` alone refuses.
pub fn element_tree(
    alloc: Global,
    exts: &[CellExt],
    graph: &RecordGraph,
    root: usize,
) -> Result<ElementTree, FlatFault>
    requires records { AreRecords exts.now }
    requires root { root < length exts.now }
    requires graph { IsGraphOf exts.now root graph.now }
    ensures few { IfOk result (λ tree. HasNoTreeFault exts.now root) }
    ensures tree { IfOk result (λ tree. IsTreeOf exts.now root tree) }
    ensures fault { IfErr result (λ fault. (fault ≡ FlatFault.Memory) ⊎ IsTreeFaultOf exts.now root fault) }
{
    let sizes = checked_sizes(alloc, exts, graph, root)?;
    let branches = all_branches(alloc, exts, graph, sizes.as_slice())?;
    let mut elements = Vec::with_capacity(alloc, sizes[root])?;
    let rows = branches.as_slice();
    add_elements(
        LONGEST_CHAIN,
        &mut elements,
        exts,
        rows,
        0,
        &top_element(root),
    )?;
    Ok(ElementTree {
        branches: List::of(branches),
        elements: List::of(elements),
    })
}
