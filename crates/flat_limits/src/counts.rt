//! The numbers of nodes and of merges.
ghost use Rattle.std.specs.Prelude.{◌≡◌, ◌⊎◌, ◌<◌, All, IfOk, IfErr, length, map, nat_lt, sum_by, slice_index};
ghost use Rattle.element_tree.specs.Trees.{IsTreeOf};
ghost use Rattle.flat_limits.specs.Counts.{HasNoNodeFault, IsNodeFaultOf, HasNoMergeFault, IsMergeFaultOf};

use circuit_model::{CircuitLimit, FlatFault, MOST_MERGES, MOST_NODES};
use element_tree::{ElementTree, TreeElement};
use ext_model::CellExt;
use std::alloc::{AllocError, Global};

/// Whether the sizes of the elements' records add up to more than so much. It takes a step for each element.
pub fn is_past(most: usize, sizes: &[usize], elements: &[TreeElement]) -> bool
    requires { All (λ element. element.cell < length sizes.now) elements.now }
    ensures { result ≡ nat_lt most (sum_by (λ element. slice_index sizes.now element.cell) elements.now) }
{
    let mut rest = most;
    for element in elements {
        let size = sizes[element.cell];
        if size > rest {
            return true;
        }
        rest -= size;
    }
    false
}

// how many nodes each record has
fn node_sizes(alloc: Global, exts: &[CellExt]) -> Result<Vec<usize>, AllocError>
    ensures { IfOk result (λ sizes. sizes.items ≡ map (λ ext. length ext.nodes) exts.now) }
{
    let mut sizes = Vec::with_capacity(alloc, exts.len())?;
    for ext in exts {
        sizes.push(ext.nodes.items().len())?;
    }
    Ok(sizes)
}

// how many merges each record has
fn merge_sizes(alloc: Global, exts: &[CellExt]) -> Result<Vec<usize>, AllocError>
    ensures { IfOk result (λ sizes. sizes.items ≡ map (λ ext. length ext.merges) exts.now) }
{
    let mut sizes = Vec::with_capacity(alloc, exts.len())?;
    for ext in exts {
        sizes.push(ext.merges.items().len())?;
    }
    Ok(sizes)
}

/// The elements have no more node records than they may have together. It takes a step for each element.
///
/// More are refused as `TooMany(Nodes)`; beside that `Memory` alone refuses.
pub fn check_nodes(
    alloc: Global,
    exts: &[CellExt],
    root: usize,
    tree: &ElementTree,
) -> Result<(), FlatFault>
    requires root { root < length exts.now }
    requires tree { IsTreeOf exts.now root tree.now }
    ensures few { IfOk result (λ _. HasNoNodeFault exts.now root) }
    ensures fault { IfErr result (λ fault. (fault ≡ FlatFault.Memory) ⊎ IsNodeFaultOf exts.now root fault) }
{
    let sizes = node_sizes(alloc, exts)?;
    if is_past(MOST_NODES, sizes.as_slice(), tree.elements.items()) {
        return Err(FlatFault::TooMany(CircuitLimit::Nodes));
    }
    Ok(())
}

/// The elements have no more merge records than they may have together. It takes a step for each element.
///
/// More are refused as `TooMany(Merges)`; beside that `Memory` alone refuses.
pub fn check_merges(
    alloc: Global,
    exts: &[CellExt],
    root: usize,
    tree: &ElementTree,
) -> Result<(), FlatFault>
    requires root { root < length exts.now }
    requires tree { IsTreeOf exts.now root tree.now }
    ensures few { IfOk result (λ _. HasNoMergeFault exts.now root) }
    ensures fault { IfErr result (λ fault. (fault ≡ FlatFault.Memory) ⊎ IsMergeFaultOf exts.now root fault) }
{
    let sizes = merge_sizes(alloc, exts)?;
    if is_past(MOST_MERGES, sizes.as_slice(), tree.elements.items()) {
        return Err(FlatFault::TooMany(CircuitLimit::Merges));
    }
    Ok(())
}
