//! How long the chains of uses are from each record on, and how many elements are at or below it.
ghost use Rattle.std.specs.Prelude.{◌≡◌, ◌⊎◌, ◌<◌, ◌≤◌, suc, length, map, reverse, All, sum, sum_by, IfOk, IfErr, min};
ghost use Rattle.circuit_model.specs.Refusals.{greatest};
ghost use Rattle.element_tree.specs.Graphs.{IsGraphOf, children_of};
ghost use Rattle.element_tree.specs.Trees.{HasNoTreeFault, IsTreeFaultOf};
ghost use Rattle.element_tree.specs.Sizes.{IsSomeGraph, value_at, chain_from, size_from, AreMeasuredIn, AreSizes};

use crate::graph::RecordGraph;
use circuit_model::{CircuitLimit, FlatFault, LONGEST_CHAIN, MOST_FLAT_ELEMENTS};
use ext_model::CellExt;
use std::alloc::{AllocError, Global};

// The greatest of the numbers that the children have.
fn greatest_of(values: &[usize], children: &[usize]) -> usize
    requires within { All (λ child. child < length values.now) children.now }
    ensures { result ≡ greatest (map (value_at values.now) children.now) }
{
    let mut greatest = 0;
    for child in children {
        greatest = greatest.max(values[*child]);
    }
    greatest
}

// How many elements are at or below a record with these children, or one more than the most.
fn size_of(sizes: &[usize], children: &[usize]) -> usize
    requires within { All (λ child. child < length sizes.now) children.now }
    requires small { All (λ size. size ≤ suc MOST_FLAT_ELEMENTS) sizes.now }
    ensures { result ≡ size_from (map (value_at sizes.now) children.now) }
{
    let mut size = 1;
    for child in children {
        size = (size + sizes[*child]).min(MOST_FLAT_ELEMENTS + 1);
    }
    size
}

/// How many records the longest chain of uses from each record on has. Want of memory alone refuses.
pub fn chain_lengths(
    alloc: Global,
    exts: &[CellExt],
    graph: &RecordGraph,
) -> Result<Vec<usize>, AllocError>
    requires graph { IsSomeGraph exts.now graph.now }
    ensures { IfOk result (λ lengths. AreMeasuredIn chain_from graph.now lengths.items) }
{
    let mut lengths = vec![in alloc; 1; exts.len()]?;
    for cell in graph.order.items() {
        let greatest = greatest_of(lengths.as_slice(), graph.children.items()[*cell].items());
        lengths[*cell] = greatest + 1;
    }
    Ok(lengths)
}

// How many elements are at or below each record.
fn sizes(alloc: Global, exts: &[CellExt], graph: &RecordGraph) -> Result<Vec<usize>, AllocError>
    requires graph { IsSomeGraph exts.now graph.now }
    ensures { IfOk result (λ sizes. AreMeasuredIn size_from graph.now sizes.items) }
{
    let mut sizes = vec![in alloc; 1; exts.len()]?;
    for cell in graph.order.items() {
        sizes[*cell] = size_of(sizes.as_slice(), graph.children.items()[*cell].items());
    }
    Ok(sizes)
}

/// How many elements are at or below each record, where the chains are short and the elements few.
pub fn checked_sizes(
    alloc: Global,
    exts: &[CellExt],
    graph: &RecordGraph,
    root: usize,
) -> Result<Vec<usize>, FlatFault>
    requires root { root < length exts.now }
    requires graph { IsGraphOf exts.now root graph.now }
    ensures few { IfOk result (λ sizes. HasNoTreeFault exts.now root) }
    ensures sizes { IfOk result (λ sizes. AreSizes graph.now root sizes.items) }
    ensures fault { IfErr result (λ fault. (fault ≡ FlatFault.Memory) ⊎ IsTreeFaultOf exts.now root fault) }
{
    if chain_lengths(alloc, exts, graph)?[root] > LONGEST_CHAIN {
        return Err(FlatFault::TooMany(CircuitLimit::Depth));
    }
    let sizes = sizes(alloc, exts, graph)?;
    if sizes[root] > MOST_FLAT_ELEMENTS {
        return Err(FlatFault::TooMany(CircuitLimit::Elements));
    }
    Ok(sizes)
}
