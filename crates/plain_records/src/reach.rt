//! Which records a root reaches, where it has no fault up to the number of elements.
ghost use Rattle.std.specs.Prelude.{◌≡◌, ◌⊎◌, ◌<◌, ◌≤◌, suc, All, IfOk, IfErr, length, map};
ghost use Rattle.ext_model.specs.LawfulArrays.{IsArrayUse};
ghost use Rattle.circuit_model.specs.declared.limits.TheConstants.{MOST_FLAT_ELEMENTS as MOST};
ghost use Rattle.flat_limits.specs.ElementTree.Sizes.{IsSomeGraph, value_at, size_from, AreMeasuredIn};
ghost use Rattle.plain_records.specs.Plains.{plains, AreArrayRecords};
ghost use Rattle.plain_records.specs.Thin.{thins};
ghost use Rattle.plain_records.specs.Reached.{spread, spread_graph, AreReached, HasNoReachFault, IsReachFaultOf};

use crate::uses::element_count;
use circuit_model::{CircuitLimit, FlatFault, LONGEST_CHAIN, MOST_FLAT_ELEMENTS};
use ext_model::{ArrayExt, ArrayUse, CellExt};
use flat_limits::element_tree::{RecordGraph, chain_lengths, record_graph};
use names_lists::List;
use std::alloc::{AllocError, Global};

// How many elements are at or below a record whose uses lead to these children, or one more than the most.
fn size_of(sizes: &[usize], uses: &[ArrayUse], children: &[usize]) -> usize
    requires uses { All IsArrayUse uses.now }
    requires long { length children.now ≡ length uses.now }
    requires within { All (λ child. child < length sizes.now) children.now }
    requires small { All (λ size. size ≤ suc MOST) sizes.now }
    ensures { result ≡ size_from (map (value_at sizes.now) (spread uses.now children.now)) }
{
    let mut size = 1;
    for (at, child) in children.iter().enumerate() {
        let below = element_count(&uses[at]) * sizes[*child];
        size = (size + below).min(MOST_FLAT_ELEMENTS + 1);
    }
    size
}

// How many elements are at or below each record.
fn sizes(alloc: Global, exts: &[ArrayExt], graph: &RecordGraph) -> Result<Vec<usize>, AllocError>
    requires records { AreArrayRecords exts.now }
    requires graph { IsSomeGraph (thins exts.now) graph.now }
    ensures { IfOk result (λ sizes. AreMeasuredIn size_from (spread_graph exts.now graph.now) sizes.items) }
{
    let mut sizes = vec![in alloc; 1; exts.len()]?;
    for cell in graph.order.items() {
        let children = graph.children.items()[*cell].items();
        sizes[*cell] = size_of(sizes.as_slice(), exts[*cell].uses.items(), children);
    }
    Ok(sizes)
}

/// The numbers of the records that a root reaches, where it has no fault up to the number of elements. It takes time near-linear in the
/// uses of all records, however many elements they have.
///
/// The first use that leads to no record or back is refused as `NoCell` or `Cycle`, and then chains that are too long and elements that are
/// too many as `TooMany`; beside that `Memory` alone refuses.
pub fn reached_records(
    alloc: Global,
    exts: &[ArrayExt],
    thin: &[CellExt],
    root: usize,
) -> Result<List<usize>, FlatFault>
    requires records { AreArrayRecords exts.now }
    requires thin { thin.now ≡ thins exts.now }
    requires root { root < length exts.now }
    ensures sound { IfOk result (λ order. HasNoReachFault (plains exts.now) root) }
    ensures order { IfOk result (λ order. AreReached (plains exts.now) root order) }
    ensures fault { IfErr result (λ fault. (fault ≡ FlatFault.Memory) ⊎ IsReachFaultOf (plains exts.now) root fault) }
{
    let graph = record_graph(alloc, thin, root)?;
    if chain_lengths(alloc, thin, &graph)?[root] > LONGEST_CHAIN {
        return Err(FlatFault::TooMany(CircuitLimit::Depth));
    }
    if sizes(alloc, exts, &graph)?[root] > MOST_FLAT_ELEMENTS {
        return Err(FlatFault::TooMany(CircuitLimit::Elements));
    }
    Ok(graph.order)
}
