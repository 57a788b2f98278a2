//! The graph of records.
ghost use Rattle.std.specs.Prelude.{◌≡◌, ◌⊎◌, ◌<◌, map, length, position, IfOk, IfErr};
ghost use Rattle.std.specs.Str.{bytes_eq};
ghost use Rattle.circuit_model.specs.Elements.{AreRecords};
ghost use Rattle.element_tree.specs.Graphs.{IsGraphOf, HasNoWalkFault, IsWalkFaultOf};
ghost use Rattle.element_tree.specs.steps.Goals.{cells_of, goals_in, goal_graph, found_goals, IsUseAt, IsUseOf, IsCellAt, IsNamedFault};

use crate::faults::{UsePlace, WalkFault};
use crate::walks::walk;
use circuit_model::FlatFault;
use ext_model::{CellExt, UseRec};
use name_index::NameIndex;
use names_lists::{List, Name};
use std::alloc::{AllocError, Global};

/// Where the uses of records lead.
#[derive(Debug, Drop)]
pub struct RecordGraph {
    /// At each record that is reached, the record that each of its uses leads to.
    pub children: List<List<usize>>,
    /// Records, each behind all that its uses lead to; the root and all records below it are among them.
    pub order: List<usize>,
}

// The number of each record, under the name of its cell.
fn index_of(alloc: Global, exts: &[CellExt]) -> Result<NameIndex, AllocError>
    requires { AreRecords exts.now }
    ensures { IfOk result (λ index. index ≡ cells_of exts.now) }
{
    let mut index = NameIndex::new(alloc);
    for ext in exts {
        index.insert(ext.cell.bytes())?;
    }
    Ok(index)
}

// The record that each use leads to, where there is one.
fn goals_of(
    alloc: Global,
    index: &NameIndex,
    uses: &[UseRec],
) -> Result<Vec<Option<usize>>, AllocError>
    ensures { IfOk result (λ goals. goals.items ≡ map (λ used. position (bytes_eq used.cell) index.now) uses.now) }
{
    uses.iter()
        .map(|used| index.find(used.cell.bytes()))
        .collect(alloc)
}

// The same for each record.
fn all_goals(
    alloc: Global,
    index: &NameIndex,
    exts: &[CellExt],
) -> Result<Vec<List<Option<usize>>>, AllocError>
    ensures { IfOk result (λ graph. graph.items ≡ goal_graph index.now exts.now) }
{
    let mut graph = Vec::new(alloc);
    for ext in exts {
        graph.push(List::of(goals_of(alloc, index, ext.uses.items())?))?;
    }
    Ok(graph)
}

// The records that uses lead to, without the uses that lead to none.
fn found(alloc: Global, goals: &[Option<usize>]) -> Result<List<usize>, AllocError>
    ensures { IfOk result (λ children. children ≡ found_goals goals.now) }
{
    let mut children = Vec::new(alloc);
    for goal in goals {
        if let Some(child) = goal {
            children.push(*child)?;
        }
    }
    Ok(List::of(children))
}

// The same for each record.
fn all_found(alloc: Global, graph: &[List<Option<usize>>]) -> Result<List<List<usize>>, AllocError>
    ensures { IfOk result (λ children. children ≡ map found_goals graph.now) }
{
    let mut children = Vec::new(alloc);
    for goals in graph {
        children.push(found(alloc, goals.items())?)?;
    }
    Ok(List::of(children))
}

// The name of the cell that the use has.
fn cell_at(alloc: Global, exts: &[CellExt], place: UsePlace) -> Result<Name, AllocError>
    requires { IsUseAt exts.now place }
    ensures { IfOk result (λ name. IsCellAt exts.now place name) }
{
    exts[place.cell].uses.items()[place.at].cell.copy(alloc)
}

// The fault of a walk, with the name of the cell that the use has. Want of memory alone refuses.
fn named(alloc: Global, exts: &[CellExt], fault: WalkFault) -> Result<FlatFault, AllocError>
    requires { IsUseOf exts.now fault }
    ensures { IfOk result (λ named. IsNamedFault exts.now fault named) }
{
    match fault {
        WalkFault::NoCell(place) => Ok(FlatFault::NoCell(cell_at(alloc, exts, place)?)),
        WalkFault::Cycle(place) => Ok(FlatFault::Cycle(cell_at(alloc, exts, place)?)),
        WalkFault::Memory => Ok(FlatFault::Memory),
    }
}

/// The graph of the records at and below a root. It takes time near-linear in the uses of all records.
///
/// The first use, depth first, that leads to no record or back to one that it is at or below is told as `NoCell` or `Cycle` with the
/// name of its cell; beside that `Memory` alone refuses.
pub fn record_graph(alloc: Global, exts: &[CellExt], root: usize) -> Result<RecordGraph, FlatFault>
    requires records { AreRecords exts.now }
    requires root { root < length exts.now }
    ensures sound { IfOk result (λ graph. HasNoWalkFault exts.now root) }
    ensures graph { IfOk result (λ graph. IsGraphOf exts.now root graph) }
    ensures fault { IfErr result (λ fault. (fault ≡ FlatFault.Memory) ⊎ IsWalkFaultOf exts.now root fault) }
{
    let index = index_of(alloc, exts)?;
    let graph = all_goals(alloc, &index, exts)?;
    match walk(alloc, &graph, root) {
        Ok(order) => Ok(RecordGraph {
            children: all_found(alloc, &graph)?,
            order: List::of(order),
        }),
        Err(fault) => Err(named(alloc, exts, fault)?),
    }
}
