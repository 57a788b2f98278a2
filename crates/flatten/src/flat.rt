//! Flattening of plain records.
ghost use Rattle.std.specs.Prelude.{◌≡◌, ◌⊎◌, ◌<◌, length, IsSome, IfOk, IfErr};
ghost use Rattle.circuit_model.specs.Elements.{AreRecords, ext_of};
ghost use Rattle.circuit_model.specs.Refusals.{IsFlatOf, IsFlatFaultOf};
ghost use Rattle.element_tree.specs.Trees.{IsTreeOf};
ghost use Rattle.name_classes.specs.FullNames.Names.{AreNames};
ghost use Rattle.flatten.specs.Sinks.{AllFit, IsGiven};
ghost use Rattle.flatten.specs.steps.Stages.{HasNoUseFault, IsUseFaultOf, HasNoCountFault, IsCountFaultOf, HasNoLateFault, IsLateFaultOf, IsMeantAt};

use crate::circuits::circuit_of;
use crate::sinks::{FetSink, GivenCircuit};
use circuit_model::FlatFault;
use element_tree::{ElementTree, element_tree, record_graph};
use ext_model::CellExt;
use name_classes::full_names::{FullNames, full_names};
use name_classes::name_classes;
use names_lists::Name;
use plain_records::flat_limits::{check_classes, check_merges, check_nodes, root_number};
use std::alloc::Global;

/// The elements of the tree at a record, where it has no fault up to their number.
pub fn elements_at(alloc: Global, exts: &[CellExt], root: usize) -> Result<ElementTree, FlatFault>
    requires records { AreRecords exts.now }
    requires root { root < length exts.now }
    ensures sound { IfOk result (λ tree. HasNoUseFault exts.now root) }
    ensures tree { IfOk result (λ tree. IsTreeOf exts.now root tree) }
    ensures fault { IfErr result (λ fault. (fault ≡ FlatFault.Memory) ⊎ IsUseFaultOf exts.now root fault) }
{
    let graph = record_graph(alloc, exts, root)?;
    element_tree(alloc, exts, &graph, root)
}

// the names of all nodes of a tree, where it has no fault in any number
fn counted_names<'a>(
    alloc: Global,
    exts: &'a [CellExt],
    root: usize,
    tree: &'a ElementTree,
) -> Result<FullNames<'a>, FlatFault>
    requires records { AreRecords exts.now }
    requires root { root < length exts.now }
    requires tree { IsTreeOf exts.now root tree.now }
    ensures few { IfOk result (λ names. HasNoCountFault exts.now root) }
    ensures names { IfOk result (λ names. AreNames names) }
    ensures exts { IfOk result (λ names. names.exts.now ≡ exts.now) }
    ensures root { IfOk result (λ names. names.root ≡ root) }
    ensures tree { IfOk result (λ names. names.tree.now ≡ tree.now) }
    ensures fault { IfErr result (λ fault. (fault ≡ FlatFault.Memory) ⊎ IsCountFaultOf exts.now root fault) }
{
    check_nodes(alloc, exts, root, tree)?;
    let names = full_names(alloc, exts, root, tree)?;
    check_merges(alloc, exts, root, tree)?;
    Ok(names)
}

// the circuit of a tree, where it has no fault in its classes and paths
fn meant_circuit<S: FetSink>(
    alloc: Global,
    exts: &[CellExt],
    root: usize,
    tree: &ElementTree,
    names: &FullNames<'_>,
) -> Result<GivenCircuit<S>, FlatFault>
    requires names { AreNames names.now }
    requires exts { exts.now ≡ names.now.exts.now }
    requires root { root ≡ names.now.root }
    requires tree { tree.now ≡ names.now.tree.now }
    requires few { HasNoCountFault exts.now root }
    requires fit { AllFit S.fits }
    ensures sound { IfOk result (λ circuit. HasNoLateFault exts.now root) }
    ensures meaning { IfOk result (IsGiven S.has (IsMeantAt exts.now root)) }
    ensures fault { IfErr result (λ fault. (fault ≡ FlatFault.Memory) ⊎ IsLateFaultOf exts.now root fault) }
{
    check_classes(alloc, exts, root, tree)?;
    let classes = name_classes(alloc, exts, tree, names)?;
    Ok(circuit_of(alloc, exts, &exts[root], tree, names, &classes)?)
}

/// The flat circuit of the tree of plain records whose root is this cell's.
pub fn flatten_plain<S: FetSink>(
    alloc: Global,
    exts: &[CellExt],
    root: &Name,
) -> Result<GivenCircuit<S>, FlatFault>
    requires records { AreRecords exts.now }
    requires root { IsSome (ext_of exts.now root.now) }
    requires fit { AllFit S.fits }
    ensures meaning { IfOk result (IsGiven S.has (IsFlatOf exts.now root.now)) }
    ensures fault { IfErr result (λ fault. (fault ≡ FlatFault.Memory) ⊎ IsFlatFaultOf exts.now root.now fault) }
{
    let top = root_number(exts, root);
    let tree = elements_at(alloc, exts, top)?;
    let names = counted_names(alloc, exts, top, &tree)?;
    meant_circuit(alloc, exts, top, &tree, &names)
}
