//! Flattening of records with arrays and rows of merges.
ghost use Rattle.std.specs.Prelude.{◌≡◌, ◌⊎◌, ◌<◌, true, false, length, All, IsSome, IfOk, IfErr};
ghost use Rattle.circuit_model.specs.Elements.{AreRecords, ext_of};
ghost use Rattle.circuit_model.specs.Refusals.{IsFlatOf, IsFlatFaultOf, flat_fault};
ghost use Rattle.plain_records.specs.Plains.{plains, AreArrayRecords};
ghost use Rattle.plain_records.specs.Thin.{thins};
ghost use Rattle.plain_records.specs.Reached.{AreReached, HasNoReachFault, AreCalled, IsExpandedAt};
ghost use Rattle.flatten.specs.Sinks.{AllFit, IsGiven, with_fets};
ghost use Rattle.flatten.specs.steps.Stages.{IsFaultAt};

use crate::flat::{elements_at, flatten_plain};
use crate::sinks::{AllFets, FetSink, GivenCircuit};
use circuit_model::FlatFault;
use ext_model::{ArrayExt, CellExt, Circuit};
use name_classes::full_names::full_names;
use names_lists::{List, Name};
use plain_records::flat_limits::{check_nodes, root_number};
use plain_records::{check_rows, expanded, may_have_too_many, reached_records, thin_records};
use std::alloc::Global;

// The tree has no fault up to the number of merges, which are counted by their rows. The records of the tree were made without them.
fn check_counts(
    alloc: Global,
    exts: &[ArrayExt],
    bare: &[CellExt],
    root: usize,
) -> Result<(), FlatFault>
    requires records { AreArrayRecords exts.now }
    requires bare { IsExpandedAt false exts.now root bare.now }
    requires root { root < length exts.now }
    requires sound { HasNoReachFault (plains exts.now) root }
    ensures { IfErr result (λ fault. (fault ≡ FlatFault.Memory) ⊎ IsFaultAt flat_fault (plains exts.now) root fault) }
{
    let tree = elements_at(alloc, bare, root)?;
    check_nodes(alloc, bare, root, &tree)?;
    full_names(alloc, bare, root, &tree)?;
    check_rows(alloc, exts, bare, root, &tree)
}

// Records of the same cells, where the tree has not so many merges that they can't be made.
fn counted_records(
    alloc: Global,
    exts: &[ArrayExt],
    order: &[usize],
    thin: Vec<CellExt>,
    root: usize,
) -> Result<Vec<CellExt>, FlatFault>
    requires records { AreArrayRecords exts.now }
    requires thin { thin.items ≡ thins exts.now }
    requires root { root < length exts.now }
    requires sound { HasNoReachFault (plains exts.now) root }
    requires order { AreReached (plains exts.now) root order.now }
    ensures lawful { IfOk result (λ records. AreRecords records.items) }
    ensures called { IfOk result (λ records. AreCalled exts.now records.items) }
    ensures fault { IfErr result (λ fault. (fault ≡ FlatFault.Memory) ⊎ IsFaultAt flat_fault (plains exts.now) root fault) }
{
    if !may_have_too_many(exts, order) {
        return Ok(thin);
    }
    let bare = expanded(alloc, exts, order, thin, false)?;
    check_counts(alloc, exts, bare.as_slice(), root)?;
    Ok(bare)
}

// Records with the plain forms of all that the root reaches in their places.
fn plain_records(
    alloc: Global,
    exts: &[ArrayExt],
    thin: Vec<CellExt>,
    root: usize,
) -> Result<Vec<CellExt>, FlatFault>
    requires records { AreArrayRecords exts.now }
    requires thin { thin.items ≡ thins exts.now }
    requires root { root < length exts.now }
    ensures records { IfOk result (λ records. IsExpandedAt true exts.now root records.items) }
    ensures fault { IfErr result (λ fault. (fault ≡ FlatFault.Memory) ⊎ IsFaultAt flat_fault (plains exts.now) root fault) }
{
    let order = reached_records(alloc, exts, thin.as_slice(), root)?;
    let records = counted_records(alloc, exts, order.items(), thin, root)?;
    Ok(expanded(alloc, exts, order.items(), records, true)?)
}

/// The flat circuit of the tree of records whose root is this cell's, with its transistors given to a sink, in order. It takes time near-linear
/// in the uses of all records, and in the names, merges and transistors of all elements.
///
/// The records are lawful, no two are of one cell, and one is the root's. What they say is said of their plain forms, in which each element
/// is a use and each merge a record of its own. They are refused where they have a fault at or below the root: the first use, depth first,
/// that leads to no record (`NoCell`) or back (`Cycle`); then the first number past its limit, of the longest chain, elements, records of
/// nodes, bytes of names and records of merges (`TooMany`); then the first cell, in the order of elements, whose number of classes is not the
/// root's (`Classes`); then the first path, by element and merge, that leads to no node (`NoPath`). Beside that `Memory` alone refuses.
pub fn flatten_into<S: FetSink>(
    alloc: Global,
    exts: &[ArrayExt],
    root: &Name,
) -> Result<GivenCircuit<S>, FlatFault>
    requires records { AreArrayRecords exts.now }
    requires root { IsSome (ext_of (plains exts.now) root.now) }
    requires fit { AllFit S.fits }
    ensures meaning { IfOk result (IsGiven S.has (IsFlatOf (plains exts.now) root.now)) }
    ensures fault { IfErr result (λ fault. (fault ≡ FlatFault.Memory) ⊎ IsFlatFaultOf (plains exts.now) root.now fault) }
{
    let thin = thin_records(alloc, exts)?;
    let top = root_number(thin.as_slice(), root);
    let records = plain_records(alloc, exts, thin, top)?;
    flatten_plain(alloc, records.as_slice(), root)
}

/// The circuit all of whose transistors were given. It takes no memory.
pub fn circuit_given(given: GivenCircuit<AllFets>) -> Circuit
    ensures { result ≡ with_fets given given.sink.fets.items }
{
    let GivenCircuit {
        tech,
        classes,
        nodes,
        sink: AllFets { fets },
    } = given;
    Circuit {
        tech,
        classes,
        nodes,
        fets: List::of(fets),
    }
}
