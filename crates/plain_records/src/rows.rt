//! How many merges the rows of a tree stand for.
ghost use Rattle.std.specs.Prelude.{◌≡◌, ◌⊎◌, ◌<◌, All, IfOk, IfErr, false, length, map};
ghost use Rattle.std.specs.List.{flat_map};
ghost use Rattle.ext_model.specs.Plain.{plain_merges};
ghost use Rattle.flat_limits.specs.ElementTree.Trees.{IsTreeOf};
ghost use Rattle.flat_limits.specs.Counts.{HasNoMergeFault, IsMergeFaultOf};
ghost use Rattle.plain_records.specs.Plains.{plains, AreArrayRecords};
ghost use Rattle.plain_records.specs.Reached.{IsExpandedAt};
ghost use Rattle.plain_records.specs.steps.Rows.{capped, merges_in};

use circuit_model::{CircuitLimit, FlatFault, MOST_MERGES};
use ext_model::{ArrayExt, CellExt, MergeRow};
use flat_limits::element_tree::ElementTree;
use flat_limits::is_past;
use std::alloc::{AllocError, Global};

// How many merges the rows stand for, or one more than the most.
fn merges_in(rows: &[MergeRow]) -> usize
    ensures { result ≡ capped (length (flat_map plain_merges rows.now)) }
{
    let most = MOST_MERGES as u64 + 1;
    let mut count = 0;
    for row in rows {
        count = (count + row.count.min(most)).min(most);
    }
    count as usize
}

// How many merges each record has.
fn row_sizes(alloc: Global, exts: &[ArrayExt]) -> Result<Vec<usize>, AllocError>
    ensures { IfOk result (λ sizes. sizes.items ≡ map merges_in exts.now) }
{
    let mut sizes = Vec::with_capacity(alloc, exts.len())?;
    for ext in exts {
        sizes.push(merges_in(ext.merges.items()))?;
    }
    Ok(sizes)
}

/// Whether the records in the order have more merges, each record taken once, than a tree may have.
pub fn may_have_too_many(exts: &[ArrayExt], order: &[usize]) -> bool
    requires { All (λ cell. cell < length exts.now) order.now }
{
    let mut count = 0;
    for cell in order {
        count = (count + merges_in(exts[*cell].merges.items())).min(MOST_MERGES + 1);
    }
    count > MOST_MERGES
}

/// The elements of a tree have no more merges than they may have together, where the records of the tree were made without them.
///
/// More are refused as `TooMany(Merges)`; beside that `Memory` alone refuses.
pub fn check_rows(
    alloc: Global,
    exts: &[ArrayExt],
    bare: &[CellExt],
    root: usize,
    tree: &ElementTree,
) -> Result<(), FlatFault>
    requires records { AreArrayRecords exts.now }
    requires bare { IsExpandedAt false exts.now root bare.now }
    requires root { root < length exts.now }
    requires tree { IsTreeOf bare.now root tree.now }
    ensures few { IfOk result (λ _. HasNoMergeFault (plains exts.now) root) }
    ensures fault { IfErr result (λ fault. (fault ≡ FlatFault.Memory) ⊎ IsMergeFaultOf (plains exts.now) root fault) }
{
    let sizes = row_sizes(alloc, exts)?;
    if is_past(MOST_MERGES, sizes.as_slice(), tree.elements.items()) {
        return Err(FlatFault::TooMany(CircuitLimit::Merges));
    }
    Ok(())
}
