//! How many bytes the full names of a tree have.

ghost use Rattle.std.specs.Prelude.{◌≡◌, ◌+◌, ◌<◌, ◌≤◌, length, IfOk, IfErr, OnOk};
ghost use Rattle.full_names.specs.Reached.{AreOfRecords};
ghost use Rattle.full_names.specs.steps.ByteCounts.{global_bytes, local_bytes, element_bytes};

use crate::globals::GlobalName;
use crate::own_names::{OwnName, RecordNames};
use circuit_model::{CircuitLimit, FlatFault, MOST_NAME_BYTES};
use element_tree::ElementTree;

// the sum, if it is within the limit
fn add_bytes(total: usize, more: usize) -> Result<usize, FlatFault>
    ensures sum { IfOk result (λ sum. sum ≡ total + more) }
    ensures few { IfOk result (λ sum. sum ≤ MOST_NAME_BYTES) }
    ensures fault { IfErr result (λ fault. fault ≡ FlatFault.TooMany CircuitLimit.Names) }
    ensures many { IfErr result (λ fault. MOST_NAME_BYTES < total + more) }
{
    match total.checked_add(more) {
        Some(sum) if sum <= MOST_NAME_BYTES => Ok(sum),
        _ => Err(FlatFault::TooMany(CircuitLimit::Names)),
    }
}

// the bytes of the global names
fn add_global_bytes(globals: &[GlobalName<'_>]) -> Result<usize, FlatFault>
    ensures sum { IfOk result (λ sum. sum ≡ global_bytes globals.now) }
    ensures few { IfOk result (λ sum. sum ≤ MOST_NAME_BYTES) }
    ensures fault { IfErr result (λ fault. fault ≡ FlatFault.TooMany CircuitLimit.Names) }
    ensures many { IfErr result (λ fault. MOST_NAME_BYTES < global_bytes globals.now) }
{
    let mut total = 0;
    for name in globals {
        total = add_bytes(total, name.length)?;
    }
    Ok(total)
}

// adds the bytes of the full names of an element's names that are not global
fn add_local_bytes(
    before: usize,
    path_bytes: usize,
    names: &[OwnName<'_>],
) -> Result<usize, FlatFault>
    requires { before ≤ MOST_NAME_BYTES }
    ensures sum { IfOk result (λ sum. sum ≡ before + local_bytes path_bytes names.now) }
    ensures few { IfOk result (λ sum. sum ≤ MOST_NAME_BYTES) }
    ensures fault { IfErr result (λ fault. fault ≡ FlatFault.TooMany CircuitLimit.Names) }
    ensures many { IfErr result (λ fault. MOST_NAME_BYTES < before + local_bytes path_bytes names.now) }
{
    let mut total = before;
    for name in names {
        total = add_bytes(total, path_bytes)?;
        total = add_bytes(total, name.text.len())?;
    }
    Ok(total)
}

/// The full names have few enough bytes. It takes no memory, and time linear in the elements and in the names up to the limit.
pub(crate) fn check_bytes(
    tree: &ElementTree,
    records: &[RecordNames<'_>],
    globals: &[GlobalName<'_>],
) -> Result<(), FlatFault>
    requires { AreOfRecords (length records.now) tree.now.elements }
    ensures few { OnOk result (global_bytes globals.now + element_bytes records.now tree.now.elements ≤ MOST_NAME_BYTES) }
    ensures fault { IfErr result (λ fault. fault ≡ FlatFault.TooMany CircuitLimit.Names) }
    ensures many { IfErr result (λ fault. MOST_NAME_BYTES < global_bytes globals.now + element_bytes records.now tree.now.elements) }
{
    let mut total = add_global_bytes(globals)?;
    for element in tree.elements.items() {
        let locals = records[element.cell].locals.as_slice();
        total = add_local_bytes(total, element.bytes, locals)?;
    }
    Ok(())
}
