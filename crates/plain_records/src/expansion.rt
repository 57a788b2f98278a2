//! Thin records, and plain ones in their places.
ghost use Rattle.std.specs.Prelude.{◌≡◌, ◌<◌, All, Bool, IfOk, length, map, if◌then◌else◌, []};
ghost use Rattle.std.specs.List.{flat_map};
ghost use Rattle.ext_model.specs.LawfulArrays.{IsArrayUse, IsLawfulArrayExt};
ghost use Rattle.ext_model.specs.Plain.{plain, plain_uses, plain_merges};
ghost use Rattle.circuit_model.specs.Elements.{AreRecords};
ghost use Rattle.plain_records.specs.Plains.{AreArrayRecords};
ghost use Rattle.plain_records.specs.Thin.{first_use, thin, thins};
ghost use Rattle.plain_records.specs.Reached.{form, AreCalled, AreExpanded};

use crate::merges::add_merges;
use crate::uses::{add_elements, first_use};
use ext_model::{
    ArrayExt, ArrayUse, CellExt, MergeRec, MergeRow, UseRec, copy_numbers, copy_parts,
};
use names_lists::List;
use std::alloc::{AllocError, Global};

// The first elements of uses.
fn first_uses(alloc: Global, uses: &[ArrayUse]) -> Result<Vec<UseRec>, AllocError>
    requires { All IsArrayUse uses.now }
    ensures { IfOk result (λ firsts. firsts.items ≡ map first_use uses.now) }
{
    let mut firsts = Vec::with_capacity(alloc, uses.len())?;
    for used in uses {
        firsts.push(first_use(alloc, used)?)?;
    }
    Ok(firsts)
}

// The thin form of a record.
fn thin(alloc: Global, ext: &ArrayExt) -> Result<CellExt, AllocError>
    requires { IsLawfulArrayExt ext.now }
    ensures { IfOk result (λ one. one ≡ thin ext.now) }
{
    Ok(CellExt {
        cell: ext.cell.copy(alloc)?,
        tech: ext.tech.copy(alloc)?,
        classes: List::of(Vec::new(alloc)),
        uses: List::of(first_uses(alloc, ext.uses.items())?),
        nodes: List::of(Vec::new(alloc)),
        fets: List::of(Vec::new(alloc)),
        merges: List::of(Vec::new(alloc)),
    })
}

/// The thin forms of records: of each its cell and the first element of each of its uses. Want of memory alone refuses.
pub fn thin_records(alloc: Global, exts: &[ArrayExt]) -> Result<Vec<CellExt>, AllocError>
    requires { AreArrayRecords exts.now }
    ensures { IfOk result (λ records. records.items ≡ thins exts.now) }
{
    let mut records = Vec::with_capacity(alloc, exts.len())?;
    for ext in exts {
        records.push(thin(alloc, ext)?)?;
    }
    Ok(records)
}

// The elements of uses.
fn all_elements(alloc: Global, uses: &[ArrayUse]) -> Result<Vec<UseRec>, AllocError>
    requires { All IsArrayUse uses.now }
    ensures { IfOk result (λ elements. elements.items ≡ flat_map plain_uses uses.now) }
{
    let mut elements = Vec::new(alloc);
    for used in uses {
        add_elements(alloc, &mut elements, used)?;
    }
    Ok(elements)
}

// The merges of rows, where they are wanted.
fn all_merges(alloc: Global, rows: &[MergeRow], merged: bool) -> Result<Vec<MergeRec>, AllocError>
    ensures { IfOk result (λ merges. merges.items ≡ (if merged then flat_map plain_merges rows.now else [])) }
{
    let mut merges = Vec::new(alloc);
    if merged {
        for row in rows {
            add_merges(alloc, &mut merges, row)?;
        }
    }
    Ok(merges)
}

// The plain form of a record, with its merges or without.
fn form(alloc: Global, ext: &ArrayExt, merged: bool) -> Result<CellExt, AllocError>
    requires { IsLawfulArrayExt ext.now }
    ensures { IfOk result (λ one. one ≡ form merged ext.now) }
{
    Ok(CellExt {
        cell: ext.cell.copy(alloc)?,
        tech: ext.tech.copy(alloc)?,
        classes: copy_numbers(alloc, &ext.classes)?,
        uses: List::of(all_elements(alloc, ext.uses.items())?),
        nodes: copy_parts(alloc, &ext.nodes)?,
        fets: copy_parts(alloc, &ext.fets)?,
        merges: List::of(all_merges(alloc, ext.merges.items(), merged)?),
    })
}

/// Records of the same cells with the plain forms of those in the order in their places, with their merges or without. Want of memory
/// alone refuses.
pub fn expanded(
    alloc: Global,
    exts: &[ArrayExt],
    order: &[usize],
    mut records: Vec<CellExt>,
    merged: bool,
) -> Result<Vec<CellExt>, AllocError>
    requires exts { AreArrayRecords exts.now }
    requires within { All (λ cell. cell < length exts.now) order.now }
    requires records { AreRecords records.items }
    requires called { AreCalled exts.now records.items }
    ensures { IfOk result (λ records. AreExpanded merged exts.now order.now records.items) }
{
    for cell in order {
        records[*cell] = form(alloc, &exts[*cell], merged)?;
    }
    Ok(records)
}
