//! The groups of the members of cells, told by the records that are kept of them.
ghost use Rattle.std.specs.Prelude.{◌≡◌, [], ◌∷◌, nat_eq, IfOk, IsSome, OnOk, Some};
ghost use Rattle.std.specs.HashMap.{get as entry_at};
ghost use Rattle.ext_model.specs.declared.arrays.ArrayExt.{ArrayExt as IsRecord};
ghost use Rattle.ext_model.specs.Paths.{path_text};
ghost use Rattle.ext_model.specs.Plain.{plain};
ghost use Rattle.ext_model.specs.Tables.{ext_of};
ghost use Rattle.tile_members.specs.MergedMembers.{first_member};
ghost use Rattle.tile_members.specs.steps.MemberNames.{kept_in, AreGroupsOf};

use crate::groups::RecordGroups;
use element_paths::Step;
use ext_model::{CellKey, ExtTable, SLASH};
use std::alloc::{AllocError, Global};
use std::collections::HashMap;

/// The groups of the records of some cells, by the positions of the cells.
#[derive(Drop)]
pub struct GroupTable<'a> {
    entries: HashMap<usize, RecordGroups<'a>>,
}

// A name below an element of this name.
fn path_of(alloc: Global, id: &[u8], name: &[u8]) -> Result<Vec<u8>, AllocError>
    ensures { IfOk result (λ path. path.items ≡ path_text (id.now ∷ []) name.now) }
{
    let mut path = Vec::with_capacity(alloc, id.len() + 1 + name.len())?;
    path.extend_from_slice(id)?;
    path.push(SLASH)?;
    path.extend_from_slice(name)?;
    Ok(path)
}

impl<'a> GroupTable<'a> {
    /// The groups of no cell. It takes no memory.
    pub fn new(alloc: Global) -> GroupTable<'a>
        ensures { result.entries.entries ≡ [] }
    {
        GroupTable {
            entries: HashMap::new(alloc),
        }
    }

    // Finds out about the groups of a cell, unless they are known. Want of memory alone refuses.
    fn enter(
        &mut self,
        alloc: Global,
        records: &'a ExtTable,
        cell: CellKey,
    ) -> Result<(), AllocError>
        requires groups { AreGroupsOf (kept_in records.now) self.old }
        requires kept { IsSome (ext_of records.now cell) }
        ensures groups { AreGroupsOf (kept_in records.now) self.new }
        ensures entered { OnOk result (IsSome (entry_at nat_eq self.new.entries cell.0)) }
    {
        if !self.entries.contains_key(&cell.0) {
            let groups = match records.get(cell) {
                Some(ext) => RecordGroups::of(alloc, ext)?,
                None => unreachable!(),
            };
            self.entries.insert(cell.0, groups)?;
        }
        Ok(())
    }

    /// The name of the member above a step whose group has a member of the cell below, of this name. Want of memory alone refuses.
    pub fn name_above(
        &mut self,
        alloc: Global,
        records: &'a ExtTable,
        step: &Step,
        below: &[u8],
    ) -> Result<Vec<u8>, AllocError>
        requires groups { AreGroupsOf (kept_in records.now) self.old }
        requires kept { IsSome (ext_of records.now step.now.child) }
        ensures groups { AreGroupsOf (kept_in records.now) self.new }
        ensures name { IfOk result (λ name. (ext : IsRecord) → ext_of records.now step.now.child ≡ Some ext
            → name.items ≡ path_text (step.now.id ∷ []) (first_member (plain ext).merges below.now)) }
    {
        self.enter(alloc, records, step.child)?;
        match self.entries.get(&step.child.0) {
            Some(groups) => match groups.first_member(below) {
                Some(first) => path_of(alloc, step.id.bytes(), first.bytes()),
                None => path_of(alloc, step.id.bytes(), below),
            },
            None => unreachable!(),
        }
    }
}
