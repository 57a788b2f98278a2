//! The groups of members by the merges of a record.
ghost use Rattle.std.specs.Prelude.{◌≡◌, ℕ, List, Some, if◌then◌else◌, IfOk, OnOk};
ghost use Rattle.std.specs.HashMap.{get_by};
ghost use Rattle.std.specs.Option.{option_copied, unwrap_or};
ghost use Rattle.std.specs.Str.{bytes_eq};
ghost use Rattle.ext_model.specs.Plain.{plain};
ghost use Rattle.tile_members.specs.MergedMembers.{first_member};
ghost use Rattle.tile_members.specs.steps.MergeTables.{has_second};

use ext_model::{ArrayExt, MergeRow};
use indexmap::IndexMap;
use merge_rows::raised_text;
use names_lists::Name;
use std::alloc::{AllocError, Global};
use std::marker::Model;

/// The merges of a record, found by their second members. Contracts see them as the list of the merges, each by itself.
#[derive(Drop)]
pub struct RecordGroups<'a> {
    rows: &'a [MergeRow],
    // the number of the first row with a merge that has these bytes as its second member
    by_second: IndexMap<Vec<u8>, usize>,
}

impl<'a> Model for RecordGroups<'a> {
    ghost use Rattle.std.specs.Prelude.{List};
    ghost use Rattle.std.specs.HashMap.{get_by};
    ghost use Rattle.std.specs.List.{flat_map};
    ghost use Rattle.std.specs.Str.{bytes_eq};
    ghost use Rattle.ext_model.specs.declared.records.MergeRec.{MergeRec};
    ghost use Rattle.ext_model.specs.Plain.{plain_merges};
    ghost use Rattle.tile_members.specs.steps.MergeTables.{FindFirst};

    ghost Value = { List MergeRec };

    ghost view = { λ groups. flat_map plain_merges groups.rows.now };

    ghost invariant = { λ groups. FindFirst 0 groups.rows.now (λ member. get_by (λ key. bytes_eq member key.items) groups.by_second) };
}

// Notes the number of a row under the second member of each of its merges. Want of memory alone refuses.
fn add_row(
    alloc: Global,
    by_second: &mut IndexMap<Vec<u8>, usize>,
    row: &MergeRow,
    number: usize,
) -> Result<(), AllocError>
    ensures { OnOk result ((member : List ℕ) → get_by (λ key. bytes_eq member key.items) by_second.new
        ≡ (if has_second member row.now then Some number else get_by (λ key. bytes_eq member key.items) by_second.old)) }
{
    for steps in 0..row.count {
        by_second.insert(raised_text(alloc, row.second.bytes(), steps)?, number)?;
    }
    Ok(())
}

impl<'a> RecordGroups<'a> {
    /// The groups of a record. Want of memory alone refuses. It looks at each merge once, and takes memory in proportion to their number.
    pub fn of(alloc: Global, ext: &'a ArrayExt) -> Result<RecordGroups<'a>, AllocError>
        ensures { IfOk result (λ groups. groups ≡ (plain ext.now).merges) }
    {
        let rows = ext.merges.items();
        let mut by_second = IndexMap::with_capacity(alloc, rows.len())?;
        for number in (0..rows.len()).rev() {
            add_row(alloc, &mut by_second, &rows[number], number)?;
        }
        Ok(RecordGroups { rows, by_second })
    }

    /// The first member of the group of a member, by name. None where no merge has the member as its second, so that it is the first itself.
    /// It takes a constant number of steps on an average, and no memory.
    pub fn first_member(&self, member: &[u8]) -> Option<&Name>
        ensures { unwrap_or (option_copied result) member.now ≡ first_member self.now member.now }
    {
        let number = *self.by_second.get(member)?;
        Some(&self.rows[number].first)
    }
}
