//! The names of members, by the nodes that are of them.
ghost use Rattle.std.specs.Prelude.{◌≡◌, ◌<◌, [], ℕ, All, IfOk, IsSome, length};
ghost use Rattle.layout_model.specs.CellTrees.{standings};
ghost use Rattle.ext_model.specs.Tables.{ext_of};
ghost use Rattle.element_paths.specs.CellLibrary.LayoutTrees.{tree_at};
ghost use Rattle.element_paths.specs.CellLibrary.Libraries.{seen};
ghost use Rattle.element_paths.specs.ElementPaths.{AreStepsTo};
ghost use Rattle.tile_members.specs.steps.Finding.{HasMembers};
ghost use Rattle.tile_members.specs.steps.MemberNames.{kept_in, AreGroupsOf, LeadsToMember};

use crate::group_tables::GroupTable;
use crate::records_tell_groups;
use element_paths::cell_library::Reader;
use element_paths::{ElementPaths, Step};
use ext_model::{CellKey, ExtTable};
use names_lists::Name;
use std::alloc::{AllocError, Global};

/// Finds the names of members in a library of whose cells there are records.
#[derive(Drop)]
pub struct MemberNames<'a> {
    alloc: Global,
    records: &'a ExtTable,
    paths: ElementPaths<'a>,
    groups: GroupTable<'a>,
}

impl<'a> MemberNames<'a> {
    /// Names in this library. It takes no memory now.
    pub fn of(alloc: Global, library: &'a Reader<'a>, records: &'a ExtTable) -> MemberNames<'a>
        ensures paths { result.paths ≡ library.now }
        ensures records { result.records.now ≡ records.now }
        ensures groups { result.groups.entries.entries ≡ [] }
    {
        MemberNames {
            alloc,
            records,
            paths: ElementPaths::of(alloc, library),
            groups: GroupTable::new(alloc),
        }
    }

    // The name of the member to which the steps lead up from the node of this name.
    fn climb(
        &mut self,
        library: &Reader<'_>,
        steps: &[Step],
        node: &Name,
    ) -> Result<Vec<u8>, AllocError>
        requires groups { AreGroupsOf (kept_in self.old.records.now) self.old.groups }
        requires kept { All (λ step. IsSome (ext_of self.old.records.now step.child)) steps.now }
        ensures paths { self.new.paths ≡ self.old.paths }
        ensures records { self.new.records ≡ self.old.records }
        ensures groups { AreGroupsOf (kept_in self.new.records.now) self.new.groups }
        ensures leads { IfOk result (λ name. (cell element : ℕ) → HasMembers library.now self.old.records.now cell
            → AreStepsTo (seen library.now) cell element steps.now → LeadsToMember (seen library.now) cell element node.now name.items) }
    {
        library.lawful();
        records_tell_groups(library.tech());
        match steps {
            [] => Vec::from_slice(self.alloc, node.bytes()),
            [step, rest @ ..] => {
                let below = self.climb(library, rest, node)?;
                self.groups
                    .name_above(self.alloc, self.records, step, below.as_slice())
            }
        }
    }

    /// The name of the member of the cell that has a node, by its name, of what stands with this number at or below the cell. Want of memory
    /// alone refuses. It takes a search among uses and a look-up of a group for each element on the way down.
    pub fn name_of(
        &mut self,
        library: &Reader<'_>,
        cell: CellKey,
        element: usize,
        node: &Name,
    ) -> Result<Vec<u8>, AllocError>
        requires members { HasMembers library.now self.old.records.now cell.0 }
        requires paths { self.old.paths ≡ library.now }
        requires groups { AreGroupsOf (kept_in self.old.records.now) self.old.groups }
        requires element { element < length (standings (tree_at (seen library.now) cell.0)) }
        ensures paths { self.new.paths ≡ self.old.paths }
        ensures records { self.new.records ≡ self.old.records }
        ensures groups { AreGroupsOf (kept_in self.new.records.now) self.new.groups }
        ensures leads { IfOk result (λ name. LeadsToMember (seen library.now) cell.0 element node.now name.items) }
    {
        library.lawful();
        let steps = self.paths.steps_to(cell, element)?;
        self.climb(library, steps.as_slice(), node)
    }
}
