//! How far reading has come: the records that were read, and the names that are left.
ghost use Rattle.std.specs.Prelude.{◌≡◌, ◌<◌, ◌∷◌, ◌++◌, [], ℕ, false, List, map, reverse, Option, Some, IfOk, OnOk};
ghost use Rattle.outside_io.specs.CallPlans.{CallPlan};
ghost use Rattle.outside_io.specs.Files.{Files};
ghost use Rattle.session_model.specs.Causes.{HasCauses};
ghost use Rattle.session_model.specs.Effects.{after_fetches};
ghost use Rattle.session_model.specs.FileTrees.{GoesOn, StopsAsking, files_of};
ghost use Rattle.session_model.specs.steps.Stops.{answer_of, kinds_of_told, ComesFromInside, IfRefused};
ghost use Rattle.ext_loading.specs.ExtFiles.{is_read};
ghost use Rattle.ext_loading.specs.Loads.{cause_of_load};
ghost use Rattle.ext_loading.specs.Readings.{cells_used, circuit_files};
ghost use Rattle.ext_loading.specs.steps.Trees.{work_left, AreSoFar};

use crate::ext_files::read_ext_file;
use crate::faults::ExtLoadFault;
use crate::read_exts::ReadExts;
use ext_model::{ArrayExt, ArrayUse};
use names_lists::Name;
use outside_io::Shelf;
use session_model::Stop;
use std::alloc::Global;

/// The records that were read, and the names of cells that are left to be read or passed over, the next of them last.
#[derive(Drop)]
pub struct Walk {
    pub read: ReadExts,
    pub left: Vec<Name>,
}

// Puts the cells of uses on top of the names that are left, so that the first of them is the next.
fn ask_for(alloc: Global, left: &mut Vec<Name>, uses: &[ArrayUse]) -> Result<(), Stop<ExtLoadFault>>
    ensures asked { OnOk result (left.new.items ≡ left.old.items ++ reverse (map (λ used. used.cell) uses.now)) }
    ensures inside { ComesFromInside cause_of_load result }
    ensures unrefused { IfRefused result (λ _. ⊥) }
{
    for used in uses.iter().rev() {
        left.push(used.cell.copy(alloc)?)?;
    }
    Ok(())
}

impl Walk {
    /// No file was read, and that of the root is left.
    pub fn new(alloc: Global, root: &Name) -> Result<Walk, Stop<ExtLoadFault>>
        ensures read { IfOk result (λ walk. walk.read ≡ []) }
        ensures left { IfOk result (λ walk. walk.left.items ≡ root.now ∷ []) }
        ensures inside { ComesFromInside cause_of_load result }
        ensures unrefused { IfRefused result (λ _. ⊥) }
    {
        let mut left = Vec::new(alloc);
        left.push(root.copy(alloc)?)?;
        Ok(Walk {
            read: ReadExts::new(alloc),
            left,
        })
    }

    // Adds a record, the cells of whose uses come next.
    fn add(&mut self, alloc: Global, ext: ArrayExt) -> Result<(), Stop<ExtLoadFault>>
        requires { is_read self.old.read ext.cell ≡ false }
        ensures read { OnOk result (self.new.read ≡ self.old.read ++ ext ∷ []) }
        ensures left { OnOk result (self.new.left.items ≡ self.old.left.items ++ reverse (cells_used ext)) }
        ensures inside { ComesFromInside cause_of_load result }
        ensures unrefused { IfRefused result (λ _. ⊥) }
    {
        ask_for(alloc, &mut self.left, ext.uses.items())?;
        self.read.push(ext)?;
        Ok(())
    }

    /// Goes on by the name of a cell: its file is read, or passed over where it was read before.
    pub fn visit<F: Shelf>(
        &mut self,
        alloc: Global,
        shelf: &mut F,
        name: Name,
    ) -> Result<(), Stop<ExtLoadFault>>
        ensures so_far { (root : List ℕ) → AreSoFar root self.old.read (name ∷ reverse self.old.left.items) →
            OnOk result (AreSoFar root self.new.read (reverse self.new.left.items)) }
        ensures less { OnOk result (work_left self.new.read self.new.left.items < work_left self.old.read (name ∷ self.old.left.items)) }
        ensures goes_on { (files : Files) → F.files shelf.old ≡ Some files →
            OnOk result (GoesOn circuit_files files self.old.read (name ∷ reverse self.old.left.items) self.new.read (reverse self.new.left.items)) }
        ensures stops { (files : Files) → F.files shelf.old ≡ Some files →
            IfRefused result (StopsAsking circuit_files files self.old.read (name ∷ reverse self.old.left.items) (F.fetch_plan shelf.old) (F.fetch_plan shelf.new)) }
        ensures asked { OnOk result ((first : Option CallPlan) → F.fetch_plan shelf.old ≡ after_fetches first (files_of circuit_files self.old.read) →
            F.fetch_plan shelf.new ≡ after_fetches first (files_of circuit_files self.new.read)) }
        ensures files { F.files shelf.new ≡ F.files shelf.old }
        ensures causes { HasCauses F.Shelf shelf.old shelf.new (kinds_of_told cause_of_load) (answer_of result) }
    {
        if self.read.has(name.bytes()) {
            return Ok(());
        }
        let ext = read_ext_file(alloc, shelf, &self.read, &name)?;
        self.add(alloc, ext)
    }
}
