//! The log of the edits of a library.
ghost use Rattle.std.specs.Prelude.{◌≡◌, ◌≢◌, ◌↔◌, [], Some, true, IfErr, IsErrOf, OnErr, OnOk};
ghost use Rattle.edit_script.specs.CellLibrary.Libraries.{IsSame, edits_of, seen};
ghost use Rattle.edit_script.specs.CellLibrary.declared.limits.TheConstants.{MOST_EDITS};
ghost use Rattle.edit_script.specs.ScriptLines.Forms.{IsFormed};
ghost use Rattle.edit_script.specs.declared.faults.EditFault.{EditFault as IsFault};
ghost use Rattle.edit_script.specs.Editing.{IsCurrent, editing_of};
ghost use Rattle.edit_script.specs.Edits.{applied};
ghost use Rattle.edit_script.specs.Refusals.{ApplyIsRefused, IsRefusedOrLacksMemory};
ghost use Rattle.edit_script.specs.Stamps.{IsStamped};
ghost use Rattle.undo_log.specs.Versions.{Versions, is_edit, versions_after};

use crate::changes::Inverse;
use crate::faults::UndoFault;
use crate::inverses::inverse_of_edit;
use crate::returns::bring_back;
use crate::trails::Trail;
use edit_script::cell_library::Library;
use edit_script::script_lines::Command;
use edit_script::{EditFault, apply};
use ext_model::CellKey;
use std::alloc::Global;
use std::marker::Model;

// Whether the command changes the current cell.
fn is_edit(command: &Command) -> bool
    ensures { result ≡ is_edit command.now }
{
    matches!(
        command,
        Command::Paint(..)
            | Command::Erase(..)
            | Command::Place(..)
            | Command::Array(..)
            | Command::Move(..)
            | Command::Delete(_)
            | Command::Label(..)
            | Command::Unlabel(_)
    )
}

/// The edits of one library that can be undone and redone, as the changes that take them back.
///
/// Between two calls the library may get new cells, if these use no cell from before, and nothing else. A log that is new or was forgotten fits
/// every library.
pub struct Log {
    alloc: Global,
    done: Trail,
    undone: Trail,
}

impl Drop for Log {
    fn drop(self) {
        let Log {
            alloc: _,
            done: _,
            undone: _,
        } = self;
    }
}

impl Model for Log {
    ghost use Rattle.undo_log.specs.Inverses.{Inverses};

    ghost Value = { Inverses };

    ghost view = { λ log. record { done = log.done; undone = log.undone } };
}

impl Log {
    ghost use Rattle.undo_log.specs.Inverses.{IsReturned, Keeps, no_inverses};

    /// A log without edits. It takes no memory now.
    pub fn new(alloc: Global) -> Log
        ensures { result ≡ no_inverses }
    {
        Log {
            alloc,
            done: Trail::new(alloc),
            undone: Trail::new(alloc),
        }
    }

    /// Forgets all edits. It takes no memory.
    pub fn forget(&mut self)
        ensures { self.new ≡ no_inverses }
    {
        self.done.clear();
        self.undone.clear();
    }

    /// Applies a command as `edit_script` does. An edit of the current cell that is accepted can be undone then, also one that changes nothing,
    /// and no edit can be redone. A refusal changes nothing.
    pub fn apply(
        &mut self,
        library: &mut Library,
        current: &mut Option<CellKey>,
        command: &Command,
    ) -> Result<(), EditFault>
        requires formed { IsFormed command.now }
        requires current { IsCurrent library.old current.old }
        ensures done { OnOk result (editing_of library.new current.new ≡ applied (editing_of library.old current.old) command.now) }
        ensures accepted { OnOk result ((fault : IsFault) → ApplyIsRefused (editing_of library.old current.old) command.now fault → ⊥) }
        ensures refused { IfErr result (IsRefusedOrLacksMemory (editing_of library.old current.old) command.now) }
        ensures same { OnErr result (IsSame library.old library.new) }
        ensures stamped { OnOk result (IsStamped library.old library.new current.old command.now) }
        ensures kept { OnErr result (current.new ≡ current.old) }
        ensures current { IsCurrent library.new current.new }
        ensures versions { OnOk result ((versions : Versions) → Keeps (seen library.old) self.old versions
            → Keeps (seen library.new) self.new (versions_after (editing_of library.old current.old) command.now versions)) }
        ensures log { OnErr result (self.new ≡ self.old) }
    {
        library.lawful();
        match *current {
            Some(cell) if is_edit(command) => self.edit(library, current, cell, command),
            _ => {
                let done = apply(self.alloc, library, current, command);
                library.lawful();
                done
            }
        }
    }

    /// Takes the latest edit back that is done, as one more edit of its cell. A refusal changes nothing.
    ///
    /// # Errors
    ///
    /// `NothingToUndo` where no edit is left to undo; else `Edits` where there were too many edits. Want of memory refuses an edit that is there.
    pub fn undo(&mut self, library: &mut Library) -> Result<(), UndoFault>
        requires fits { (versions : Versions) × Keeps (seen library.old) self.old versions }
        ensures returned { OnOk result ((versions : Versions) → Keeps (seen library.old) self.old versions
            → IsReturned library.old library.new versions.done versions.undone self.new.done self.new.undone) }
        ensures few { OnOk result (edits_of library.old ≢ MOST_EDITS) }
        ensures nothing { IsErrOf result UndoFault.NothingToUndo ↔ (self.old.done ≡ []) }
        ensures edits { IsErrOf result UndoFault.Edits → edits_of library.old ≡ MOST_EDITS }
        ensures others { IsErrOf result UndoFault.NothingToRedo → ⊥ }
        ensures same { OnErr result (IsSame library.old library.new) }
        ensures log { OnErr result (self.new ≡ self.old) }
    {
        if self.done.is_empty() {
            return Err(UndoFault::NothingToUndo);
        }
        bring_back(self.alloc, library, &mut self.done, &mut self.undone)
    }

    /// Makes the latest edit again that was taken back, as one more edit of its cell. A refusal changes nothing.
    ///
    /// # Errors
    ///
    /// `NothingToRedo` where no edit is left to redo; else `Edits` where there were too many edits. Want of memory refuses an edit that is there.
    pub fn redo(&mut self, library: &mut Library) -> Result<(), UndoFault>
        requires fits { (versions : Versions) × Keeps (seen library.old) self.old versions }
        ensures returned { OnOk result ((versions : Versions) → Keeps (seen library.old) self.old versions
            → IsReturned library.old library.new versions.undone versions.done self.new.undone self.new.done) }
        ensures few { OnOk result (edits_of library.old ≢ MOST_EDITS) }
        ensures nothing { IsErrOf result UndoFault.NothingToRedo ↔ (self.old.undone ≡ []) }
        ensures edits { IsErrOf result UndoFault.Edits → edits_of library.old ≡ MOST_EDITS }
        ensures others { IsErrOf result UndoFault.NothingToUndo → ⊥ }
        ensures same { OnErr result (IsSame library.old library.new) }
        ensures log { OnErr result (self.new ≡ self.old) }
    {
        if self.undone.is_empty() {
            return Err(UndoFault::NothingToRedo);
        }
        bring_back(self.alloc, library, &mut self.undone, &mut self.done)
    }

    // Applies an edit of the current cell. Its inverse is made first.
    fn edit(
        &mut self,
        library: &mut Library,
        current: &mut Option<CellKey>,
        cell: CellKey,
        command: &Command,
    ) -> Result<(), EditFault>
        requires formed { IsFormed command.now }
        requires current { IsCurrent library.old current.old }
        requires cell { current.old ≡ Some cell }
        requires edit { is_edit command.now ≡ true }
        ensures done { OnOk result (editing_of library.new current.new ≡ applied (editing_of library.old current.old) command.now) }
        ensures accepted { OnOk result ((fault : IsFault) → ApplyIsRefused (editing_of library.old current.old) command.now fault → ⊥) }
        ensures refused { IfErr result (IsRefusedOrLacksMemory (editing_of library.old current.old) command.now) }
        ensures same { OnErr result (IsSame library.old library.new) }
        ensures stamped { OnOk result (IsStamped library.old library.new current.old command.now) }
        ensures kept { OnErr result (current.new ≡ current.old) }
        ensures current { IsCurrent library.new current.new }
        ensures versions { OnOk result ((versions : Versions) → Keeps (seen library.old) self.old versions
            → Keeps (seen library.new) self.new (versions_after (editing_of library.old current.old) command.now versions)) }
        ensures log { OnErr result (self.new ≡ self.old) }
    {
        library.lawful();
        let Some(change) = inverse_of_edit(self.alloc, library, cell, command)? else {
            return apply(self.alloc, library, current, command);
        };
        self.done.push(Inverse { cell, change })?;
        match apply(self.alloc, library, current, command) {
            Ok(()) => {
                self.undone.clear();
                Ok(())
            }
            Err(fault) => {
                self.done.drop_latest();
                Err(fault)
            }
        }
    }
}
