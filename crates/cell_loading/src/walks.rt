//! How far a load has come: the cells that were read, and the uses that are left.
ghost use Rattle.std.specs.Prelude.{◌≡◌, ◌<◌, ◌≤◌, ◌+◌, [], ◌∷◌, ◌++◌, false, length, List, Option, Some, IfOk, IfSome, OnOk};
ghost use Rattle.outside_io.specs.CallPlans.{CallPlan};
ghost use Rattle.outside_io.specs.Files.{Files};
ghost use Rattle.session_model.specs.Causes.{HasCauses};
ghost use Rattle.session_model.specs.Effects.{after_fetches};
ghost use Rattle.session_model.specs.FileTrees.{StopsAsking};
ghost use Rattle.session_model.specs.steps.Stops.{answer_of, kinds_of_told, ComesFromInside, IfRefused};
ghost use Rattle.cell_tree.specs.declared.limits.TheConstants.{MOST_USES};
ghost use Rattle.mag_text.specs.CellLibrary.Libraries.{seen};
ghost use Rattle.cell_loading.specs.CellFiles.{ReadCell};
ghost use Rattle.cell_loading.specs.Loads.{AreBodiesOf, cause_of_load};
ghost use Rattle.cell_loading.specs.steps.ReadCells.{is_among};
ghost use Rattle.cell_loading.specs.Readings.{cell_files};
ghost use Rattle.cell_loading.specs.steps.Walks.{files_read, names_left, rest_of, work_left, AreFrames, AreSoFar, GoesOnToBodies, Takes, TakesFrom};

use crate::cell_files::{is_known, read_cell_file};
use crate::faults::LoadFault;
use crate::read_cells::ReadCells;
use mag_text::cell_bodies::CellBody;
use mag_text::cell_library::Library;
use names_lists::Name;
use outside_io::Shelf;
use session_model::Stop;
use std::alloc::{AllocError, Global};

/// A cell that was read, by its position, and the next of its uses.
#[derive(Clone, Copy, Debug, PartialEq, Eq)]
pub struct Frame {
    pub cell: usize,
    pub next: usize,
}

/// What the next use of a cell asks for.
#[derive(Debug, Drop)]
pub enum Next {
    /// There is no next use.
    Nothing,
    /// A cell that is there.
    Known,
    /// The cell of this name, which is not there yet.
    Unknown(Name),
}

/// The cells that were read, and the frames of those with uses that are left. The last frame is the top one, whose cell is below those of
/// the others.
#[derive(Drop)]
pub struct Walk {
    pub cells: ReadCells,
    pub frames: Vec<Frame>,
}

// Takes the next use of the frame's cell.
fn take_use(
    alloc: Global,
    library: &Library,
    cells: &ReadCells,
    frame: &mut Frame,
) -> Result<Next, AllocError>
    requires { frame.old.cell < length cells.now }
    ensures taken { IfOk result (TakesFrom (seen library.now) cells.now (rest_of cells.now frame.old) (rest_of cells.now frame.new)) }
    ensures same { frame.new.cell ≡ frame.old.cell }
{
    let uses = cells.uses_at(frame.cell);
    if frame.next >= uses.len() {
        return Ok(Next::Nothing);
    }
    let name = &uses[frame.next].cell;
    frame.next += 1;
    if is_known(library, cells, name.bytes()) {
        return Ok(Next::Known);
    }
    Ok(Next::Unknown(name.copy(alloc)?))
}

impl Walk {
    /// No cell was read. It takes no memory.
    pub fn new(alloc: Global) -> Walk
        ensures cells { result.cells ≡ [] }
        ensures frames { result.frames.items ≡ [] }
    {
        Walk {
            cells: ReadCells::new(alloc),
            frames: Vec::new(alloc),
        }
    }

    // Takes the next name that is left, and gives it where no cell has it. Where the uses of the top frame were all taken, that frame goes.
    fn advance(&mut self, alloc: Global, library: &Library) -> Result<Option<Name>, Stop<LoadFault>>
        requires frames { AreFrames (length self.old.cells) self.old.frames.items }
        requires some { 0 < length self.old.frames.items }
        ensures cells { self.new.cells ≡ self.old.cells }
        ensures frames { OnOk result (AreFrames (length self.old.cells) self.new.frames.items) }
        ensures taken { IfOk result (Takes (seen library.now) self.old.cells (names_left self.old.cells self.old.frames.items)
            (names_left self.old.cells self.new.frames.items)) }
        ensures less { OnOk result (length (names_left self.old.cells self.new.frames.items) + length self.new.frames.items
            < length (names_left self.old.cells self.old.frames.items) + length self.old.frames.items) }
        ensures fewer { IfOk result (λ taken. IfSome taken (λ _. length self.new.frames.items ≡ length self.old.frames.items)) }
        ensures inside { ComesFromInside cause_of_load result }
        ensures unrefused { IfRefused result (λ _. ⊥) }
    {
        let Some(mut frame) = self.frames.pop() else {
            return Ok(None);
        };
        match take_use(alloc, library, &self.cells, &mut frame)? {
            Next::Nothing => Ok(None),
            Next::Known => {
                self.frames.push(frame)?;
                Ok(None)
            }
            Next::Unknown(name) => {
                self.frames.push(frame)?;
                Ok(Some(name))
            }
        }
    }

    // Adds a cell that was read, none of whose uses was taken yet.
    fn add(&mut self, name: Name, body: CellBody) -> Result<(), Stop<LoadFault>>
        ensures cells { OnOk result (self.new.cells ≡ self.old.cells ++ (name, body) ∷ []) }
        ensures frames { OnOk result (self.new.frames.items ≡ self.old.frames.items ++ (record { cell = length self.old.cells; next = 0 }) ∷ []) }
        ensures inside { ComesFromInside cause_of_load result }
        ensures unrefused { IfRefused result (λ _. ⊥) }
    {
        let cell = self.cells.len();
        self.cells.push(name, body)?;
        self.frames.push(Frame { cell, next: 0 })?;
        Ok(())
    }

    /// Reads the file of the cell of this name, which no cell has.
    pub fn read<F: Shelf>(
        &mut self,
        alloc: Global,
        library: &Library,
        shelf: &mut F,
        name: Name,
    ) -> Result<(), Stop<LoadFault>>
        requires so_far { AreSoFar (seen library.now) self.old.cells (name ∷ names_left self.old.cells self.old.frames.items) }
        requires new { is_among (seen library.now) self.old.cells name ≡ false }
        requires frames { AreFrames (length self.old.cells) self.old.frames.items }
        ensures so_far { OnOk result (AreSoFar (seen library.now) self.new.cells (names_left self.new.cells self.new.frames.items)) }
        ensures frames { OnOk result (AreFrames (length self.new.cells) self.new.frames.items) }
        ensures more { OnOk result (length self.new.cells ≡ length self.old.cells + 1) }
        ensures pushed { OnOk result (length self.new.frames.items ≡ length self.old.frames.items + 1) }
        ensures few { OnOk result (length (names_left self.new.cells self.new.frames.items)
            ≤ length (names_left self.old.cells self.old.frames.items) + MOST_USES) }
        ensures goes_on { (files : Files) (read : List ReadCell) → F.files shelf.old ≡ Some files → AreBodiesOf library.now.tech read self.old.cells →
            OnOk result (GoesOnToBodies files (seen library.now) read (name ∷ names_left self.old.cells self.old.frames.items)
            self.new.cells (names_left self.new.cells self.new.frames.items)) }
        ensures stops { (files : Files) (read : List ReadCell) → F.files shelf.old ≡ Some files → AreBodiesOf library.now.tech read self.old.cells →
            IfRefused result (StopsAsking (cell_files (seen library.now)) files read (name ∷ names_left self.old.cells self.old.frames.items)
            (F.fetch_plan shelf.old) (F.fetch_plan shelf.new)) }
        ensures asked { OnOk result ((first : Option CallPlan) → F.fetch_plan shelf.old ≡ after_fetches first (files_read self.old.cells) →
            F.fetch_plan shelf.new ≡ after_fetches first (files_read self.new.cells)) }
        ensures files { F.files shelf.new ≡ F.files shelf.old }
        ensures causes { HasCauses F.Shelf shelf.old shelf.new (kinds_of_told cause_of_load) (answer_of result) }
    {
        match read_cell_file(alloc, library, shelf, &self.cells, &name) {
            Ok(body) => self.add(name, body),
            Err(stop) => Err(stop),
        }
    }

    /// Goes on by a name that is left, or leaves the top frame where its uses were all taken.
    pub fn step<F: Shelf>(
        &mut self,
        alloc: Global,
        library: &Library,
        shelf: &mut F,
    ) -> Result<(), Stop<LoadFault>>
        requires so_far { AreSoFar (seen library.now) self.old.cells (names_left self.old.cells self.old.frames.items) }
        requires frames { AreFrames (length self.old.cells) self.old.frames.items }
        requires some { 0 < length self.old.frames.items }
        ensures so_far { OnOk result (AreSoFar (seen library.now) self.new.cells (names_left self.new.cells self.new.frames.items)) }
        ensures frames { OnOk result (AreFrames (length self.new.cells) self.new.frames.items) }
        ensures kept { OnOk result (length self.old.cells ≤ length self.new.cells) }
        ensures less { OnOk result (work_left self.new.cells self.new.frames.items < work_left self.old.cells self.old.frames.items) }
        ensures goes_on { (files : Files) (read : List ReadCell) → F.files shelf.old ≡ Some files → AreBodiesOf library.now.tech read self.old.cells →
            OnOk result (GoesOnToBodies files (seen library.now) read (names_left self.old.cells self.old.frames.items)
            self.new.cells (names_left self.new.cells self.new.frames.items)) }
        ensures stops { (files : Files) (read : List ReadCell) → F.files shelf.old ≡ Some files → AreBodiesOf library.now.tech read self.old.cells →
            IfRefused result (StopsAsking (cell_files (seen library.now)) files read (names_left self.old.cells self.old.frames.items)
            (F.fetch_plan shelf.old) (F.fetch_plan shelf.new)) }
        ensures asked { OnOk result ((first : Option CallPlan) → F.fetch_plan shelf.old ≡ after_fetches first (files_read self.old.cells) →
            F.fetch_plan shelf.new ≡ after_fetches first (files_read self.new.cells)) }
        ensures files { F.files shelf.new ≡ F.files shelf.old }
        ensures causes { HasCauses F.Shelf shelf.old shelf.new (kinds_of_told cause_of_load) (answer_of result) }
    {
        match self.advance(alloc, library)? {
            Some(name) => self.read(alloc, library, shelf, name),
            None => Ok(()),
        }
    }
}
