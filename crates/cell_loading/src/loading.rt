//! A load.
ghost use Rattle.std.specs.Prelude.{◌≡◌, [], ◌∷◌, false, Some, IfOk, IfErr, IsTrue, OnErr};
ghost use Rattle.text_scan.specs.PlainNames.{is_plain_name};
ghost use Rattle.outside_io.specs.Files.{Files};
ghost use Rattle.session_model.specs.Causes.{HasCauses};
ghost use Rattle.session_model.specs.Effects.{GivesFetching, after_fetches};
ghost use Rattle.session_model.specs.FileTrees.{StopsAsking};
ghost use Rattle.session_model.specs.steps.Stops.{answer_of, kinds_of_told, IfRefused};
ghost use Rattle.mag_text.specs.CellLibrary.Additions.{CanBeAdded};
ghost use Rattle.mag_text.specs.CellLibrary.Libraries.{IsSame, seen};
ghost use Rattle.cell_loading.specs.Arrivals.{ArriveWithStamps, Arrives};
ghost use Rattle.cell_loading.specs.Loads.{end_fault, AreRead, HasMoreIfLoaded, KeepsIfRefused, LoadGives, cause_of_load, kinds_of_loaded};
ghost use Rattle.cell_loading.specs.steps.ReadCells.{is_among};
ghost use Rattle.cell_loading.specs.Readings.{cell_files};
ghost use Rattle.cell_loading.specs.steps.Walks.{files_read};

use crate::faults::LoadFault;
use crate::walks::Walk;
use mag_text::cell_bodies::CellBody;
use mag_text::cell_library::{LibFault, Library};
use names_lists::Name;
use outside_io::Shelf;
use session_model::{Halt, Stop};
use std::alloc::Global;

/// What a load answers.
#[derive(Debug, Drop)]
pub enum Loaded {
    /// So many cells came.
    Cells(usize),
    /// The load is refused.
    Refused(LoadFault),
}

/// Reads the file of a cell, and those of all cells below it that the library lacks, and adds the cells in the order in which their files
/// were read. The cell of the name comes first. Where the load is refused, nothing is changed.
pub fn load_cells<F: Shelf>(
    alloc: Global,
    library: &mut Library,
    shelf: &mut F,
    root: &Name,
) -> Result<Loaded, Halt>
    requires root { IsTrue (is_plain_name root.now) }
    ensures effect { (files : Files) → F.files shelf.old ≡ Some files → IfOk result (λ loaded.
        GivesFetching (LoadGives files library.old library.new root.now loaded) (F.fetch_plan shelf.old) (F.fetch_plan shelf.new)) }
    ensures kept { IfOk result (KeepsIfRefused library.old library.new) }
    ensures more { IfOk result (HasMoreIfLoaded library.old library.new) }
    ensures stamped { IfOk result (ArriveWithStamps library.old library.new) }
    ensures halted { OnErr result (IsSame library.old library.new) }
    ensures files { F.files shelf.new ≡ F.files shelf.old }
    ensures causes { HasCauses F.Shelf shelf.old shelf.new kinds_of_loaded result }
{
    if library.find(root.bytes()).is_some() {
        return Ok(Loaded::Refused(LoadFault::CellExists(root.copy(alloc)?)));
    }
    match read_below(alloc, library, shelf, root) {
        Ok(cells) => add_cells(library, cells),
        Err(Stop::Refused(fault)) => Ok(Loaded::Refused(fault)),
        Err(Stop::Halted(halt)) => Err(halt),
    }
}

// The cells of the files at and below the root, in the order in which they are read.
fn read_below<F: Shelf>(
    alloc: Global,
    library: &Library,
    shelf: &mut F,
    root: &Name,
) -> Result<Vec<(Name, CellBody)>, Stop<LoadFault>>
    requires root { IsTrue (is_plain_name root.now) }
    requires new { is_among (seen library.now) [] root.now ≡ false }
    ensures read { (files : Files) → F.files shelf.old ≡ Some files → IfOk result (λ cells. AreRead files (seen library.now) root.now cells.items) }
    ensures refused { (files : Files) → F.files shelf.old ≡ Some files → IfRefused result
        (StopsAsking (cell_files (seen library.now)) files [] (root.now ∷ []) (F.fetch_plan shelf.old) (F.fetch_plan shelf.new)) }
    ensures asked { IfOk result (λ cells. F.fetch_plan shelf.new ≡ after_fetches (F.fetch_plan shelf.old) (files_read cells.items)) }
    ensures addable { IfOk result (λ cells. CanBeAdded (seen library.now) cells.items) }
    ensures files { F.files shelf.new ≡ F.files shelf.old }
    ensures causes { HasCauses F.Shelf shelf.old shelf.new (kinds_of_told cause_of_load) (answer_of result) }
{
    library.lawful();
    let mut walk = Walk::new(alloc);
    let name = root.copy(alloc)?;
    if let Err(stop) = walk.read(alloc, library, shelf, name) {
        return Err(stop);
    }
    'steps: while !walk.frames.is_empty() {
        if let Err(stop) = walk.step(alloc, library, shelf) {
            return Err(stop);
        }
    }
    Ok(walk.cells.into_vec())
}

// Adds the cells that were read.
fn add_cells(library: &mut Library, cells: Vec<(Name, CellBody)>) -> Result<Loaded, Halt>
    requires { CanBeAdded (seen library.old) cells.items }
    ensures arrives { IfOk result (Arrives library.old library.new cells.items) }
    ensures kept { IfOk result (KeepsIfRefused library.old library.new) }
    ensures more { IfOk result (HasMoreIfLoaded library.old library.new) }
    ensures stamped { IfOk result (ArriveWithStamps library.old library.new) }
    ensures halted { OnErr result (IsSame library.old library.new) }
    ensures memory { IfErr result (λ halt. halt ≡ Halt.Memory) }
{
    let count = cells.len();
    match library.add_all(cells) {
        Ok(()) => Ok(Loaded::Cells(count)),
        Err(LibFault::Memory) => Err(Halt::Memory),
        Err(fault) => Ok(Loaded::Refused(end_fault(fault))),
    }
}

// Why a load is refused, where the library refuses the cells.
fn end_fault(fault: LibFault) -> LoadFault
    ensures { result ≡ end_fault fault }
{
    match fault {
        LibFault::OutOfRange => LoadFault::OutOfRange,
        LibFault::Cycle(name) => LoadFault::Cycle(name),
        LibFault::TooMany(limit) => LoadFault::TooMany(limit),
        _ => LoadFault::Memory,
    }
}
