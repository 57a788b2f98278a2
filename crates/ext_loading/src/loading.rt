//! Reads a tree of circuit files.
ghost use Rattle.std.specs.Prelude.{◌≡◌, [], ◌∷◌, Some, IfOk, IfErr, IsTrue};
ghost use Rattle.text_scan.specs.PlainNames.{is_plain_name};
ghost use Rattle.outside_io.specs.Files.{Files};
ghost use Rattle.session_model.specs.Causes.{HasCauses};
ghost use Rattle.session_model.specs.Effects.{GivesFetching, after_fetches};
ghost use Rattle.session_model.specs.FileTrees.{All, Reads, StopsAsking, files_of};
ghost use Rattle.session_model.specs.steps.Stops.{answer_of, kinds_of_told, IfRefused};
ghost use Rattle.use_orders.specs.Uses.{AreCells};
ghost use Rattle.ext_loading.specs.Loads.{IsFitTree, LoadGives, cause_of_load, children_in, kinds_of_loaded};
ghost use Rattle.ext_loading.specs.Readings.{circuit_files};
ghost use Rattle.ext_loading.specs.steps.Trees.{GivesTree, IsTree};

use crate::faults::ExtLoadFault;
use crate::read_exts::ReadExts;
use crate::walks::Walk;
use ext_model::ArrayExt;
use names_lists::Name;
use outside_io::Shelf;
use session_model::{Halt, Stop};
use std::alloc::Global;
use use_orders::{Order, children_first};

/// What reading a tree of circuit files gives.
#[derive(Debug, Drop)]
pub enum LoadedExts {
    /// The records of the cells, in the order in which their files were read.
    Records(Vec<ArrayExt>),
    /// The tree is refused.
    Refused(ExtLoadFault),
}

/// Reads the circuit file of a cell, and those of all cells below it: depth first, in the order of uses, each once. It takes time near-linear
/// in what it reads.
pub fn load_exts<F: Shelf>(alloc: Global, shelf: &mut F, root: &Name) -> Result<LoadedExts, Halt>
    requires root { IsTrue (is_plain_name root.now) }
    ensures effect { (files : Files) → F.files shelf.old ≡ Some files → IfOk result (λ loaded.
        GivesFetching (LoadGives files root.now loaded) (F.fetch_plan shelf.old) (F.fetch_plan shelf.new)) }
    ensures fit { IfOk result (IsFitTree root.now) }
    ensures files { F.files shelf.new ≡ F.files shelf.old }
    ensures causes { HasCauses F.Shelf shelf.old shelf.new kinds_of_loaded result }
{
    match read_below(alloc, shelf, root) {
        Ok(read) => give_tree(alloc, read),
        Err(Stop::Refused(fault)) => Ok(LoadedExts::Refused(fault)),
        Err(Stop::Halted(halt)) => Err(halt),
    }
}

// The records of the files at and below the root, in the order in which they are read.
fn read_below<F: Shelf>(
    alloc: Global,
    shelf: &mut F,
    root: &Name,
) -> Result<ReadExts, Stop<ExtLoadFault>>
    ensures read { (files : Files) → F.files shelf.old ≡ Some files → IfOk result (λ read. Reads circuit_files files [] (root.now ∷ []) (All read)) }
    ensures refused { (files : Files) → F.files shelf.old ≡ Some files → IfRefused result
        (StopsAsking circuit_files files [] (root.now ∷ []) (F.fetch_plan shelf.old) (F.fetch_plan shelf.new)) }
    ensures asked { IfOk result (λ read. F.fetch_plan shelf.new ≡ after_fetches (F.fetch_plan shelf.old) (files_of circuit_files read)) }
    ensures tree { IfOk result (IsTree root.now) }
    ensures files { F.files shelf.new ≡ F.files shelf.old }
    ensures causes { HasCauses F.Shelf shelf.old shelf.new (kinds_of_told cause_of_load) (answer_of result) }
{
    let mut walk = Walk::new(alloc, root)?;
    'names: while let Some(name) = walk.left.pop() {
        walk.visit(alloc, shelf, name)?;
    }
    Ok(walk.read)
}

// The records of a tree, or its first cell that stands below itself.
fn give_tree(alloc: Global, read: ReadExts) -> Result<LoadedExts, Halt>
    requires { AreCells (children_in read) }
    ensures given { IfOk result (GivesTree read) }
    ensures memory { IfErr result (λ halt. halt ≡ Halt.Memory) }
{
    match children_first(alloc, &read, 0)? {
        Order::Acyclic(_) => Ok(LoadedExts::Records(read.into_vec())),
        Order::Cyclic(cell) => {
            let name = read.exts()[cell].cell.copy(alloc)?;
            Ok(LoadedExts::Refused(ExtLoadFault::Cycle(name)))
        }
    }
}
