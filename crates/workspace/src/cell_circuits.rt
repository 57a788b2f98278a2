//! The circuits of cells.
ghost use Rattle.std.specs.Prelude.{◌≡◌, ◌<◌, IfOk, IsOkUnless, length};
ghost use Rattle.ext_cache.specs.CellLibrary.Libraries.{seen};
ghost use Rattle.ext_loading.specs.PlainRecords.Plains.{AreArrayRecords, plains};
ghost use Rattle.ext_cache.specs.Caches.{Agrees};
ghost use Rattle.library_answers.specs.HierMerge.UncleanCells.{IsCleanCell};
ghost use Rattle.ext_cache.specs.LibraryTrees.NamedCells.{named_tree_at};
ghost use Rattle.circuit_laws.specs.TreeRecords.TreeRecords.{HasTreeRecords};
ghost use Rattle.flatten.specs.Sinks.{AllFit};
ghost use Rattle.workspace.specs.CellCircuits.{IsFlattenedAt, IsGivenAt};
ghost use Rattle.workspace.specs.Extracting.{IsFreshBelow};

use crate::cells::Edited;
use circuit_laws::{
    flat_circuits_have_letters, flat_networks_fit, flat_networks_have_the_nodes,
    flat_transistors_have_letter_and_lengths,
};
use circuit_model::{CircuitLimit, FlatFault};
use ext_cache::cell_library::Reader;
use ext_cache::library_trees::{
    chains_are_short, clean_cell_has_clean_tree, listed_records_are_of_the_tree,
};
use ext_model::{ArrayExt, CellKey, Circuit};
use flatten::{AllFets, FetSink, GivenCircuit, circuit_given, flatten_into};
use session_model::Halt;
use std::alloc::Global;
use tree_circuits::{records_stand_for_the_flat_layout, tree_records_have_no_other_fault};

/// What a cell was flattened to, or the limit that it passes.
#[derive(Debug, Drop)]
pub enum Flattened<C> {
    Circuit(C),
    Passed(CircuitLimit),
}

/// The circuit of a cell where none at and below it is dirty. Nothing is changed: the records are taken out to be read, and put back.
pub fn flatten_kept(
    alloc: Global,
    edited: &mut Edited,
    cell: CellKey,
) -> Result<Flattened<Circuit>, Halt>
    requires agrees { Agrees edited.old.library edited.old.cache }
    requires cell { cell.0 < length edited.old.library.contents }
    requires fresh { IsFreshBelow edited.old.library edited.old.cache cell.0 }
    ensures flattened { IfOk result (IsFlattenedAt (seen edited.old.library) cell.0) }
    ensures same { edited.new ≡ edited.old }
    ensures memory { IsOkUnless result Halt.Memory }
{
    match flatten_kept_into::<AllFets>(alloc, edited, cell)? {
        Flattened::Circuit(given) => Ok(Flattened::Circuit(circuit_given(given))),
        Flattened::Passed(limit) => Ok(Flattened::Passed(limit)),
    }
}

/// The circuit of a cell where none at and below it is dirty, with its transistors given to a sink. Nothing is changed, as in `flatten_kept`.
pub fn flatten_kept_into<S: FetSink>(
    alloc: Global,
    edited: &mut Edited,
    cell: CellKey,
) -> Result<Flattened<GivenCircuit<S>>, Halt>
    requires agrees { Agrees edited.old.library edited.old.cache }
    requires cell { cell.0 < length edited.old.library.contents }
    requires fresh { IsFreshBelow edited.old.library edited.old.cache cell.0 }
    requires fit { AllFit S.fits }
    ensures given { IfOk result (IsGivenAt S.has (seen edited.old.library) cell.0) }
    ensures same { edited.new ≡ edited.old }
    ensures memory { IsOkUnless result Halt.Memory }
{
    let library = edited.library.reader();
    let order = library.below(cell)?;
    // The laws by which these are the records of the cell's tree.
    library.lawful();
    listed_records_are_of_the_tree(&library);
    let lent = edited.cache.lend(order.as_slice())?;
    let flattened = flatten_records(alloc, &library, cell, lent.exts.as_slice());
    edited.cache.take_back(lent);
    flattened
}

// The circuit of a clean cell, where these are the records of it and of all below it.
fn flatten_records<S: FetSink>(
    alloc: Global,
    library: &Reader<'_>,
    cell: CellKey,
    exts: &[ArrayExt],
) -> Result<Flattened<GivenCircuit<S>>, Halt>
    requires cell { cell.0 < length library.now.contents }
    requires clean { IsCleanCell (seen library.now) cell.0 }
    requires records { AreArrayRecords exts.now }
    requires tree { HasTreeRecords library.now.tech (plains exts.now) (named_tree_at (seen library.now) cell.0) }
    requires fit { AllFit S.fits }
    ensures given { IfOk result (IsGivenAt S.has (seen library.now) cell.0) }
    ensures memory { IsOkUnless result Halt.Memory }
{
    // The laws of what is flattened here.
    library.lawful();
    clean_cell_has_clean_tree(library, cell);
    chains_are_short(library);
    records_stand_for_the_flat_layout();
    tree_records_have_no_other_fault();
    flat_transistors_have_letter_and_lengths();
    flat_networks_fit();
    flat_networks_have_the_nodes();
    flat_circuits_have_letters(library.tech());
    match flatten_into(alloc, exts, library.name_of(cell)) {
        Ok(circuit) => Ok(Flattened::Circuit(circuit)),
        Err(FlatFault::TooMany(limit)) => Ok(Flattened::Passed(limit)),
        Err(FlatFault::Memory) => Err(Halt::Memory),
        Err(_) => unreachable!(),
    }
}
