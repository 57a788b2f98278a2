//! What is looked for before cells are made.
ghost use Rattle.std.specs.Prelude.{◌≡◌, ◌<◌, ◌+◌, ◌≤◌, ◌↔◌, ℕ, length, None, Some, IfErr, IfOk, IsTrue, OnOk};
ghost use Rattle.tech_model.specs.Types.{layer_named};
ghost use Rattle.cell_library.specs.Libraries.{seen};
ghost use Rattle.cell_library.specs.Views.{cell_named};
ghost use Rattle.layout_gen.specs.steps.Bodies.{AreLayers, AreNew};
ghost use Rattle.layout_gen.specs.Refusals.{IsFaultOrMemory, generate_fault, layer_fault, layers_fault, name_fault, names_fault};

use crate::faults::GenerateFault;
use crate::limits::MADE_CELLS;
use crate::words::{DIFF, POLY, ROW, STACK, TILE};
use cell_library::{Library, LibraryLimit, MOST_CELLS};
use names_lists::Name;
use std::alloc::Global;
use tech_model::{LayerId, Tech};

/// The layers of a tile.
#[derive(Drop)]
pub struct TileLayers {
    pub poly: LayerId,
    pub diff: LayerId,
}

// Whether there is no cell of the name.
fn check_name(alloc: Global, library: &Library, name: &[u8]) -> Result<(), GenerateFault>
    ensures new { OnOk result (cell_named (seen library.now) name.now ≡ None) }
    ensures told { IfErr result (IsFaultOrMemory (name_fault (seen library.now) name.now)) }
{
    match library.find(name) {
        Some(_) => Err(GenerateFault::CellExists(Name::of(alloc, name)?)),
        None => Ok(()),
    }
}

// Whether there is none of the cells.
fn check_names(alloc: Global, library: &Library) -> Result<(), GenerateFault>
    ensures new { OnOk result (AreNew (seen library.now)) }
    ensures told { IfErr result (IsFaultOrMemory (names_fault (seen library.now))) }
{
    check_name(alloc, library, TILE)?;
    check_name(alloc, library, ROW)?;
    check_name(alloc, library, STACK)?;
    Ok(())
}

// The layer of the name.
fn layer_called(alloc: Global, tech: &Tech, word: &[u8]) -> Result<LayerId, GenerateFault>
    ensures named { IfOk result (λ layer. layer_named tech.now word.now ≡ Some layer.0) }
    ensures below { IfOk result (λ layer. layer.0 < length tech.now.layers) }
    ensures told { IfErr result (IsFaultOrMemory (layer_fault tech.now word.now)) }
{
    match tech.layer(word) {
        Some(layer) => Ok(layer),
        None => Err(GenerateFault::NoLayer(Name::of(alloc, word)?)),
    }
}

// The layers of a tile.
fn find_layers(alloc: Global, tech: &Tech) -> Result<TileLayers, GenerateFault>
    ensures layers { IfOk result (AreLayers tech.now) }
    ensures told { IfErr result (IsFaultOrMemory (layers_fault tech.now)) }
{
    let poly = layer_called(alloc, tech, POLY)?;
    let diff = layer_called(alloc, tech, DIFF)?;
    Ok(TileLayers { poly, diff })
}

// Whether there is room for the cells.
fn has_room(library: &Library) -> bool
    ensures { IsTrue result ↔ (length library.now.contents + MADE_CELLS ≤ MOST_CELLS) }
{
    library.lawful();
    library.cell_count() <= MOST_CELLS - MADE_CELLS
}

// The layers of a tile, where there is room for the cells.
fn check_layers(alloc: Global, library: &Library) -> Result<TileLayers, GenerateFault>
    requires { AreNew (seen library.now) }
    ensures layers { IfOk result (AreLayers library.now.tech) }
    ensures room { OnOk result (length library.now.contents + MADE_CELLS ≤ MOST_CELLS) }
    ensures told { IfErr result (λ told. (edits : ℕ) → IsFaultOrMemory (generate_fault (seen library.now) edits) told) }
{
    match find_layers(alloc, library.tech()) {
        Ok(layers) if has_room(library) => Ok(layers),
        Ok(_) => Err(GenerateFault::TooMany(LibraryLimit::Cells)),
        Err(fault) => Err(fault),
    }
}

/// The layers of a tile, where there is none of the cells, and room for them.
pub(crate) fn check(alloc: Global, library: &Library) -> Result<TileLayers, GenerateFault>
    ensures new { OnOk result (AreNew (seen library.now)) }
    ensures layers { IfOk result (AreLayers library.now.tech) }
    ensures room { OnOk result (length library.now.contents + MADE_CELLS ≤ MOST_CELLS) }
    ensures told { IfErr result (λ told. (edits : ℕ) → IsFaultOrMemory (generate_fault (seen library.now) edits) told) }
{
    match check_names(alloc, library) {
        Ok(()) => check_layers(alloc, library),
        Err(fault) => Err(fault),
    }
}
