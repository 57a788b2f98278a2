//! What the words of a command name, and how its faults are told.
ghost use Rattle.std.specs.Prelude.{◌≡◌, ◌⊎◌, ◌<◌, Some, length, IfOk, IfErr, IfSome};
ghost use Rattle.tech_model.specs.Types.{layer_named};
ghost use Rattle.cell_library.specs.Libraries.{seen};
ghost use Rattle.cell_library.specs.Views.{cell_named};
ghost use Rattle.edit_script.specs.Answers.{IsNotFound, IsTold};
ghost use Rattle.edit_script.specs.Edits.{label_layer};
ghost use Rattle.edit_script.specs.Refusals.{with_word};

use crate::faults::EditFault;
use cell_library::{LibFault, Library};
use ext_model::CellKey;
use names_lists::Name;
use std::alloc::{AllocError, Global};
use tech_model::LayerId;

// The fault of a command for a fault of the library.
fn worded(alloc: Global, word: &Name, fault: LibFault) -> Result<EditFault, AllocError>
    ensures { IfOk result (λ told. told ≡ with_word word.now fault) }
{
    match fault {
        LibFault::CellExists => word.copy(alloc).map(EditFault::CellExists),
        LibFault::EmptyRect => Ok(EditFault::EmptyRect),
        LibFault::OutOfRange => Ok(EditFault::OutOfRange),
        LibFault::BadTransform => Ok(EditFault::BadTransform),
        LibFault::NoUse => word.copy(alloc).map(EditFault::NoUse),
        LibFault::UseExists => word.copy(alloc).map(EditFault::UseExists),
        LibFault::Cycle(name) => Ok(EditFault::Cycle(name)),
        LibFault::NoLabel => word.copy(alloc).map(EditFault::NoLabel),
        LibFault::TooMany(limit) => Ok(EditFault::TooMany(limit)),
        LibFault::Memory => Ok(EditFault::Memory),
    }
}

/// The fault of a command for which the library refuses an edit, with the word that it tells of.
pub(crate) fn with_word(alloc: Global, word: &Name, fault: LibFault) -> EditFault
    ensures { (result ≡ EditFault.Memory) ⊎ (result ≡ with_word word.now fault) }
{
    match worded(alloc, word, fault) {
        Ok(told) => told,
        Err(_) => EditFault::Memory,
    }
}

/// What is told of what the library answers.
pub(crate) fn told(
    alloc: Global,
    word: &Name,
    answer: Result<(), LibFault>,
) -> Result<(), EditFault>
    ensures { IsTold word.now answer result }
{
    match answer {
        Ok(()) => Ok(()),
        Err(fault) => Err(with_word(alloc, word, fault)),
    }
}

// The fault of a word that names no layer.
fn no_layer(alloc: Global, word: &Name) -> EditFault
    ensures { (result ≡ EditFault.Memory) ⊎ (result ≡ EditFault.NoLayer word.now) }
{
    word.copy(alloc)
        .map_or(EditFault::Memory, EditFault::NoLayer)
}

// The fault of a name that no cell has.
fn no_cell(alloc: Global, name: &Name) -> EditFault
    ensures { (result ≡ EditFault.Memory) ⊎ (result ≡ EditFault.NoCell name.now) }
{
    name.copy(alloc)
        .map_or(EditFault::Memory, EditFault::NoCell)
}

/// The layer that has the word as its name or as an alias.
pub(crate) fn layer_called(
    alloc: Global,
    library: &Library,
    word: &Name,
) -> Result<LayerId, EditFault>
    ensures named { IfOk result (λ layer. layer_named library.now.tech word.now ≡ Some layer.0) }
    ensures there { IfOk result (λ layer. layer.0 < length library.now.tech.layers) }
    ensures missing { IfErr result (IsNotFound (layer_named library.now.tech word.now) (EditFault.NoLayer word.now)) }
{
    match library.tech().layer(word.bytes()) {
        Some(layer) => Ok(layer),
        None => Err(no_layer(alloc, word)),
    }
}

/// The layer that the word names for a label, where `space` is none.
pub(crate) fn label_layer(
    alloc: Global,
    library: &Library,
    word: &Name,
) -> Result<Option<LayerId>, EditFault>
    ensures named { IfOk result (λ layer. label_layer library.now.tech word.now ≡ Some layer) }
    ensures there { IfOk result (λ layer. IfSome layer (λ number. number.0 < length library.now.tech.layers)) }
    ensures missing { IfErr result (IsNotFound (label_layer library.now.tech word.now) (EditFault.NoLayer word.now)) }
{
    if word.bytes() == b"space".as_slice() {
        return Ok(None);
    }
    match library.tech().layer(word.bytes()) {
        Some(layer) => Ok(Some(layer)),
        None => Err(no_layer(alloc, word)),
    }
}

/// The cell of the name.
pub(crate) fn cell_called(
    alloc: Global,
    library: &Library,
    name: &Name,
) -> Result<CellKey, EditFault>
    ensures named { IfOk result (λ key. cell_named (seen library.now) name.now ≡ Some key.0) }
    ensures there { IfOk result (λ key. key.0 < length library.now.contents) }
    ensures missing { IfErr result (IsNotFound (cell_named (seen library.now) name.now) (EditFault.NoCell name.now)) }
{
    match library.find(name.bytes()) {
        Some(key) => Ok(key),
        None => Err(no_cell(alloc, name)),
    }
}
