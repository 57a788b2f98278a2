//! What the file of a cell gives, or why it is refused.
ghost use Rattle.std.specs.Prelude.{◌≡◌, ◌≢◌, ◌+◌, nat_le, length, List, Some, Ok, Err, IfOk, OnOk};
ghost use Rattle.std.specs.Option.{option_or};
ghost use Rattle.outside_io.specs.Files.{Files};
ghost use Rattle.session_model.specs.Causes.{HasCauses};
ghost use Rattle.session_model.specs.steps.Stops.{AsksOnce, answer_of, kinds_of_told, ComesFromInside, IfRefused};
ghost use Rattle.mag_text.specs.CellLibrary.Additions.{first_scale};
ghost use Rattle.mag_text.specs.CellLibrary.Libraries.{seen};
ghost use Rattle.mag_text.specs.CellBodies.Bodies.{IsBody};
ghost use Rattle.mag_text.specs.Drafts.{Draft};
ghost use Rattle.mag_text.specs.MagTexts.{HasAllOf, mag_in};
ghost use Rattle.cell_loading.specs.CellFiles.{cell_file, draft_gives, file_gives, has_scale, read_gives, scale_of_first, ReadCell};
ghost use Rattle.cell_loading.specs.Loads.{AreBodiesOf, cause_of_load};
ghost use Rattle.cell_loading.specs.steps.ReadCells.{is_among};
ghost use Rattle.cell_loading.specs.steps.Walks.{MayFollow};

use crate::faults::LoadFault;
use crate::read_cells::ReadCells;
use cell_tree::MOST_USES;
use mag_text::cell_bodies::CellBody;
use mag_text::cell_library::{Library, LibraryLimit, MOST_CELLS};
use mag_text::{MagAt, MagFault, read_mag, scale_line};
use names_lists::Name;
use outside_io::Shelf;
use session_model::{Fetched, Halt, Stop, fetch_text};
use std::alloc::Global;

/// Whether a cell of the library, or one that was read, has the name.
pub fn is_known(library: &Library, cells: &ReadCells, name: &[u8]) -> bool
    ensures { result ≡ is_among (seen library.now) cells.now name.now }
{
    library.find(name).is_some() || cells.has(name)
}

/// The body of the cell of this name, as its file says it.
#[tactic(auto, unfolding(crate::specs::CellFiles::file_gives))]
pub fn read_cell_file<F: Shelf>(
    alloc: Global,
    library: &Library,
    shelf: &mut F,
    cells: &ReadCells,
    name: &Name,
) -> Result<CellBody, Stop<LoadFault>>
    ensures read { (files : Files) (read : List ReadCell) → F.files shelf.old ≡ Some files → AreBodiesOf library.now.tech read cells.now →
        IfOk result (λ body. (draft : Draft) × (file_gives files (seen library.now) read name.now ≡ Ok draft) × HasAllOf library.now.tech draft
        body) }
    ensures refused { (files : Files) (read : List ReadCell) → F.files shelf.old ≡ Some files → AreBodiesOf library.now.tech read cells.now →
        IfRefused result (λ told. file_gives files (seen library.now) read name.now ≡ Err told) }
    ensures follows { IfOk result (MayFollow (seen library.now) cells.now) }
    ensures files { F.files shelf.new ≡ F.files shelf.old }
    ensures asked { AsksOnce (F.fetch_plan shelf.old) (F.fetch_plan shelf.new) result }
    ensures causes { HasCauses F.Shelf shelf.old shelf.new (kinds_of_told cause_of_load) (answer_of result) }
{
    let file = cell_file(alloc, name)?;
    match fetch_text(alloc, shelf, &file) {
        Ok(Fetched::Text(text)) => read_body(alloc, library, cells, file, &text),
        Ok(Fetched::Refused(fault)) => Err(Stop::Refused(LoadFault::File(file, fault))),
        Err(halt) => Err(Stop::Halted(halt)),
    }
}

// The name of the file of a cell.
fn cell_file(alloc: Global, name: &Name) -> Result<Name, Stop<LoadFault>>
    ensures file { IfOk result (λ file. file ≡ cell_file name.now) }
    ensures inside { ComesFromInside cause_of_load result }
    ensures unrefused { IfRefused result (λ _. ⊥) }
{
    let mut bytes = Vec::from_slice(alloc, name.bytes())?;
    bytes.extend_from_slice(b".mag")?;
    Ok(Name::of(alloc, &bytes)?)
}

// The body that the text of this file says.
fn read_body(
    alloc: Global,
    library: &Library,
    cells: &ReadCells,
    file: Name,
    text: &[u8],
) -> Result<CellBody, Stop<LoadFault>>
    ensures read { (read : List ReadCell) → AreBodiesOf library.now.tech read cells.now → IfOk result (λ body. (draft : Draft)
        × (read_gives (seen library.now) read file text.now (mag_in library.now.tech text.now) ≡ Ok draft) × HasAllOf library.now.tech draft body) }
    ensures refused { (read : List ReadCell) → AreBodiesOf library.now.tech read cells.now →
        IfRefused result (λ told. read_gives (seen library.now) read file text.now (mag_in library.now.tech text.now) ≡ Err told) }
    ensures follows { IfOk result (MayFollow (seen library.now) cells.now) }
    ensures inside { ComesFromInside cause_of_load result }
{
    match read_mag(alloc, library.tech(), text) {
        Ok(body) => check_body(library, cells, file, text, body),
        Err(at) => Err(unread(file, at)),
    }
}

// Why the text of this file isn't read.
fn unread(file: Name, at: MagAt) -> Stop<LoadFault>
    ensures halted { at.fault ≡ MagFault.Memory → result ≡ Stop.Halted Halt.Memory }
    ensures refused { at.fault ≢ MagFault.Memory → result ≡ Stop.Refused (LoadFault.Mag file at) }
{
    match at.fault {
        MagFault::Memory => Stop::Halted(Halt::Memory),
        _ => Stop::Refused(LoadFault::Mag(file, at)),
    }
}

// Refuses a body that has another scale, has too many uses, or has no room.
fn check_body(
    library: &Library,
    cells: &ReadCells,
    file: Name,
    text: &[u8],
    body: CellBody,
) -> Result<CellBody, Stop<LoadFault>>
    requires { IsBody library.now.tech body }
    ensures same { IfOk result (λ kept. kept ≡ body) }
    ensures read { (read : List ReadCell) (draft : Draft) → scale_of_first read ≡ first_scale cells.now → length read ≡ length cells.now
        → body.uses ≡ draft.uses → body.scale ≡ draft.scale → OnOk result (draft_gives (seen library.now) read file text.now draft ≡ Ok draft) }
    ensures refused { (read : List ReadCell) (draft : Draft) → scale_of_first read ≡ first_scale cells.now → length read ≡ length cells.now
        → body.uses ≡ draft.uses → body.scale ≡ draft.scale → IfRefused result (λ told. draft_gives
        (seen library.now) read file text.now draft ≡ Err told) }
    ensures follows { IfOk result (MayFollow (seen library.now) cells.now) }
    ensures inside { ComesFromInside cause_of_load result }
{
    if !has_scale(asked_scale(library, cells), body.scale) {
        return Err(Stop::Refused(LoadFault::Scale(file, scale_line(text))));
    }
    if body.uses.items().len() > MOST_USES {
        return Err(Stop::Refused(LoadFault::TooMany(LibraryLimit::Uses)));
    }
    if is_full(library, cells) {
        return Err(Stop::Refused(LoadFault::TooMany(LibraryLimit::Cells)));
    }
    Ok(body)
}

// The scale that the next cell has to have: the library's, or that of the first cell that was read.
fn asked_scale(library: &Library, cells: &ReadCells) -> Option<(u32, u32)>
    ensures { result ≡ option_or library.now.scale (first_scale cells.now) }
{
    match library.scale() {
        Some(scale) => Some(scale),
        None => cells.first_scale(),
    }
}

// Whether both numbers are those that are asked for, if any are.
fn has_scale(asked: Option<(u32, u32)>, scale: (u32, u32)) -> bool
    ensures { result ≡ has_scale asked scale }
{
    match asked {
        Some(asked) => asked.0 == scale.0 && asked.1 == scale.1,
        None => true,
    }
}

// Whether there is no room for one more cell.
fn is_full(library: &Library, cells: &ReadCells) -> bool
    ensures { result ≡ nat_le MOST_CELLS (length (seen library.now).cells + length cells.now) }
{
    library.lawful();
    cells.len() >= MOST_CELLS - library.cell_count()
}
