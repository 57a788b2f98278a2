//! What the circuit file of a cell gives, or why it is refused.
ghost use Rattle.std.specs.Prelude.{◌≡◌, ◌≢◌, ◌≤◌, length, Some, Ok, Err, IfOk};
ghost use Rattle.outside_io.specs.Files.{Files};
ghost use Rattle.session_model.specs.Causes.{HasCauses};
ghost use Rattle.session_model.specs.steps.Stops.{AsksOnce, answer_of, kinds_of_told, ComesFromInside, IfRefused};
ghost use Rattle.ext_reading.specs.declared.limits.TheConstants.{LONGEST_READ_TEXT};
ghost use Rattle.ext_reading.specs.ExtTexts.{ext_in};
ghost use Rattle.ext_loading.specs.ExtFiles.{ext_file, file_gives, read_gives};
ghost use Rattle.ext_loading.specs.Loads.{cause_of_load};
ghost use Rattle.ext_loading.specs.steps.Trees.{MayFollow};

use crate::faults::ExtLoadFault;
use crate::read_exts::ReadExts;
use ext_model::ArrayExt;
use ext_reading::{ExtAt, ExtReadFault, read_ext};
use names_lists::Name;
use outside_io::Shelf;
use session_model::{Fetched, Halt, Stop, fetch_text};
use std::alloc::Global;

/// The record of the cell of this name, as its file says it.
#[tactic(auto, unfolding(crate::specs::ExtFiles::file_gives))]
pub fn read_ext_file<F: Shelf>(
    alloc: Global,
    shelf: &mut F,
    read: &ReadExts,
    name: &Name,
) -> Result<ArrayExt, Stop<ExtLoadFault>>
    ensures read { (files : Files) → F.files shelf.old ≡ Some files → IfOk result (λ ext. file_gives files read.now name.now ≡ Ok ext) }
    ensures refused { (files : Files) → F.files shelf.old ≡ Some files → IfRefused result (λ told. file_gives files read.now name.now ≡ Err told) }
    ensures follows { IfOk result (MayFollow read.now name.now) }
    ensures files { F.files shelf.new ≡ F.files shelf.old }
    ensures asked { AsksOnce (F.fetch_plan shelf.old) (F.fetch_plan shelf.new) result }
    ensures causes { HasCauses F.Shelf shelf.old shelf.new (kinds_of_told cause_of_load) (answer_of result) }
{
    let file = ext_file(alloc, name)?;
    match fetch_text(alloc, shelf, &file) {
        Ok(Fetched::Text(text)) => read_record(alloc, read, name, file, &text),
        Ok(Fetched::Refused(fault)) => Err(Stop::Refused(ExtLoadFault::File(file, fault))),
        Err(halt) => Err(Stop::Halted(halt)),
    }
}

// The name of the circuit file of a cell.
fn ext_file(alloc: Global, name: &Name) -> Result<Name, Stop<ExtLoadFault>>
    ensures file { IfOk result (λ file. file ≡ ext_file name.now) }
    ensures inside { ComesFromInside cause_of_load result }
    ensures unrefused { IfRefused result (λ _. ⊥) }
{
    let mut bytes = Vec::from_slice(alloc, name.bytes())?;
    bytes.extend_from_slice(b".ext")?;
    Ok(Name::of(alloc, &bytes)?)
}

// The record that the text of this file says, where there is room for one more.
fn read_record(
    alloc: Global,
    read: &ReadExts,
    name: &Name,
    file: Name,
    text: &[u8],
) -> Result<ArrayExt, Stop<ExtLoadFault>>
    requires { length text.now ≤ LONGEST_READ_TEXT }
    ensures read { IfOk result (λ ext. read_gives read.now file (ext_in name.now text.now) ≡ Ok ext) }
    ensures refused { IfRefused result (λ told. read_gives read.now file (ext_in name.now text.now) ≡ Err told) }
    ensures follows { IfOk result (MayFollow read.now name.now) }
    ensures inside { ComesFromInside cause_of_load result }
{
    match read_ext(alloc, text, name) {
        Ok(ext) => {
            if read.is_full() {
                return Err(Stop::Refused(ExtLoadFault::TooManyCells));
            }
            Ok(ext)
        }
        Err(at) => Err(unread(file, at)),
    }
}

// Why the text of this file isn't read.
fn unread(file: Name, at: ExtAt) -> Stop<ExtLoadFault>
    ensures halted { at.fault ≡ ExtReadFault.Memory → result ≡ Stop.Halted Halt.Memory }
    ensures refused { at.fault ≢ ExtReadFault.Memory → result ≡ Stop.Refused (ExtLoadFault.Ext file at) }
{
    match at.fault {
        ExtReadFault::Memory => Stop::Halted(Halt::Memory),
        _ => Stop::Refused(ExtLoadFault::Ext(file, at)),
    }
}
