//! `cif c`: stores c.cif.
ghost use Rattle.std.specs.Prelude.{◌≡◌, ◌<◌, ◌∷◌, [], length, IfOk, IsOkUnless};
ghost use Rattle.session_model.specs.Effects.{AnswersAlone};
ghost use Rattle.cell_library.specs.Libraries.{seen};
ghost use Rattle.line_answers.specs.LineEffects.{IsOfInside, reply};
ghost use Rattle.cif_commands.specs.CommandCif.{CifMeans, cif_store, written_text};

use cell_library::Library;
use cif_writing::{CifText, CifWriteFault, write_cif};
use ext_model::CellKey;
use line_answers::{
    append_count, append_with_name, file_name, one_line, one_store, refuse_too_many, reply,
};
use names_lists::{List, Name};
use session_model::{Answer, Halt, ReportLine, Store};
use std::alloc::{AllocError, Global};

/// `cif c`, the script's line of this number, for the cell of this name. It leaves the library as it is.
pub fn cif(
    alloc: Global,
    library: &Library,
    number: usize,
    cell: CellKey,
    name: &Name,
) -> Result<Answer, Halt>
    requires { cell.0 < length library.now.contents }
    ensures effect { IfOk result (AnswersAlone (CifMeans number (seen library.now) cell.0 name.now) tt) }
    ensures inside { IfOk result (λ answer. IsOfInside answer.lines.items) }
    ensures memory { IsOkUnless result Halt.Memory }
{
    match write_cif(alloc, library, cell) {
        Ok(written) => stored(alloc, name, written),
        Err(CifWriteFault::TooLong) => refuse_too_many(alloc, number, b"Text"),
        Err(CifWriteFault::Memory) => Err(Halt::Memory),
    }
}

// The answer that stores the text of the cell of this name.
fn stored(alloc: Global, name: &Name, written: CifText) -> Result<Answer, Halt>
    ensures lines { IfOk result (λ answer. answer.lines.items ≡ reply (written_text name.now written.symbols) ∷ []) }
    ensures stores { IfOk result (λ answer. answer.stores.items ≡ cif_store name.now written.text.items ∷ []) }
    ensures memory { IsOkUnless result Halt.Memory }
{
    let lines = written_line(alloc, name, written.symbols)?;
    let store = Store {
        name: file_name(alloc, name, b".cif")?,
        bytes: List::of(written.text),
    };
    Ok(Answer {
        lines,
        stores: one_store(alloc, store)?,
    })
}

// `cif CELL: K symbols`.
fn written_line(alloc: Global, name: &Name, symbols: usize) -> Result<Vec<ReportLine>, AllocError>
    ensures { IfOk result (λ lines. lines.items ≡ reply (written_text name.now symbols) ∷ []) }
{
    let mut text = Vec::new(alloc);
    append_with_name(&mut text, b"cif ", name)?;
    append_count(&mut text, b": ", symbols, b" symbols")?;
    one_line(alloc, reply(text))
}
