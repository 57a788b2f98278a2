//! `cifstat f`: tells how many squares the CIF text f.cif gives to each of its layers.
ghost use Rattle.std.specs.Prelude.{◌≡◌, ◌∷◌, [], ℕ, List, Some, IfOk, IsOkUnless};
ghost use Rattle.outside_io.specs.Files.{Files};
ghost use Rattle.session_model.specs.Causes.{HasCauses, kinds_of};
ghost use Rattle.session_model.specs.Effects.{Answers, AnswersFetching};
ghost use Rattle.session_model.specs.Fetches.{text_in};
ghost use Rattle.cif_reading.specs.CifTexts.{cif_in};
ghost use Rattle.line_answers.specs.LineEffects.{IsOfInside};
ghost use Rattle.cif_commands.specs.CommandCifstat.{CifstatMeans, MeasuresCif, MeasuresFetched, MeasuresText};

use crate::layer_lines::stat_lines;
use crate::refusals::{cif_limit_word, refuse_cif};
use cif_expansion::{ExpansionFault, expand};
use cif_model::Cif;
use cif_reading::{CifAt, CifFault, read_cif};
use line_answers::{file_name, out_of_range, refuse, refuse_file, refuse_too_many, told};
use names_lists::Name;
use outside_io::Shelf;
use session_model::{Answer, Fetched, Halt, fetch_text};
use std::alloc::Global;

/// `cifstat f`, the script's line of this number. It needs no technology, and leaves the session as it is.
pub fn cifstat<F: Shelf>(
    alloc: Global,
    shelf: &mut F,
    number: usize,
    name: &Name,
) -> Result<Answer, Halt>
    ensures effect { (files : Files) → F.files shelf.old ≡ Some files → IfOk result (λ answer.
        Answers (CifstatMeans number files name.now) tt answer (F.fetch_plan shelf.old) (F.fetch_plan shelf.new)) }
    ensures files { F.files shelf.new ≡ F.files shelf.old }
    ensures causes { HasCauses F.Shelf shelf.old shelf.new kinds_of result }
{
    let file = file_name(alloc, name, b".cif")?;
    measure_fetched(alloc, shelf, number, name, file)
}

// Measures the text of the file, where it is there.
fn measure_fetched<F: Shelf>(
    alloc: Global,
    shelf: &mut F,
    number: usize,
    name: &Name,
    file: Name,
) -> Result<Answer, Halt>
    ensures effect { (files : Files) → F.files shelf.old ≡ Some files → IfOk result (λ answer.
        Answers (MeasuresFetched number name.now file (text_in files file)) tt answer (F.fetch_plan shelf.old) (F.fetch_plan shelf.new)) }
    ensures files { F.files shelf.new ≡ F.files shelf.old }
    ensures causes { HasCauses F.Shelf shelf.old shelf.new kinds_of result }
{
    match fetch_text(alloc, shelf, &file)? {
        Fetched::Text(text) => measure_text(alloc, number, name, &file, &text),
        Fetched::Refused(fault) => refuse_file(alloc, number, &file, fault),
    }
}

// Measures what a text says, where it has no fault.
fn measure_text(
    alloc: Global,
    number: usize,
    name: &Name,
    file: &Name,
    text: &[u8],
) -> Result<Answer, Halt>
    ensures effect { IfOk result (AnswersFetching (file.now ∷ []) (MeasuresText number name.now file.now (cif_in text.now)) tt) }
    ensures inside { IfOk result (λ answer. IsOfInside answer.lines.items) }
    ensures memory { IsOkUnless result Halt.Memory }
{
    match read_cif(alloc, text) {
        Ok(cif) => measure_cif(alloc, number, name, &cif),
        Err(
            CifAt {
                line: _,
                fault: CifFault::Memory,
            },
        ) => Err(Halt::Memory),
        Err(at) => refuse_cif(alloc, number, file, &at),
    }
}

// Measures what a text says, where it is past no limit and within the range.
fn measure_cif(alloc: Global, number: usize, name: &Name, cif: &Cif) -> Result<Answer, Halt>
    ensures effect { (file : List ℕ) → IfOk result (AnswersFetching (file ∷ []) (MeasuresCif number name.now file cif.now) tt) }
    ensures inside { IfOk result (λ answer. IsOfInside answer.lines.items) }
    ensures memory { IsOkUnless result Halt.Memory }
{
    match expand(alloc, cif) {
        Ok(layers) => Ok(told(alloc, stat_lines(alloc, name, layers.as_slice())?)),
        Err(ExpansionFault::TooMany(limit)) => {
            refuse_too_many(alloc, number, cif_limit_word(limit))
        }
        Err(ExpansionFault::OutOfRange) => {
            let refusal = out_of_range(alloc)?;
            refuse(alloc, number, refusal)
        }
        Err(ExpansionFault::Memory) => Err(Halt::Memory),
    }
}
