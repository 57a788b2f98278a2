//! `ext2sim c`: reads c.ext and the circuit file of every cell below it, and stores the sim file of the circuit that they mean.
ghost use Rattle.std.specs.Prelude.{◌≡◌, Some, IfOk, IsOkUnless, IsTrue};
ghost use Rattle.text_scan.specs.PlainNames.{is_plain_name};
ghost use Rattle.outside_io.specs.Files.{Files};
ghost use Rattle.session_model.specs.Causes.{HasCauses, kinds_of};
ghost use Rattle.session_model.specs.Effects.{Answers, AnswersFetching};
ghost use Rattle.session_model.specs.FileTrees.{All, fetched_by};
ghost use Rattle.ext_loading.specs.Readings.{circuit_files};
ghost use Rattle.ext_loading.specs.Loads.{AreRead, CanBeFlattened};
ghost use Rattle.line_answers.specs.LineEffects.{IsOfInside};
ghost use Rattle.circuit_commands.specs.CommandExt2sim.{Ext2simMeans};

use crate::circuits::written_alone;
use crate::given::write_given;
use crate::refusals::{refuse_flat, refuse_tree};
use circuit_laws::flat_transistor_has_letter_and_lengths;
use circuit_model::FlatFault;
use ext_loading::{LoadedExts, load_exts};
use ext_model::ArrayExt;
use flatten::flatten_into;
use names_lists::Name;
use outside_io::Shelf;
use session_model::{Answer, Halt};
use std::alloc::Global;

/// `ext2sim c`, the script's line of this number. It leaves the session as it is.
pub fn ext2sim<F: Shelf>(
    alloc: Global,
    shelf: &mut F,
    number: usize,
    cell: &Name,
) -> Result<Answer, Halt>
    requires cell { IsTrue (is_plain_name cell.now) }
    ensures effect { (files : Files) → F.files shelf.old ≡ Some files → IfOk result (λ answer.
        Answers (Ext2simMeans number files cell.now) tt answer (F.fetch_plan shelf.old) (F.fetch_plan shelf.new)) }
    ensures files { F.files shelf.new ≡ F.files shelf.old }
    ensures causes { HasCauses F.Shelf shelf.old shelf.new kinds_of result }
{
    match load_exts(alloc, shelf, cell)? {
        LoadedExts::Records(exts) => sim_of_records(alloc, number, exts.as_slice(), cell),
        LoadedExts::Refused(fault) => refuse_tree(alloc, number, &fault),
    }
}

// Writes the sim file of the circuit that records of a tree mean.
fn sim_of_records(
    alloc: Global,
    number: usize,
    exts: &[ArrayExt],
    cell: &Name,
) -> Result<Answer, Halt>
    requires { CanBeFlattened cell.now exts.now }
    ensures effect { (files : Files) → AreRead files cell.now exts.now → IfOk result
        (AnswersFetching (fetched_by circuit_files (All exts.now)) (Ext2simMeans number files cell.now) tt) }
    ensures inside { IfOk result (λ answer. IsOfInside answer.lines.items) }
    ensures memory { IsOkUnless result Halt.Memory }
{
    flat_transistor_has_letter_and_lengths();
    match flatten_into(alloc, exts, cell) {
        Ok(circuit) => {
            let written = write_given(alloc, cell, circuit)?;
            written_alone(alloc, number, written)
        }
        Err(FlatFault::Memory) => Err(Halt::Memory),
        Err(fault) => refuse_flat(alloc, number, &fault),
    }
}
