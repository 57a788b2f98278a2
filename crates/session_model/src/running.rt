//! Runs the lines of a script, whatever each of them does.
ghost use Rattle.std.specs.Prelude.{◌≡◌, ◌⊎◌, ◌≤◌, [], ◌∷◌, ◌++◌, ℕ, List, Some, IfOk, OnOk, OnErr, IsErrOf};
ghost use Rattle.text_scan.specs.Lines.{lines_of};
ghost use Rattle.outside_io.specs.Counts.{Rose};
ghost use Rattle.outside_io.specs.Files.{Files};
ghost use Rattle.outside_io.specs.ToldBytes.{AppendsPrefix, with_back};
ghost use Rattle.session_model.specs.Causes.{ComeFrom, EndsFor, StoreFailed, line_kinds, UnlessWriteFault};
ghost use Rattle.session_model.specs.Counted.{AreCounted};
ghost use Rattle.session_model.specs.Effects.{Effect, after_fetches, with_stores};
ghost use Rattle.session_model.specs.Progress.{BeginsNext, DoesPart, IsCutShort, Progress, StoresSome};
ghost use Rattle.session_model.specs.Reports.{is_told, report_of};
ghost use Rattle.session_model.specs.Scripts.{Act, HasOneEffect, MeansInSound, ScriptActs, answers_in, fetched_in, lines_in, stores_in};

use crate::answer::{Answer, Halt, Store};
use crate::report::{is_told, report_text};
use crate::session::Session;
use outside_io::{Shelf, Sink, write_all};
use std::alloc::Global;
use text_scan::lines;

/// Runs the lines of a script in their order. Of each it first makes the stores and then writes the lines of its
/// answer to the report, and only then turns to the next. It says whether the run is told.
pub fn run_lines<S: Session, K: Sink, F: Shelf>(
    alloc: Global,
    session: &mut S,
    quiet: bool,
    text: &[u8],
    report: &mut K,
    shelf: &mut F,
) -> Result<bool, Halt>
    requires { S.is_sound session.old }
    // A run that comes to its end did outside what its lines mean. It made as many fetches as they fetch names, and each refusal for a
    // file that could not be had is counted.
    ensures effect { (before : List ℕ) (files : Files) → K.written report.old ≡ Some before → F.files shelf.old ≡ Some files →
        IfOk result (λ told. (acts : List Act)
        × ScriptActs (MeansInSound S.state S.is_sound S.means) (S.state session.old) files (lines_of text.now) acts
        × (K.written report.new ≡ Some (before ++ report_of quiet (lines_in acts)))
        × (F.files shelf.new ≡ Some (with_stores files (stores_in acts)))
        × (told ≡ is_told (lines_in acts))
        × (F.fetch_plan shelf.new ≡ after_fetches (F.fetch_plan shelf.old) (fetched_in acts))
        × AreCounted F.Shelf shelf.old shelf.new (answers_in acts)) }

    // However it ends, it has come somewhere in the script.
    ensures progress { (before : List ℕ) (files : Files) → K.written report.old ≡ Some before → F.files shelf.old ≡ Some files →
        (reported : List ℕ) × (after : Files)
        × Progress (MeansInSound S.state S.is_sound S.means) quiet (StoreFailed F.Shelf shelf.old shelf.new result) (S.state session.old) files
        (lines_of text.now) reported after
        × (K.written report.new ≡ Some (before ++ reported)) × (F.files shelf.new ≡ Some after) }

    // So where each line has one effect, what it leaves is the beginning of each session that the script means.
    ensures cut_short { HasOneEffect (MeansInSound S.state S.is_sound S.means) S.means →
        (before : List ℕ) (files : Files) → K.written report.old ≡ Some before → F.files shelf.old ≡ Some files →
        (reported : List ℕ) × (after : Files) × (K.written report.new ≡ Some (before ++ reported)) × (F.files shelf.new ≡ Some after)
        × ((acts : List Act) → ScriptActs S.means (S.state session.old) files (lines_of text.now) acts
        → IsCutShort quiet (StoreFailed F.Shelf shelf.old shelf.new result) files acts reported after) }
    ensures causes { EndsFor K.Sink F.Shelf report.old report.new shelf.old shelf.new result }
{
    let mut told = false;
    let mut number = 0;
    for line in lines(text) {
        number += 1;
        let tells = run_line(alloc, session, quiet, number, line, report, shelf)?;
        told |= tells;
    }
    Ok(told)
}

// Runs a line, and says whether the lines of its answer are told.
fn run_line<S: Session, K: Sink, F: Shelf>(
    alloc: Global,
    session: &mut S,
    quiet: bool,
    number: usize,
    line: &[u8],
    report: &mut K,
    shelf: &mut F,
) -> Result<bool, Halt>
    requires { S.is_sound session.old }
    ensures effect { (before : List ℕ) (files : Files) → K.written report.old ≡ Some before → F.files shelf.old ≡ Some files →
        IfOk result (λ told. (effect : Effect S.State)
        × MeansInSound S.state S.is_sound S.means number (S.state session.old) files line.now effect
        × (effect.state ≡ S.state session.new)
        × (K.written report.new ≡ Some (before ++ report_of quiet effect.lines))
        × (F.files shelf.new ≡ Some (with_stores files effect.stores))
        × (told ≡ is_told effect.lines)
        × (F.fetch_plan shelf.new ≡ after_fetches (F.fetch_plan shelf.old) effect.fetched)
        × ComeFrom F.Shelf shelf.old shelf.new (line_kinds effect.lines)) }
    ensures stopped { (before : List ℕ) (files : Files) → K.written report.old ≡ Some before → F.files shelf.old ≡ Some files →
        OnErr result ((front : List ℕ) × (after : Files)
        × BeginsNext (MeansInSound S.state S.is_sound S.means) quiet (StoreFailed F.Shelf shelf.old shelf.new result) number (S.state session.old) files
        (line.now ∷ []) front after
        × (K.written report.new ≡ Some (before ++ front)) × (F.files shelf.new ≡ Some after)) }
    ensures sound { S.is_sound session.new }
    ensures causes { EndsFor K.Sink F.Shelf report.old report.new shelf.old shelf.new result }
    ensures more_absences { F.absences shelf.old ≤ F.absences shelf.new }
    ensures more_overlengths { F.overlengths shelf.old ≤ F.overlengths shelf.new }
{
    let answer = session.answer_line(alloc, shelf, number, line)?;
    carry_out(alloc, quiet, &answer, report, shelf)?;
    Ok(is_told(answer.lines.as_slice()))
}

// Makes the stores of an answer, and then reports its lines.
fn carry_out<K: Sink, F: Shelf>(
    alloc: Global,
    quiet: bool,
    answer: &Answer,
    report: &mut K,
    shelf: &mut F,
) -> Result<(), Halt>
    ensures all { (before : List ℕ) (files : Files) → K.written report.old ≡ Some before → F.files shelf.old ≡ Some files →
        OnOk result ((K.written report.new ≡ Some (before ++ report_of quiet answer.now.lines.items))
        × (F.files shelf.new ≡ Some (with_stores files answer.now.stores.items))) }
    ensures some { (before : List ℕ) (files : Files) → K.written report.old ≡ Some before → F.files shelf.old ≡ Some files →
        OnErr result ((front : List ℕ) × (after : Files)
        × DoesPart quiet (StoreFailed F.Shelf shelf.old shelf.new result) files answer.now.lines.items answer.now.stores.items front after
        × (K.written report.new ≡ Some (before ++ front)) × (F.files shelf.new ≡ Some after)) }
    ensures no_read { IsErrOf result Halt.ReadFault → ⊥ }
    ensures write_fault { IsErrOf result Halt.WriteFault →
        Rose (K.faults report.old) (K.faults report.new) ⊎ Rose (F.store_faults shelf.old) (F.store_faults shelf.new) }
    ensures calm_report { UnlessWriteFault result (K.faults report.new ≡ K.faults report.old) }
    ensures calm_store { UnlessWriteFault result (F.store_faults shelf.new ≡ F.store_faults shelf.old) }
    ensures no_fetch { F.fetch_faults shelf.new ≡ F.fetch_faults shelf.old }
    ensures no_absence { F.absences shelf.new ≡ F.absences shelf.old }
    ensures no_overlength { F.overlengths shelf.new ≡ F.overlengths shelf.old }
    ensures no_fetch_call { F.fetch_plan shelf.new ≡ F.fetch_plan shelf.old }
{
    store_all(shelf, answer.stores.as_slice())?;
    report_lines(alloc, quiet, answer, report)
}

// Makes stores in their order.
fn store_all<F: Shelf>(shelf: &mut F, stores: &[Store]) -> Result<(), Halt>
    ensures all { (files : Files) → F.files shelf.old ≡ Some files → OnOk result (F.files shelf.new ≡ Some (with_stores files stores.now)) }
    ensures some { (files : Files) → F.files shelf.old ≡ Some files → OnErr result ((after : Files)
        × StoresSome (StoreFailed F.Shelf shelf.old shelf.new result) files stores.now after × (F.files shelf.new ≡ Some after)) }
    ensures no_read { IsErrOf result Halt.ReadFault → ⊥ }
    ensures write_fault { IsErrOf result Halt.WriteFault → Rose (F.store_faults shelf.old) (F.store_faults shelf.new) }
    ensures calm { UnlessWriteFault result (F.store_faults shelf.new ≡ F.store_faults shelf.old) }
    ensures no_fetch { F.fetch_faults shelf.new ≡ F.fetch_faults shelf.old }
    ensures no_absence { F.absences shelf.new ≡ F.absences shelf.old }
    ensures no_overlength { F.overlengths shelf.new ≡ F.overlengths shelf.old }
    ensures no_fetch_call { F.fetch_plan shelf.new ≡ F.fetch_plan shelf.old }
{
    for store in stores {
        shelf.store(&store.name, store.bytes.items())?;
    }
    Ok(())
}

// Writes the lines of an answer to the report.
fn report_lines<K: Sink>(
    alloc: Global,
    quiet: bool,
    answer: &Answer,
    report: &mut K,
) -> Result<(), Halt>
    ensures all { OnOk result (K.written report.new ≡ with_back (K.written report.old) (report_of quiet answer.now.lines.items)) }
    ensures some { OnErr result (AppendsPrefix (K.written report.old) (K.written report.new) (report_of quiet answer.now.lines.items)) }
    ensures no_read { IsErrOf result Halt.ReadFault → ⊥ }
    ensures write_fault { IsErrOf result Halt.WriteFault → Rose (K.faults report.old) (K.faults report.new) }
    ensures calm { UnlessWriteFault result (K.faults report.new ≡ K.faults report.old) }
{
    let text = report_text(alloc, quiet, answer.lines.as_slice())?;
    write_text(report, &text)
}

/// Writes a text to the report. After a refusal it has some of it, from the first byte on.
pub fn write_text<K: Sink>(report: &mut K, text: &[u8]) -> Result<(), Halt>
    ensures all { OnOk result (K.written report.new ≡ with_back (K.written report.old) text.now) }
    ensures some { OnErr result (AppendsPrefix (K.written report.old) (K.written report.new) text.now) }
    ensures no_read { IsErrOf result Halt.ReadFault → ⊥ }
    ensures write_fault { IsErrOf result Halt.WriteFault → Rose (K.faults report.old) (K.faults report.new) }
    ensures calm { UnlessWriteFault result (K.faults report.new ≡ K.faults report.old) }
{
    write_all(report, text)?;
    Ok(())
}
