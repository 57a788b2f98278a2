//! The top call.
ghost use Rattle.std.specs.Prelude.{◌≡◌, ◌≢◌, ◌⊎◌, ◌<◌, ◌≤◌, [], ◌∷◌, ◌++◌, ℕ, List, Some, map, length, string_bytes, IfSome, true, false};
ghost use Rattle.text_scan.specs.Lines.{lines_of};
ghost use Rattle.outside_io.specs.Counts.{Rose};
ghost use Rattle.outside_io.specs.Files.{Files};
ghost use Rattle.outside_io.specs.ToldBytes.{with_back};
ghost use Rattle.session_model.specs.Counted.{AreCounted};
ghost use Rattle.session_model.specs.Effects.{after_fetches, with_stores};
ghost use Rattle.session_model.specs.Progress.{IsCutShort, IsPrefixOf, Progress};
ghost use Rattle.session_model.specs.Reports.{report_of, text_of};
ghost use Rattle.session_model.specs.Scripts.{WholeSession, answers_in, fetched_in, lines_in, stores_in};
ghost use Rattle.magex_top.specs.Runs.{EndsByItself, IsEndOfScript, IsScriptSession, IsSessionOf, RunReaches, are_of_form, is_quiet, usage_text};
ghost use Rattle.magex_top.specs.Sessions.{RunLineMeans, first_run};
ghost use Rattle.line_answers.specs.LineEffects.{reply};

use crate::laws::lines_have_one_effect;
use crate::session::RunSession;
use crate::status::Status;
use library_commands::new_session;
use outside_io::{LONGEST_FILE, ReadAllFault, Shelf, Sink, Source, read_all};
use run_words::{RunWords, read_words};
use session_model::{run_lines, write_text};
use std::alloc::Global;
use std::sync::ledger::Ledger;
use step_count::Steps;

const USAGE_LINE: &[u8] = b"usage: magex [--budget N] [--quiet]\n";

/// Runs a script: reads it to its end, does what its lines ask for in their order, and writes what answers each line to the
/// report before it turns to the next. `words` are the words after the program's name.
pub fn run<S: Source, K: Sink, F: Shelf, L: Ledger>(
    alloc: Global,
    words: &[String],
    script: &mut S,
    report: &mut K,
    shelf: &mut F,
    steps: &mut Steps<L>,
) -> Status
    // A run that ends by itself is its session: it reports the session's lines, leaves the files after its stores, makes as many
    // fetches as it fetches names, and ends with its status. For each line that is refused since a file is not there, or is too long,
    // the shelf's count of such answers rose by one at least, or it stands at its last value.
    ensures meaning { (text before : List ℕ) (files : Files) →
        S.left script.old ≡ Some text → K.written report.old ≡ Some before → F.files shelf.old ≡ Some files →
        EndsByItself result → (session : WholeSession Status)
        × IsSessionOf (map string_bytes words.now) text files session × (result ≡ session.status)
        × (K.written report.new ≡ Some (before ++ report_of (is_quiet (map string_bytes words.now)) (lines_in session.acts)))
        × (F.files shelf.new ≡ Some (with_stores files (stores_in session.acts)))
        × (F.fetch_plan shelf.new ≡ after_fetches (F.fetch_plan shelf.old) (fetched_in session.acts))
        × AreCounted F.Shelf shelf.old shelf.new (answers_in session.acts) }
    ensures read_to_end { (result ≡ Status.Done) ⊎ (result ≡ Status.Told) → IfSome (S.left script.new) (λ left. left ≡ []) }

    // However it ends, it has come somewhere in the script, or to its end: the lines before are done, and of that line nothing or a part.
    // Of a usage fault there is a beginning of the usage line, and of a script that is too long nothing.
    ensures beginning { (text before : List ℕ) (files : Files) →
        S.left script.old ≡ Some text → K.written report.old ≡ Some before → F.files shelf.old ≡ Some files →
        (reported : List ℕ) × (after : Files)
        × RunReaches (map string_bytes words.now) text files
        ((result ≡ Status.WriteFault) × Rose (F.store_faults shelf.old) (F.store_faults shelf.new)) reported after
        × (K.written report.new ≡ Some (before ++ reported)) × (F.files shelf.new ≡ Some after) }

    // So what it leaves is the beginning of each session of these words, this script and these files: the session was cut short at one of
    // its lines, or came to its end.
    ensures begins_each { (text before : List ℕ) (files : Files) →
        S.left script.old ≡ Some text → K.written report.old ≡ Some before → F.files shelf.old ≡ Some files →
        (reported : List ℕ) × (after : Files) × (K.written report.new ≡ Some (before ++ reported)) × (F.files shelf.new ≡ Some after)
        × ((session : WholeSession Status) → IsSessionOf (map string_bytes words.now) text files session →
        IsCutShort (is_quiet (map string_bytes words.now)) ((result ≡ Status.WriteFault) × Rose (F.store_faults shelf.old) (F.store_faults shelf.new))
        files session.acts reported after) }

    // A script that could not be read runs no line: the report and the shelf are as they were.
    ensures unread { (S.faults script.new ≡ S.faults script.old → ⊥) → (report.new ≡ report.old) × (shelf.new ≡ shelf.old) }

    // Each fault has its cause, and no other count of faults rises.
    ensures read_fault { result ≡ Status.ReadFault →
        Rose (S.faults script.old) (S.faults script.new) ⊎ Rose (F.fetch_faults shelf.old) (F.fetch_faults shelf.new) }
    ensures write_fault { result ≡ Status.WriteFault →
        Rose (K.faults report.old) (K.faults report.new) ⊎ Rose (F.store_faults shelf.old) (F.store_faults shelf.new) }
    ensures calm_script { result ≢ Status.ReadFault → S.faults script.new ≡ S.faults script.old }
    ensures calm_report { result ≢ Status.WriteFault → K.faults report.new ≡ K.faults report.old }
    ensures calm_fetch { result ≢ Status.ReadFault → F.fetch_faults shelf.new ≡ F.fetch_faults shelf.old }
    ensures calm_store { result ≢ Status.WriteFault → F.store_faults shelf.new ≡ F.store_faults shelf.old }

    // When it ends with usage, and when with a script that is too long.
    ensures usage { are_of_form (map string_bytes words.now) ≡ false → (result ≡ Status.Usage) ⊎ ((result ≡ Status.WriteFault) ⊎ (result ≡ Status.Memory)) }
    ensures told_usage { are_of_form (map string_bytes words.now) ≡ false → EndsByItself result →
        K.written report.new ≡ with_back (K.written report.old) (text_of (reply usage_text ∷ [])) }
    ensures untouched { are_of_form (map string_bytes words.now) ≡ false → (script.new ≡ script.old) × (shelf.new ≡ shelf.old) }
    ensures no_usage { are_of_form (map string_bytes words.now) ≡ true → result ≢ Status.Usage }
    ensures too_long { result ≡ Status.ScriptTooLong → (are_of_form (map string_bytes words.now) ≡ true)
        × IfSome (S.left script.old) (λ text. LONGEST_FILE < length text) }
    ensures silent { result ≡ Status.ScriptTooLong → (report.new ≡ report.old) × (shelf.new ≡ shelf.old) }

    // A script that is too long runs no line, and ends so unless a fault of its own or want of memory comes first.
    ensures long { (text : List ℕ) → are_of_form (map string_bytes words.now) ≡ true → S.left script.old ≡ Some text →
        LONGEST_FILE < length text →
        (result ≡ Status.ScriptTooLong) ⊎ ((result ≡ Status.ReadFault) ⊎ (result ≡ Status.Memory)) }
    ensures long_calm { (text : List ℕ) → are_of_form (map string_bytes words.now) ≡ true → S.left script.old ≡ Some text →
        LONGEST_FILE < length text →
        (Rose (S.faults script.old) (S.faults script.new) → ⊥) → (result ≡ Status.ScriptTooLong) ⊎ (result ≡ Status.Memory) }
    ensures long_untouched { (text : List ℕ) → are_of_form (map string_bytes words.now) ≡ true → S.left script.old ≡ Some text →
        LONGEST_FILE < length text →
        (report.new ≡ report.old) × (shelf.new ≡ shelf.old) }

    // A script that is not too long comes to its end, unless a fault or want of memory ends the run.
    ensures complete { (text : List ℕ) → are_of_form (map string_bytes words.now) ≡ true → S.left script.old ≡ Some text →
        length text ≤ LONGEST_FILE →
        (Rose (S.faults script.old) (S.faults script.new) → ⊥) → (Rose (K.faults report.old) (K.faults report.new) → ⊥) →
        (Rose (F.fetch_faults shelf.old) (F.fetch_faults shelf.new) → ⊥) → (Rose (F.store_faults shelf.old) (F.store_faults shelf.new) → ⊥) →
        (result ≡ Status.Done) ⊎ ((result ≡ Status.Told) ⊎ (result ≡ Status.Memory)) }
    ensures steps { steps.old ≤ steps.new }
{
    match read_words(alloc, words) {
        Ok(Some(asked)) => match read_all(alloc, script, LONGEST_FILE) {
            Ok(text) => run_script(alloc, asked, &text, report, shelf),
            Err(ReadAllFault::TooLong) => Status::ScriptTooLong,
            Err(ReadAllFault::Failed) => Status::ReadFault,
            Err(ReadAllFault::Memory) => Status::Memory,
        },
        Ok(None) => write_usage(report),
        Err(_) => Status::Memory,
    }
}

// Writes the line that says which words there may be.
fn write_usage<K: Sink>(report: &mut K) -> Status
    ensures meaning { EndsByItself result → (result ≡ Status.Usage)
        × (K.written report.new ≡ with_back (K.written report.old) (text_of (reply usage_text ∷ []))) }
    ensures beginning { (before : List ℕ) → K.written report.old ≡ Some before →
        (reported : List ℕ) × IsPrefixOf reported (text_of (reply usage_text ∷ [])) × (K.written report.new ≡ Some (before ++ reported)) }
    ensures cases { (result ≡ Status.Usage) ⊎ ((result ≡ Status.WriteFault) ⊎ (result ≡ Status.Memory)) }
    ensures write_fault { result ≡ Status.WriteFault → Rose (K.faults report.old) (K.faults report.new) }
    ensures calm { result ≢ Status.WriteFault → K.faults report.new ≡ K.faults report.old }
{
    match write_text(report, USAGE_LINE) {
        Ok(()) => Status::Usage,
        Err(halt) => Status::from(halt),
    }
}

// Runs the lines of a script.
fn run_script<K: Sink, F: Shelf>(
    alloc: Global,
    asked: RunWords,
    text: &[u8],
    report: &mut K,
    shelf: &mut F,
) -> Status
    ensures meaning { (before : List ℕ) (files : Files) →
        K.written report.old ≡ Some before → F.files shelf.old ≡ Some files →
        EndsByItself result → (session : WholeSession Status) × IsScriptSession asked.budget text.now files session × (result ≡ session.status)
        × (K.written report.new ≡ Some (before ++ report_of asked.quiet (lines_in session.acts)))
        × (F.files shelf.new ≡ Some (with_stores files (stores_in session.acts)))
        × (F.fetch_plan shelf.new ≡ after_fetches (F.fetch_plan shelf.old) (fetched_in session.acts))
        × AreCounted F.Shelf shelf.old shelf.new (answers_in session.acts) }
    ensures beginning { (before : List ℕ) (files : Files) →
        K.written report.old ≡ Some before → F.files shelf.old ≡ Some files →
        (reported : List ℕ) × (after : Files)
        × Progress RunLineMeans asked.quiet ((result ≡ Status.WriteFault) × Rose (F.store_faults shelf.old) (F.store_faults shelf.new))
        (first_run asked.budget) files (lines_of text.now) reported after
        × (K.written report.new ≡ Some (before ++ reported)) × (F.files shelf.new ≡ Some after) }
    ensures begins_each { (before : List ℕ) (files : Files) →
        K.written report.old ≡ Some before → F.files shelf.old ≡ Some files →
        (reported : List ℕ) × (after : Files) × (K.written report.new ≡ Some (before ++ reported)) × (F.files shelf.new ≡ Some after)
        × ((session : WholeSession Status) → IsScriptSession asked.budget text.now files session →
        IsCutShort asked.quiet ((result ≡ Status.WriteFault) × Rose (F.store_faults shelf.old) (F.store_faults shelf.new)) files session.acts reported after) }
    ensures cases { IsEndOfScript result }
    ensures read_fault { result ≡ Status.ReadFault → Rose (F.fetch_faults shelf.old) (F.fetch_faults shelf.new) }
    ensures write_fault { result ≡ Status.WriteFault →
        Rose (K.faults report.old) (K.faults report.new) ⊎ Rose (F.store_faults shelf.old) (F.store_faults shelf.new) }
    ensures calm_report { result ≢ Status.WriteFault → K.faults report.new ≡ K.faults report.old }
    ensures calm_fetch { result ≢ Status.ReadFault → F.fetch_faults shelf.new ≡ F.fetch_faults shelf.old }
    ensures calm_store { result ≢ Status.WriteFault → F.store_faults shelf.new ≡ F.store_faults shelf.old }
{
    lines_have_one_effect();
    let mut session = RunSession {
        session: new_session(),
        budget: asked.budget,
    };
    match run_lines(alloc, &mut session, asked.quiet, text, report, shelf) {
        Ok(true) => Status::Told,
        Ok(false) => Status::Done,
        Err(halt) => Status::from(halt),
    }
}
