//! `drc c f`: tells where c violates the design rules of f.drc.
ghost use Rattle.std.specs.Prelude.{◌≡◌, ◌<◌, ◌≤◌, ◌∷◌, [], All, Some, length, IfOk, IsOkUnless};
ghost use Rattle.outside_io.specs.Files.{Files};
ghost use Rattle.session_model.specs.Causes.{HasCauses, kinds_of};
ghost use Rattle.session_model.specs.Effects.{Answers, AnswersFetching};
ghost use Rattle.session_model.specs.Fetches.{text_in};
ghost use Rattle.drc_rules.specs.LawfulRules.{IsLawfulRule};
ghost use Rattle.drc_rules.specs.RuleFiles.{rules_of};
ghost use Rattle.drc_rules.specs.declared.limits.TheConstants.{MOST_RULES};
ghost use Rattle.cell_library.specs.Libraries.{seen};
ghost use Rattle.line_answers.specs.LineEffects.{IsOfInside};
ghost use Rattle.drc_commands.specs.CommandDrc.{ChecksFetched, ChecksText, DrcMeans, TellsViolations};

use crate::refusals::refuse_drc;
use crate::violation_lines::check_lines;
use cell_library::{Library, Opened, Reader};
use drc_check::check_drc;
use drc_rules::{DrcAt, DrcFault, Rules, read_drc};
use ext_model::CellKey;
use line_answers::{file_name, refuse_file, told};
use names_lists::Name;
use outside_io::Shelf;
use session_model::{Answer, Fetched, Halt, ReportLine, fetch_text};
use std::alloc::{AllocError, Global};
use std::marker::Brand;
use std::sync::ledger::{Blank, Ledger};

/// `drc c f`, the script's line of this number, for the cell of this name. It leaves the library as it is.
pub fn drc<F: Shelf>(
    alloc: Global,
    library: &Library,
    shelf: &mut F,
    number: usize,
    cell: CellKey,
    name: &Name,
    file: &Name,
) -> Result<Answer, Halt>
    requires { cell.0 < length library.now.contents }
    ensures effect { (files : Files) → F.files shelf.old ≡ Some files → IfOk result (λ answer.
        Answers (DrcMeans number files (seen library.now) cell.0 name.now file.now) tt answer (F.fetch_plan shelf.old) (F.fetch_plan shelf.new)) }
    ensures files { F.files shelf.new ≡ F.files shelf.old }
    ensures causes { HasCauses F.Shelf shelf.old shelf.new kinds_of result }
{
    let file = file_name(alloc, file, b".drc")?;
    check_fetched(alloc, library, shelf, number, cell, name, file)
}

// Checks the cell by the rules of the file, where it is there.
fn check_fetched<F: Shelf>(
    alloc: Global,
    library: &Library,
    shelf: &mut F,
    number: usize,
    cell: CellKey,
    name: &Name,
    file: Name,
) -> Result<Answer, Halt>
    requires { cell.0 < length library.now.contents }
    ensures effect { (files : Files) → F.files shelf.old ≡ Some files → IfOk result (λ answer.
        Answers (ChecksFetched number (seen library.now) cell.0 name.now file (text_in files file)) tt answer
        (F.fetch_plan shelf.old) (F.fetch_plan shelf.new)) }
    ensures files { F.files shelf.new ≡ F.files shelf.old }
    ensures causes { HasCauses F.Shelf shelf.old shelf.new kinds_of result }
{
    match fetch_text(alloc, shelf, &file)? {
        Fetched::Text(text) => check_text(alloc, library, number, cell, name, &file, &text),
        Fetched::Refused(fault) => refuse_file(alloc, number, &file, fault),
    }
}

// Checks the cell by the rules of a text, where it has no fault.
fn check_text(
    alloc: Global,
    library: &Library,
    number: usize,
    cell: CellKey,
    name: &Name,
    file: &Name,
    text: &[u8],
) -> Result<Answer, Halt>
    requires { cell.0 < length library.now.contents }
    ensures effect { IfOk result (AnswersFetching (file.now ∷ [])
        (ChecksText number (seen library.now) cell.0 name.now file.now (rules_of library.now.tech text.now)) tt) }
    ensures inside { IfOk result (λ answer. IsOfInside answer.lines.items) }
    ensures memory { IsOkUnless result Halt.Memory }
{
    match read_drc(alloc, library.tech(), text) {
        Ok(rules) => {
            let lines = check_cell(alloc, library, cell, name, &rules)?;
            Ok(told(alloc, lines))
        }
        Err(
            DrcAt {
                line: _,
                fault: DrcFault::Memory,
            },
        ) => Err(Halt::Memory),
        Err(at) => refuse_drc(alloc, number, file, &at),
    }
}

// The lines that tell where the cell violates the rules.
fn check_cell(
    alloc: Global,
    library: &Library,
    cell: CellKey,
    name: &Name,
    rules: &Rules,
) -> Result<Vec<ReportLine>, AllocError>
    requires cell { cell.0 < length library.now.contents }
    requires few { length rules.now.rules ≤ MOST_RULES }
    requires lawful { All (IsLawfulRule library.now.tech) rules.now.rules }
    ensures tells { IfOk result (λ lines. TellsViolations (seen library.now) cell.0 name.now rules.now.rules lines.items) }
    ensures inside { IfOk result (λ lines. IsOfInside lines.items) }
{
    let cells = library.reader();
    check_counted::<Brand>(Blank::new(1), library, alloc, &cells, cell, name, rules)
}

// The same, with steps in a count that the reader's owner makes.
fn check_counted<L: Ledger>(
    blank: Blank,
    owner: &Library,
    alloc: Global,
    library: &Reader<'_>,
    cell: CellKey,
    name: &Name,
    rules: &Rules,
) -> Result<Vec<ReportLine>, AllocError>
    requires ledger { blank.name ≡ L.name }
    requires parts { blank.parts ≡ L.parts }
    requires some_part { 0 < blank.parts }
    requires cell { cell.0 < length library.now.contents }
    requires few { length rules.now.rules ≤ MOST_RULES }
    requires lawful { All (IsLawfulRule library.now.tech) rules.now.rules }
    ensures tells { IfOk result (λ lines. TellsViolations (seen library.now) cell.0 name.now rules.now.rules lines.items) }
    ensures inside { IfOk result (λ lines. IsOfInside lines.items) }
{
    let mut steps: Opened<L> = owner.count(blank);
    let found = check_drc(alloc, library, cell, rules, &mut steps)?;
    check_lines(
        alloc,
        library.tech(),
        name,
        rules.rules.items().len(),
        found.as_slice(),
    )
}
