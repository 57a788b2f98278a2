//! `tech f`: makes the text of f.tech the technology.
ghost use Rattle.std.specs.Prelude.{◌≡◌, ◌∷◌, [], None, Some, IfOk, IsOkUnless};
ghost use Rattle.outside_io.specs.Files.{Files};
ghost use Rattle.session_model.specs.Causes.{HasCauses, kinds_of};
ghost use Rattle.session_model.specs.Effects.{Answers};
ghost use Rattle.tech_file.specs.Reading.{technology_of};
ghost use Rattle.line_answers.specs.LineEffects.{IsOfInside};
ghost use Rattle.line_answers.specs.Refusals.{refusal_line};
ghost use Rattle.workspace.specs.LibraryAnswers.Refusals.{tech_refusal};
ghost use Rattle.workspace.specs.KeptSessions.{IsSession, state_of};
ghost use Rattle.library_commands.specs.CommandTech.{TechMeans, tech_effect};

use cell_library::Library;
use line_answers::{file_name, refuse_file, told};
use look_commands::undo_log::Log;
use names_lists::Name;
use outside_io::Shelf;
use session_model::{Answer, Fetched, Halt, fetch_text};
use std::alloc::Global;
use tech_file::{TechAt, read_tech};
use tech_model::TechFault;
use workspace::library_answers::{refuse_tech, refuse_tech_again, tech_reply};
use workspace::{Cache, Edited, LayoutSession};

/// `tech f`, the script's line of this number.
pub fn tech<F: Shelf>(
    alloc: Global,
    session: &mut LayoutSession,
    shelf: &mut F,
    number: usize,
    name: &Name,
) -> Result<Answer, Halt>
    requires { IsSession session.old }
    ensures effect { (files : Files) → F.files shelf.old ≡ Some files → IfOk result (λ answer.
        Answers (TechMeans number (state_of session.old) files name.now) (state_of session.new) answer (F.fetch_plan shelf.old) (F.fetch_plan shelf.new)) }
    ensures kept { IsSession session.new }
    ensures files { F.files shelf.new ≡ F.files shelf.old }
    ensures causes { HasCauses F.Shelf shelf.old shelf.new kinds_of result }
{
    if session.edited.is_some() {
        return refuse_tech_again(alloc, number);
    }
    let file = file_name(alloc, name, b".tech")?;
    match fetch_text(alloc, shelf, &file)? {
        Fetched::Text(text) => accept_tech(alloc, session, number, file, &text),
        Fetched::Refused(fault) => refuse_file(alloc, number, &file, fault),
    }
}

// Makes a text the technology, where it has no fault.
fn accept_tech(
    alloc: Global,
    session: &mut LayoutSession,
    number: usize,
    file: Name,
    text: &[u8],
) -> Result<Answer, Halt>
    requires { session.old.edited ≡ None }
    ensures effect { IfOk result (λ answer.
        record { state = state_of session.new; lines = answer.lines.items; stores = answer.stores.items; fetched = file ∷ [] }
        ≡ tech_effect number file (technology_of text.now)) }
    ensures kept { IsSession session.new }
    ensures inside { IfOk result (λ answer. IsOfInside answer.lines.items) }
    ensures memory { IsOkUnless result Halt.Memory }
{
    match read_tech(alloc, text) {
        Ok(read) => {
            let lines = tech_reply(alloc, &read)?;
            session.edited = Some(Edited {
                library: Library::new(alloc, read),
                current: None,
                cache: Cache::new(alloc),
                log: Log::new(alloc),
            });
            Ok(told(alloc, lines))
        }
        Err(
            TechAt {
                line: _,
                fault: TechFault::Memory,
            },
        ) => Err(Halt::Memory),
        Err(at) => refused(alloc, number, &file, at),
    }
}

// The answer where the text of the file has a fault, which is let go.
fn refused(alloc: Global, number: usize, file: &Name, at: TechAt) -> Result<Answer, Halt>
    ensures lines { IfOk result (λ answer. answer.lines.items ≡ refusal_line number (tech_refusal file.now at) ∷ []) }
    ensures stores { IfOk result (λ answer. answer.stores.items ≡ []) }
    ensures memory { IsOkUnless result Halt.Memory }
{
    refuse_tech(alloc, number, file, &at)
}
