//! The replies to commands that change the library.
ghost use Rattle.std.specs.Prelude.{◌≡◌, ◌∷◌, [], codes, IfOk};
ghost use Rattle.line_answers.specs.LineEffects.{reply};
ghost use Rattle.library_answers.specs.Replies.{loaded_text, tech_text};

use line_answers::{append_count, append_with_name, one_line, reply};
use names_lists::Name;
use session_model::ReportLine;
use std::alloc::{AllocError, Global};
use tech_model::Tech;

/// The reply to an edit.
pub fn ok(alloc: Global) -> Result<Vec<ReportLine>, AllocError>
    ensures { IfOk result (λ lines. lines.items ≡ reply (codes "ok") ∷ []) }
{
    let text = Vec::from_slice(alloc, b"ok")?;
    one_line(alloc, reply(text))
}

/// The reply to a `load` with which so many cells came.
pub fn loaded(alloc: Global, cell: &Name, count: usize) -> Result<Vec<ReportLine>, AllocError>
    ensures { IfOk result (λ lines. lines.items ≡ reply (loaded_text cell.now count) ∷ []) }
{
    let mut text = Vec::new(alloc);
    append_with_name(&mut text, b"load ", cell)?;
    append_count(&mut text, b": ", count, b" cells")?;
    one_line(alloc, reply(text))
}

/// The reply to a `tech` that read a technology.
pub fn tech_reply(alloc: Global, tech: &Tech) -> Result<Vec<ReportLine>, AllocError>
    ensures { IfOk result (λ lines. lines.items ≡ reply (tech_text tech.now) ∷ []) }
{
    let text = tech_counts(alloc, tech)?;
    one_line(alloc, reply(text))
}

// The text of the reply to a `tech`.
fn tech_counts(alloc: Global, tech: &Tech) -> Result<Vec<u8>, AllocError>
    ensures { IfOk result (λ text. text.items ≡ tech_text tech.now) }
{
    let raw = tech.raw();
    let mut text = Vec::new(alloc);
    append_with_name(&mut text, b"tech ", &raw.name)?;
    append_count(&mut text, b": ", raw.types.items().len(), b" types")?;
    append_count(&mut text, b" ", raw.classes.items().len(), b" classes")?;
    append_count(&mut text, b" ", raw.fets.items().len(), b" fets")?;
    Ok(text)
}
