//! Reads a text whole.
ghost use Rattle.std.specs.Prelude.{◌≡◌, ◌≢◌, [], Ok, Err, IfOk, IfErr};
ghost use Rattle.text_scan.specs.Lines.{lines_of};
ghost use Rattle.tech_model.specs.declared.faults.TechFault.TheVariants.{Memory as OutOfMemory};
ghost use Rattle.tech_model.specs.WellFormed.{IsWellFormed};
ghost use Rattle.tech_draft.specs.Finished.{finished};
ghost use Rattle.tech_draft.specs.Sound.{IsSound};
ghost use Rattle.tech_file.specs.Reading.{fault_at, checked, technology_of};

use crate::outline::{Outline, missing, outline_of};
use crate::reading::{TechAt, read_draft};
use std::alloc::Global;
use tech_draft::Draft;
use tech_model::{RawTech, Tech, TechFault};

/// The technology of a text, or the first faulty line and its first fault.
///
/// It goes over the text twice, and looks names up in an index. Beside the faults of the text, want of
/// memory refuses it; a text of 2^32 lines or more may be refused so.
#[tactic(auto, unfolding(crate::specs::Reading::technology_of))]
pub fn read_tech(alloc: Global, bytes: &[u8]) -> Result<Tech, TechAt>
    ensures accepted { IfOk result (λ tech. technology_of bytes.now ≡ Ok tech) }
    ensures refused { IfErr result (λ at. at.fault ≢ OutOfMemory → technology_of bytes.now ≡ Err at) }
{
    let Ok(outline) = outline_of(alloc, bytes) else {
        return Err(at(0, TechFault::Memory));
    };
    let draft = read_draft(alloc, bytes, &outline)?;
    check_whole(alloc, draft, &outline)
}

// The fault of a line. A number past 32 bits cannot be told, and counts as want of memory.
fn at(line: usize, fault: TechFault) -> TechAt
    ensures told { result.fault ≢ OutOfMemory → result ≡ fault_at line fault }
    ensures fault { result.fault ≢ OutOfMemory → fault ≢ OutOfMemory }
{
    match u32::try_from(line) {
        Ok(line) => TechAt { line, fault },
        Err(_) => TechAt {
            line: 0,
            fault: TechFault::Memory,
        },
    }
}

// Checks what only the whole text shows.
fn check_whole(alloc: Global, draft: Draft, outline: &Outline) -> Result<Tech, TechAt>
    requires { IsSound draft }
    ensures accepted { IfOk result (λ tech. checked outline.now.headings.items outline.now.last (finished draft) ≡ Ok tech) }
    ensures refused { IfErr result (λ at. at.fault ≢ OutOfMemory →
        checked outline.now.headings.items outline.now.last (finished draft) ≡ Err at) }
{
    match draft.into_raw() {
        Ok(raw) => check_raw(alloc, raw, outline),
        Err(fault) => Err(at(outline.last, fault)),
    }
}

// Checks that no section is missing, and the rules.
fn check_raw(alloc: Global, raw: RawTech, outline: &Outline) -> Result<Tech, TechAt>
    requires { raw.name ≢ [] → IsWellFormed raw }
    ensures accepted { IfOk result (λ tech. checked outline.now.headings.items outline.now.last raw ≡ Ok tech) }
    ensures refused { IfErr result (λ at. at.fault ≢ OutOfMemory →
        checked outline.now.headings.items outline.now.last raw ≡ Err at) }
{
    if let Some(section) = missing(&outline.headings, raw.name.bytes()) {
        return Err(at(outline.last, TechFault::NoSection(section)));
    }
    Tech::check(alloc, raw).map_err(|fault| at(outline.last, fault))
}
