//! Reads a text line by line.
ghost use Rattle.std.specs.Prelude.{◌≡◌, ◌≢◌, Ok, Err, IfOk, IfErr, OnOk, false};
ghost use Rattle.text_scan.specs.Lines.{lines_of};
ghost use Rattle.tech_model.specs.declared.faults.TechFault.TheVariants.{Memory as OutOfMemory};
ghost use Rattle.tech_file.specs.Places.{content_of, says_nothing, name_alone};
ghost use Rattle.tech_file.specs.Reading.{read_between, read_within, draft_after, text_reading, told, IsOutline, EndsWell};

use crate::outline::{Heading, Outline, is_second, is_too_early};
use crate::places::{Place, after, is_end, name_alone, says_nothing};
use crate::sections::section_named;
use names_lists::Name;
use std::alloc::Global;
use tech_draft::Draft;
use tech_model::{Section, TechFault};
use text_form::{At, LineReader, read_lines};

/// Where in a technology's text its first fault stands, and which it is.
#[derive(Debug, Drop)]
pub struct TechAt {
    /// The number of the line, from 1.
    pub line: u32,
    pub fault: TechFault,
}

/// How the reading of a text stands: where the next line stands, and the technology as far as it was read.
#[derive(Drop)]
pub struct Reading {
    pub place: Place,
    pub draft: Draft,
}

impl LineReader for Reading {
    ghost use Rattle.std.specs.Prelude.{Ok};
    ghost use Rattle.tech_model.specs.declared.faults.TechFault.TheVariants.{Memory};
    ghost use Rattle.tech_file.specs.Reading.{line_step};

    type Context = Outline;

    type Fault = TechFault;

    ghost memory = { Memory };

    ghost step = { λ outline. line_step outline.headings.items outline.last outline.ends_open };

    ghost finish = { λ _. Ok };

    fn memory() -> TechFault {
        TechFault::Memory
    }

    fn read_line(
        &mut self,
        outline: &Outline,
        number: usize,
        line: &[u8],
    ) -> Result<(), TechFault> {
        if outline.ends_open && number == outline.last {
            return Err(TechFault::BadForm);
        }
        match read_line(
            outline.alloc,
            &outline.headings,
            number,
            self.place,
            &mut self.draft,
            line,
        ) {
            Ok(()) => {
                self.place = after(self.place, line);
                Ok(())
            }
            Err(fault) => Err(fault),
        }
    }

    fn end(&mut self, _outline: &Outline) -> Result<(), TechFault> {
        Ok(())
    }
}

/// The draft of a text's lines.
pub fn read_draft(alloc: Global, text: &[u8], outline: &Outline) -> Result<Draft, TechAt>
    requires { IsOutline outline.now (lines_of text.now) }
    ensures read { IfOk result (λ draft. EndsWell (lines_of text.now) draft) }
    ensures refused { IfErr result (λ at. at.fault ≢ OutOfMemory → told (text_reading (lines_of text.now)) ≡ Err at) }
{
    let mut reading = Reading {
        place: Place::Between,
        draft: Draft::new(alloc),
    };
    match read_lines(&mut reading, outline, text) {
        Ok(_) => Ok(reading.draft),
        Err(At { line, fault }) => Err(TechAt { line, fault }),
    }
}

// Reads a line at a place.
fn read_line(
    alloc: Global,
    headings: &[Heading],
    number: usize,
    place: Place,
    draft: &mut Draft,
    line: &[u8],
) -> Result<(), TechFault>
    ensures read { OnOk result (draft_after headings.now number place draft.old (content_of line.now) ≡ Ok draft.new) }
    ensures refused { IfErr result (λ fault. fault ≢ OutOfMemory →
        draft_after headings.now number place draft.old (content_of line.now) ≡ Err fault) }
{
    if says_nothing(line) {
        return Ok(());
    }
    match place {
        Place::Between => read_between(alloc, headings, number, line),
        Place::Skipped => Ok(()),
        Place::Within(section) => read_within(section, draft, line),
    }
}

// Reads a line between sections: the name of a section alone.
fn read_between(
    alloc: Global,
    headings: &[Heading],
    number: usize,
    line: &[u8],
) -> Result<(), TechFault>
    ensures read { OnOk result (read_between headings.now number (name_alone (content_of line.now)) ≡ Ok tt) }
    ensures refused { IfErr result (λ fault. fault ≢ OutOfMemory →
        read_between headings.now number (name_alone (content_of line.now)) ≡ Err fault) }
{
    let Some(word) = name_alone(line) else {
        return Err(TechFault::BadForm);
    };
    let Some(section) = section_named(word) else {
        return Ok(());
    };
    if is_too_early(headings, number, section) {
        return Err(TechFault::BadForm);
    }
    if is_second(headings, number, section) {
        return Err(TechFault::Twice(Name::of(alloc, word)?));
    }
    Ok(())
}

// Reads a line in a section.
fn read_within(section: Section, draft: &mut Draft, line: &[u8]) -> Result<(), TechFault>
    requires { says_nothing (content_of line.now) ≡ false }
    ensures read { OnOk result (read_within section draft.old (content_of line.now) ≡ Ok draft.new) }
    ensures refused { IfErr result (λ fault. fault ≢ OutOfMemory → read_within section draft.old (content_of line.now) ≡ Err fault) }
{
    if !is_end(line) {
        return draft.read_line(section, line);
    }
    match section {
        Section::Tech if !draft.name_is_read() => Err(TechFault::BadForm),
        _ => Ok(()),
    }
}
