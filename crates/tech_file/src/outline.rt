//! The outline of a text: where its sections begin, and whether the last one ends.
ghost use Rattle.std.specs.Prelude.{◌≡◌, ◌≢◌, [], IfOk, OnOk, IsNone};
ghost use Rattle.text_scan.specs.Lines.{lines_of};
ghost use Rattle.tech_file.specs.Places.{content_of};
ghost use Rattle.text_form.specs.Folds.{last_number};
ghost use Rattle.tech_file.specs.Outlines.{line_of, with_heading, section_at, headings_of, is_in_section, ends_open, is_too_early, is_second};
ghost use Rattle.tech_file.specs.Outlines.{missing_section, missing};

use crate::places::{Place, after, name_alone};
use crate::sections::{REQUIRED, rank, section_named};
use std::alloc::{AllocError, Global};
use tech_model::Section;
use text_scan::lines;

/// Where a section begins: the number of the line, from 1.
#[derive(Clone, Copy, Debug, PartialEq, Eq)]
pub struct Heading {
    pub line: usize,
    pub section: Section,
}

/// The outline of a text.
#[derive(Drop)]
pub struct Outline {
    pub alloc: Global,
    /// The first heading of each section.
    pub headings: Vec<Heading>,
    /// The number of the last line, and 1 where there is none.
    pub last: usize,
    /// Whether the last section has no `end`.
    pub ends_open: bool,
}

/// The outline of a text.
pub fn outline_of(alloc: Global, text: &[u8]) -> Result<Outline, AllocError>
    ensures headings { IfOk result (λ outline. outline.headings.items ≡ headings_of (lines_of text.now)) }
    ensures last { IfOk result (λ outline. outline.last ≡ last_number (lines_of text.now)) }
    ensures open { IfOk result (λ outline. outline.ends_open ≡ ends_open (lines_of text.now)) }
{
    let mut headings = Vec::new(alloc);
    let mut place = Place::Between;
    let mut number = 0;
    for line in lines(text) {
        number += 1;
        add_heading(&mut headings, number, section_at(place, line))?;
        place = after(place, line);
    }
    Ok(Outline {
        alloc,
        headings,
        last: number.max(1),
        ends_open: is_in_section(place),
    })
}

fn is_in_section(place: Place) -> bool
    ensures { result ≡ is_in_section place }
{
    match place {
        Place::Between => false,
        Place::Skipped | Place::Within(_) => true,
    }
}

// The section that begins at a line.
fn section_at(place: Place, line: &[u8]) -> Option<Section>
    ensures { result ≡ section_at place (content_of line.now) }
{
    match place {
        Place::Between => section_named(name_alone(line)?),
        Place::Skipped | Place::Within(_) => None,
    }
}

// Adds the heading of a section, unless there is one of it.
fn add_heading(
    headings: &mut Vec<Heading>,
    line: usize,
    section: Option<Section>,
) -> Result<(), AllocError>
    ensures { OnOk result (headings.new.items ≡ with_heading headings.old.items line section) }
{
    let Some(section) = section else {
        return Ok(());
    };
    if line_of(headings, section).is_none() {
        headings.push(Heading { line, section })?;
    }
    Ok(())
}

// The line where a section begins.
fn line_of(headings: &[Heading], section: Section) -> Option<usize>
    ensures { result ≡ line_of headings.now section }
{
    headings
        .iter()
        .find(|heading| rank(heading.section) == rank(section))
        .map(|heading| heading.line)
}

/// Whether a section that begins at the line stands before one that is to come first.
pub fn is_too_early(headings: &[Heading], line: usize, section: Section) -> bool
    ensures { result ≡ is_too_early headings.now line section }
{
    headings.iter().any(|heading| rank(heading.section) < rank(section) && line < heading.line)
}

/// Whether a section that begins at the line is not the first of its name.
pub fn is_second(headings: &[Heading], line: usize, section: Section) -> bool
    ensures { result ≡ is_second headings.now line section }
{
    match line_of(headings, section) {
        Some(first) => first < line,
        None => false,
    }
}

// The first section beside `tech` that must be there and is not.
fn missing_section(headings: &[Heading]) -> Option<Section>
    ensures { result ≡ missing_section headings.now }
{
    REQUIRED
        .iter()
        .copied()
        .find(|section| line_of(headings, *section).is_none())
}

/// The first section that must be there and is not: `tech` is not there where no name was read.
pub fn missing(headings: &[Heading], name: &[u8]) -> Option<Section>
    ensures first { result ≡ missing headings.now name.now }
    ensures named { IsNone result → name.now ≢ [] }
{
    if name.is_empty() {
        Some(Section::Tech)
    } else {
        missing_section(headings)
    }
}
