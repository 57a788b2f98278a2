//! What of a circuit file has to be known before its first line is read.
ghost use Rattle.std.specs.Prelude.{◌≡◌, ◌≢◌, ◌≤◌, ◌<◌, ◌^◌, [], fold, length, Ok, OnOk, IfOk, IfErr};
ghost use Rattle.text_scan.specs.Lines.{lines_of};
ghost use Rattle.ext_reading.specs.declared.faults.ExtReadFault.TheVariants.{Memory as OutOfMemory};
ghost use Rattle.ext_reading.specs.LineForms.{HasNameForm, NamesUse, use_line};
ghost use Rattle.ext_model.specs.LawfulArrays.{HasIdForm};
ghost use Rattle.element_index.specs.GivenNames.{names_in};
ghost use Rattle.ext_reading.specs.Drafts.{elements_known};
ghost use Rattle.ext_reading.specs.ExtTexts.{with_elements, with_use_name, with_use_said, with_line, outline_of};

use crate::faults::ExtReadFault;
use crate::line_forms::use_line;
use crate::lines::{ExtLine, UseName, Version};
use crate::ranges::grid_in;
use element_index::{ElementIndex, KnownElements, UseElements};
use std::alloc::{AllocError, Global};
use text_scan::{Words, lines, words};

/// The uses whose elements paths may begin with, those without a grid and all of them, and the number of the last line.
pub struct Outline {
    pub singles: KnownElements,
    pub all: KnownElements,
    pub last: usize,
}

impl Drop for Outline {
    fn drop(self) {
        let Outline {
            singles: _,
            all: _,
            last: _,
        } = self;
    }
}

impl Outline {
    /// The elements of a file of the version.
    pub fn elements(&self, version: Option<Version>) -> &KnownElements
        ensures { elements_known version self.now ≡ names_in result.now }
    {
        match version {
            Some(Version::One) => &self.singles,
            _ => &self.all,
        }
    }
}

// Adds a use, unless it gives an element a name that one of them gives.
fn add_elements(uses: &mut ElementIndex, used: UseElements) -> Result<(), AllocError>
    requires { HasIdForm used.grid used.id }
    ensures { OnOk result (uses.new ≡ with_elements uses.old used) }
{
    if uses.gives_again(&used) {
        return Ok(());
    }
    uses.add(used)
}

// Adds the use of this name, where its grid has its range and it may be an array.
fn add_named(arrays: bool, uses: &mut ElementIndex, name: UseName) -> Result<(), AllocError>
    requires { HasNameForm name.grid name.id }
    ensures { OnOk result (uses.new ≡ with_use_name arrays uses.old name) }
{
    match grid_in(name.grid) {
        Ok(grid) if arrays || grid.is_none() => add_elements(
            uses,
            UseElements { id: name.id, grid },
        ),
        _ => Ok(()),
    }
}

// Adds the use that is said, if one is.
fn add_said(arrays: bool, uses: &mut ElementIndex, said: ExtLine) -> Result<(), AllocError>
    requires { NamesUse said }
    ensures { OnOk result (uses.new ≡ with_use_said arrays uses.old (Ok said)) }
{
    match said {
        ExtLine::Use(used) => add_named(arrays, uses, used.name),
        _ => Ok(()),
    }
}

// Adds the use whose words these are, behind its first word.
fn add_use(
    alloc: Global,
    arrays: bool,
    uses: &mut ElementIndex,
    words: Words<'_>,
) -> Result<(), AllocError>
    ensures { OnOk result (uses.new ≡ with_use_said arrays uses.old (use_line words.entry)) }
{
    match use_line(alloc, words) {
        Ok(said) => add_said(arrays, uses, said),
        Err(ExtReadFault::Memory) => Err(AllocError),
        Err(_) => Ok(()),
    }
}

// Adds the use that a line says, if it says one.
fn add_line(
    alloc: Global,
    arrays: bool,
    uses: &mut ElementIndex,
    line: &[u8],
) -> Result<(), AllocError>
    ensures { OnOk result (uses.new ≡ with_line arrays uses.old line.now) }
{
    let mut rest = words(line);
    match rest.next() {
        Some(key) if key == b"use".as_slice() => add_use(alloc, arrays, uses, rest),
        _ => Ok(()),
    }
}

// The uses of all lines.
fn known_elements(alloc: Global, arrays: bool, text: &[u8]) -> Result<KnownElements, AllocError>
    ensures { IfOk result (λ known. known ≡ fold (with_line arrays) [] (lines_of text.now)) }
{
    let mut uses = ElementIndex::new(alloc);
    for line in lines(text) {
        add_line(alloc, arrays, &mut uses, line)?;
    }
    KnownElements::of(alloc, uses)
}

/// The outline of a text. Want of memory alone refuses.
pub fn outline_of(alloc: Global, text: &[u8]) -> Result<Outline, AllocError>
    ensures { IfOk result (λ outline. outline ≡ outline_of (lines_of text.now)) }
{
    let count = lines(text).count();
    Ok(Outline {
        singles: known_elements(alloc, false, text)?,
        all: known_elements(alloc, true, text)?,
        last: count.max(1),
    })
}
