//! Reading a file of cases.

use crate::bytes::unescaped;
use crate::case_lines::{CaseFault, CaseLine, Heading, Property, TextPart, case_line};
use crate::cases::{Case, File, Suite, file_of};
use outside_io::LONGEST_FILE;
use std::alloc::{AllocError, Global};
use std::mem;

/// A file of cases is not of its form: the number of the line, from 1, and what is wrong there.
#[derive(Clone, Copy)]
pub struct FaultAt {
    pub line: usize,
    pub fault: CaseFault,
}

/// What the lines of a text are for.
#[derive(Drop)]
enum Block {
    /// No line of a text can stand here.
    Outside,
    Script,
    Report,
    File(Vec<u8>),
    Stored(Vec<u8>),
    Edit(Edit),
}

/// A shared file, line by line, with some lines changed.
#[derive(Drop)]
struct Edit {
    name: Vec<u8>,
    /// The lines with their line feeds.
    lines: Vec<Vec<u8>>,
    /// The place of the line in whose stead the text stands that is read; none before the first such line.
    place: Option<usize>,
}

/// What was read so far.
#[derive(Drop)]
struct Reading<'a> {
    alloc: Global,
    folder: &'a [File],
    suite: Suite,
    /// The case that is read; none before the first.
    case: Option<Case>,
    block: Block,
    /// The text of the block.
    text: Vec<u8>,
}

/// The cases of a text, over files that lie on the shelf of each.
pub fn read_suite(alloc: Global, folder: &[File], text: &[u8]) -> Result<Suite, FaultAt> {
    let mut reading = Reading::new(alloc, folder);
    let mut number = 0usize;
    for line in text.split(|byte| *byte == b'\n') {
        number = number.saturating_add(1);
        if let Err(fault) = reading.read(line) {
            return Err(FaultAt {
                line: number,
                fault,
            });
        }
    }
    reading.finished().map_err(|fault| FaultAt {
        line: number,
        fault,
    })
}

/// The lines of a text, with their line feeds.
fn lines_of(alloc: Global, text: &[u8]) -> Result<Vec<Vec<u8>>, AllocError> {
    let mut lines = Vec::new(alloc);
    let mut line = Vec::new(alloc);
    for byte in text {
        line.push(*byte)?;
        if *byte == b'\n' {
            lines.push(mem::replace(&mut line, Vec::new(alloc)))?;
        }
    }
    lines.push(line)?;
    Ok(lines)
}

/// Adds so many copies of a text.
fn add_times(text: &mut Vec<u8>, times: u64, copy: &[u8]) -> Result<(), AllocError> {
    for _ in 0..times {
        text.extend_from_slice(copy)?;
    }
    Ok(())
}

/// Fills a text up with blanks to so many bytes: at most one more than a file may have.
fn pad(text: &mut Vec<u8>, length: u64) -> Result<(), AllocError> {
    let most = LONGEST_FILE + 1;
    let length = usize::try_from(length).unwrap_or(most).min(most);
    if text.len() < length {
        text.resize(length, b' ')?;
    }
    Ok(())
}

impl<'a> Reading<'a> {
    fn new(alloc: Global, folder: &'a [File]) -> Reading<'a> {
        Reading {
            alloc,
            folder,
            suite: Suite {
                shared: Vec::new(alloc),
                cases: Vec::new(alloc),
            },
            case: None,
            block: Block::Outside,
            text: Vec::new(alloc),
        }
    }

    /// Reads a line.
    fn read(&mut self, line: &[u8]) -> Result<(), CaseFault> {
        match case_line(line)? {
            CaseLine::Nothing => Ok(()),
            CaseLine::Text(part) => self.add_part(part),
            CaseLine::Line(number) => self.begin_line(number),
            CaseLine::Heading(heading) => {
                self.end_block()?;
                self.begin(heading)
            }
            CaseLine::Property(property) => {
                self.end_block()?;
                let alloc = self.alloc;
                add_property(alloc, self.open_case()?, property)
            }
        }
    }

    /// Adds a part to the text of the block.
    fn add_part(&mut self, part: TextPart<'_>) -> Result<(), CaseFault> {
        match part {
            TextPart::Line(text) => {
                let open = self.open_text()?;
                open.extend_from_slice(text)?;
                Ok(open.push(b'\n')?)
            }
            TextPart::Bytes(text) => self.add_bytes(1, text),
            TextPart::Times(times, text) => self.add_bytes(times, text),
            TextPart::Pad(length) => Ok(pad(self.open_text()?, length)?),
        }
    }

    /// The text of the block, if lines of a text can stand in it.
    fn open_text(&mut self) -> Result<&mut Vec<u8>, CaseFault> {
        match &self.block {
            Block::Outside | Block::Edit(Edit { place: None, .. }) => Err(CaseFault::NoText),
            _ => Ok(&mut self.text),
        }
    }

    /// Adds the bytes that a text stands for, so many times.
    fn add_bytes(&mut self, times: u64, text: &[u8]) -> Result<(), CaseFault> {
        match unescaped(self.alloc, text)? {
            Some(bytes) => Ok(add_times(self.open_text()?, times, &bytes)?),
            None => Err(CaseFault::BadEscape),
        }
    }

    /// What follows stands in the stead of a line of the shared file.
    fn begin_line(&mut self, number: u64) -> Result<(), CaseFault> {
        self.end_line()?;
        let Block::Edit(edit) = &mut self.block else {
            return Err(CaseFault::NoText);
        };
        let Some(place) = number
            .checked_sub(1)
            .and_then(|place| usize::try_from(place).ok())
        else {
            return Err(CaseFault::NoSuchLine);
        };
        if place >= edit.lines.len() {
            return Err(CaseFault::NoSuchLine);
        }
        edit.place = Some(place);
        Ok(())
    }

    /// Puts the text of an edit in the stead of its line.
    fn end_line(&mut self) -> Result<(), CaseFault> {
        let Block::Edit(edit) = &mut self.block else {
            return Ok(());
        };
        let text = mem::replace(&mut self.text, Vec::new(self.alloc));
        if let Some(line) = edit.place.and_then(|place| edit.lines.get_mut(place)) {
            *line = text;
        }
        Ok(())
    }

    /// Puts the text of a block where it belongs.
    fn end_block(&mut self) -> Result<(), CaseFault> {
        self.end_line()?;
        let text = mem::replace(&mut self.text, Vec::new(self.alloc));
        match mem::replace(&mut self.block, Block::Outside) {
            Block::Outside => {}
            Block::Script => self.open_case()?.script = text,
            Block::Report => self.open_case()?.report = text,
            Block::File(name) => self.files().push(File { name, bytes: text })?,
            Block::Stored(name) => self.open_case()?.stored.push(File { name, bytes: text })?,
            Block::Edit(edit) => {
                let mut bytes = Vec::new(self.alloc);
                for line in &edit.lines {
                    bytes.extend_from_slice(line)?;
                }
                let name = edit.name;
                self.files().push(File { name, bytes })?;
            }
        }
        Ok(())
    }

    /// The files of the case that is read, or the shared ones before the first case.
    fn files(&mut self) -> &mut Vec<File> {
        match &mut self.case {
            Some(case) => &mut case.files,
            None => &mut self.suite.shared,
        }
    }

    /// The case that is read.
    fn open_case(&mut self) -> Result<&mut Case, CaseFault> {
        match &mut self.case {
            Some(case) => Ok(case),
            None => Err(CaseFault::NoCase),
        }
    }

    /// Begins what the lines that follow are for.
    fn begin(&mut self, heading: Heading<'_>) -> Result<(), CaseFault> {
        self.block = match heading {
            Heading::Case(name) => {
                self.end_case()?;
                self.case = Some(Case::new(self.alloc, name)?);
                Block::Outside
            }
            Heading::Script => Block::Script,
            Heading::Report => Block::Report,
            Heading::File(name) => Block::File(Vec::from_slice(self.alloc, name)?),
            Heading::Stored(name) => Block::Stored(Vec::from_slice(self.alloc, name)?),
            Heading::Edit(name) => Block::Edit(self.edit_of(name)?),
        };
        Ok(())
    }

    /// The shared file of that name, line by line.
    fn edit_of(&self, name: &[u8]) -> Result<Edit, CaseFault> {
        let shared = file_of(&self.suite.shared, name).or_else(|| file_of(self.folder, name));
        match shared {
            Some(file) => Ok(Edit {
                name: Vec::from_slice(self.alloc, name)?,
                lines: lines_of(self.alloc, &file.bytes)?,
                place: None,
            }),
            None => Err(CaseFault::NoSharedFile),
        }
    }

    /// Puts the case that is read, if there is one, to those that were read.
    fn end_case(&mut self) -> Result<(), CaseFault> {
        if let Some(case) = mem::replace(&mut self.case, None) {
            self.suite.cases.push(case)?;
        }
        Ok(())
    }

    /// What was read, at the end of the text.
    fn finished(mut self) -> Result<Suite, CaseFault> {
        self.end_block()?;
        self.end_case()?;
        Ok(self.suite)
    }
}

/// Gives a case a property.
fn add_property(alloc: Global, case: &mut Case, property: Property<'_>) -> Result<(), CaseFault> {
    match property {
        Property::Word(word) => case.words.push(String::from_utf8_lossy(alloc, word)?)?,
        Property::Piece(most) => case.piece = usize::try_from(most).unwrap_or(usize::MAX),
        Property::Status(status) => case.status = status,
        Property::Fail(failing) => case.failing.push(failing)?,
        Property::Sweep(call) => case.sweeps.push(call)?,
        Property::Lost(name) => case.lost.push(Vec::from_slice(alloc, name)?)?,
        Property::Calls(count) => case.counts.push(count)?,
    }
    Ok(())
}
