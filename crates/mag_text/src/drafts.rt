//! What a mag text has said so far.
ghost use Rattle.std.specs.Prelude.{◌≡◌, ◌≢◌, ◌++◌, ◌∷◌, [], Ok, Err, OnOk, IfOk, IfErr, codes, length};
ghost use Rattle.text_scan.specs.Words.{words_of};
ghost use Rattle.mag_text.specs.declared.faults.MagFault.TheVariants.{Memory as OutOfMemory};
ghost use Rattle.mag_text.specs.Drafts.{nothing_yet, use_named, no_use, opens, takes_in_header, takes_in_group, takes_in_use, takes_said, takes_in};
ghost use Rattle.mag_text.specs.Drawings.{AreDrawn};
ghost use Rattle.mag_text.specs.MagTexts.{HasAllOf};
ghost use Rattle.mag_text.specs.declared.files.Group.TheVariants.{Paint, Labels};
ghost use Rattle.mag_text.specs.declared.files.MagLine.TheVariants.{Tech as TechLine, Timestamp, Scale, Area, Label as OneLabel, Use, Array, Transform};
ghost use Rattle.mag_text.specs.declared.files.UsePart.TheVariants.{Named, Arrayed, Dated};
ghost use Rattle.mag_text.specs.Drafts.{begins, begins_with_word, ends_read_over, is_magic, line_taken, line_in, ended};

use crate::faults::MagFault;
use crate::files::{Drawn, Group, MagLine, Section, Seen, UsePart};
use crate::line_forms::says;
use crate::painting::paint_all;
use crate::use_tables::UseTable;
use cell_library::cell_bodies::{CellBody, CellUse};
use geo_core::{Grid, Rect};
use names_lists::{List, Name};
use std::alloc::{AllocError, Global};
use std::marker::Model;
use std::mem;
use tech_model::{Label, LayerId, Tech};
use text_scan::words;

/// A cell as far as its lines are read. Contracts see it as a record of its parts.
pub struct MagDraft {
    alloc: Global,
    section: Section,
    pending: CellUse,
    rects: Vec<Drawn>,
    table: UseTable,
    marks: Vec<Label>,
    numbers: (u32, u32),
}

impl Drop for MagDraft {
    fn drop(self) {
        let MagDraft {
            alloc: _,
            section: _,
            pending: _,
            rects: _,
            table: _,
            marks: _,
            numbers: _,
        } = self;
    }
}

impl Model for MagDraft {
    ghost use Rattle.mag_text.specs.Drafts.{Draft};

    ghost Value = { Draft };

    ghost view = { λ draft. record {
      section = draft.section;
      pending = draft.pending;
      drawn = draft.rects.items;
      uses = draft.table;
      labels = draft.marks.items;
      scale = draft.numbers;
    } };
}

// A use of this child with this id, whose place is still to come.
fn use_named(cell: Name, id: Name) -> CellUse
    ensures { result ≡ use_named cell id }
{
    CellUse {
        cell,
        id,
        six: [0; 6],
        grid: None,
    }
}

fn no_use(alloc: Global) -> CellUse
    ensures { result ≡ no_use }
{
    use_named(Name::empty(alloc), Name::empty(alloc))
}

fn put<T: Drop>(items: &mut Vec<T>, item: T) -> Result<(), AllocError>
    ensures { OnOk result (items.new.items ≡ items.old.items ++ item ∷ []) }
{
    items.push(item)?;
    Ok(())
}

impl MagDraft {
    /// Nothing yet. It takes no memory.
    pub fn new(alloc: Global) -> MagDraft
        ensures { result ≡ nothing_yet }
    {
        MagDraft {
            alloc,
            section: Section::Start,
            pending: no_use(alloc),
            rects: Vec::new(alloc),
            table: UseTable::new(alloc),
            marks: Vec::new(alloc),
            numbers: (1, 1),
        }
    }

    // A line that may stand anywhere but in a use: a group, a use, or the end begins.
    fn open_section(&mut self, said: MagLine) -> Result<(), MagFault>
        ensures read { OnOk result (opens self.old said ≡ Ok self.new) }
        ensures refused { IfErr result (λ fault. fault ≢ OutOfMemory → opens self.old said ≡ Err fault) }
    {
        match said {
            MagLine::Group(group) => {
                self.section = Section::Inside(group?);
                Ok(())
            }
            MagLine::End => {
                self.section = Section::Ended;
                Ok(())
            }
            MagLine::Use(cell, id) => self.open_use(cell, id),
            _ => Err(MagFault::BadLine),
        }
    }

    fn open_use(&mut self, cell: Name, id: Name) -> Result<(), MagFault>
        ensures read { OnOk result (opens self.old (Use cell id) ≡ Ok self.new) }
        ensures refused { IfErr result (λ fault. fault ≢ OutOfMemory → opens self.old (Use cell id) ≡ Err fault) }
    {
        if self.table.has(id.bytes()) {
            return Err(MagFault::UseTwice);
        }
        self.section = Section::Use(UsePart::Named);
        self.pending = use_named(cell, id);
        Ok(())
    }

    // A line of a header: each may stand once.
    fn take_in_header(&mut self, seen: Seen, said: MagLine) -> Result<(), MagFault>
        ensures read { OnOk result (takes_in_header seen self.old said ≡ Ok self.new) }
        ensures refused { IfErr result (λ fault. fault ≢ OutOfMemory → takes_in_header seen self.old said ≡ Err fault) }
    {
        match said {
            MagLine::Tech => self.take_tech(seen),
            MagLine::Timestamp(time) => self.take_timestamp(seen, time),
            MagLine::Scale(scale) => self.take_scale(seen, scale),
            other => self.open_section(other),
        }
    }

    fn take_tech(&mut self, seen: Seen) -> Result<(), MagFault>
        ensures read { OnOk result (takes_in_header seen self.old TechLine ≡ Ok self.new) }
        ensures refused { IfErr result (λ fault. takes_in_header seen self.old TechLine ≡ Err fault) }
    {
        if seen.tech {
            return Err(MagFault::BadLine);
        }
        self.section = Section::Header(Seen { tech: true, ..seen });
        Ok(())
    }

    fn take_timestamp(&mut self, seen: Seen, time: Result<i64, MagFault>) -> Result<(), MagFault>
        ensures read { OnOk result (takes_in_header seen self.old (Timestamp time) ≡ Ok self.new) }
        ensures refused { IfErr result (λ fault. takes_in_header seen self.old (Timestamp time) ≡ Err fault) }
    {
        if seen.timestamp {
            return Err(MagFault::BadLine);
        }
        let _ = time?;
        self.section = Section::Header(Seen {
            timestamp: true,
            ..seen
        });
        Ok(())
    }

    fn take_scale(
        &mut self,
        seen: Seen,
        scale: Result<(u32, u32), MagFault>,
    ) -> Result<(), MagFault>
        ensures read { OnOk result (takes_in_header seen self.old (Scale scale) ≡ Ok self.new) }
        ensures refused { IfErr result (λ fault. takes_in_header seen self.old (Scale scale) ≡ Err fault) }
    {
        if seen.scale {
            return Err(MagFault::BadLine);
        }
        self.numbers = scale?;
        self.section = Section::Header(Seen {
            scale: true,
            ..seen
        });
        Ok(())
    }

    // A line of a group.
    fn take_in_group(&mut self, group: Group, said: MagLine) -> Result<(), MagFault>
        ensures read { OnOk result (takes_in_group group self.old said ≡ Ok self.new) }
        ensures refused { IfErr result (λ fault. fault ≢ OutOfMemory → takes_in_group group self.old said ≡ Err fault) }
    {
        match (group, said) {
            (Group::Paint(layer), MagLine::Area(area)) => self.take_area(layer, area),
            (Group::Labels, MagLine::Label(label)) => self.take_label(label),
            (_, other) => self.open_section(other),
        }
    }

    fn take_area(&mut self, layer: LayerId, area: Result<Rect, MagFault>) -> Result<(), MagFault>
        ensures read { OnOk result (takes_in_group (Paint layer) self.old (Area area) ≡ Ok self.new) }
        ensures refused { IfErr result (λ fault. fault ≢ OutOfMemory
            → takes_in_group (Paint layer) self.old (Area area) ≡ Err fault) }
    {
        let area = area?;
        put(&mut self.rects, Drawn { layer, area })?;
        Ok(())
    }

    fn take_label(&mut self, label: Result<Label, MagFault>) -> Result<(), MagFault>
        ensures read { OnOk result (takes_in_group Labels self.old (OneLabel label) ≡ Ok self.new) }
        ensures refused { IfErr result (λ fault. fault ≢ OutOfMemory
            → takes_in_group Labels self.old (OneLabel label) ≡ Err fault) }
    {
        let label = label?;
        put(&mut self.marks, label)?;
        Ok(())
    }

    // A line of a use, behind this one: an array and a timestamp may be missing.
    fn take_in_use(&mut self, part: UsePart, said: MagLine) -> Result<(), MagFault>
        ensures read { OnOk result (takes_in_use part self.old said ≡ Ok self.new) }
        ensures refused { IfErr result (λ fault. fault ≢ OutOfMemory → takes_in_use part self.old said ≡ Err fault) }
    {
        match (part, said) {
            (UsePart::Named, MagLine::Array(grid)) => self.take_grid(grid),
            (UsePart::Named, MagLine::Timestamp(time)) => self.take_time(time),
            (UsePart::Arrayed, MagLine::Timestamp(time)) => self.take_time(time),
            (UsePart::Named, MagLine::Transform(six)) => self.take_six(six),
            (UsePart::Arrayed, MagLine::Transform(six)) => self.take_six(six),
            (UsePart::Dated, MagLine::Transform(six)) => self.take_six(six),
            (UsePart::Placed, MagLine::Box) => {
                self.section = Section::Between;
                Ok(())
            }
            _ => Err(MagFault::BadLine),
        }
    }

    fn take_grid(&mut self, grid: Result<Grid, MagFault>) -> Result<(), MagFault>
        ensures read { OnOk result (takes_in_use Named self.old (Array grid) ≡ Ok self.new) }
        ensures refused { IfErr result (λ fault. takes_in_use Named self.old (Array grid) ≡ Err fault) }
    {
        self.pending.grid = Some(grid?);
        self.section = Section::Use(UsePart::Arrayed);
        Ok(())
    }

    fn take_time(&mut self, time: Result<i64, MagFault>) -> Result<(), MagFault>
        ensures read { OnOk result (takes_in_use Arrayed self.old (Timestamp time) ≡ Ok self.new) }
        ensures refused { IfErr result (λ fault. takes_in_use Arrayed self.old (Timestamp time) ≡ Err fault) }
    {
        let _ = time?;
        self.section = Section::Use(UsePart::Dated);
        Ok(())
    }

    fn take_six(&mut self, six: Result<[i64; 6], MagFault>) -> Result<(), MagFault>
        ensures read { OnOk result (takes_in_use Dated self.old (Transform six) ≡ Ok self.new) }
        ensures refused { IfErr result (λ fault. fault ≢ OutOfMemory
            → takes_in_use Dated self.old (Transform six) ≡ Err fault) }
    {
        let six = six?;
        let mut placed = mem::replace(&mut self.pending, no_use(self.alloc));
        placed.six = six;
        self.table.add(placed)?;
        self.section = Section::Use(UsePart::Placed);
        Ok(())
    }

    // A line that says something, in its section.
    fn take_said(&mut self, section: Section, said: MagLine) -> Result<(), MagFault>
        ensures read { OnOk result (takes_said section self.old said ≡ Ok self.new) }
        ensures refused { IfErr result (λ fault. fault ≢ OutOfMemory → takes_said section self.old said ≡ Err fault) }
    {
        match section {
            Section::Header(seen) => self.take_in_header(seen, said),
            Section::Inside(group) => self.take_in_group(group, said),
            Section::Use(part) => self.take_in_use(part, said),
            Section::Start | Section::Between | Section::Ended => self.open_section(said),
        }
    }

    fn take_in(&mut self, section: Section, said: MagLine) -> Result<(), MagFault>
        ensures read { OnOk result (takes_in section self.old said ≡ Ok self.new) }
        ensures refused { IfErr result (λ fault. fault ≢ OutOfMemory → takes_in section self.old said ≡ Err fault) }
    {
        match said {
            MagLine::Nothing => Ok(()),
            said => self.take_said(section, said),
        }
    }

    fn take(&mut self, tech: &Tech, line: &[u8]) -> Result<(), MagFault>
        ensures read { OnOk result (line_taken tech.now self.old line.now ≡ Ok self.new) }
        ensures refused { IfErr result (λ fault. fault ≢ OutOfMemory → line_taken tech.now self.old line.now ≡ Err fault) }
    {
        let said = says(self.alloc, tech, line)?;
        self.take_in(self.section, said)
    }

    fn begin(&mut self, line: &[u8]) -> Result<(), MagFault>
        ensures read { OnOk result (begins self.old line.now ≡ Ok self.new) }
        ensures refused { IfErr result (λ fault. begins self.old line.now ≡ Err fault) }
    {
        if !is_magic(line) {
            return Err(MagFault::Magic);
        }
        self.section = Section::Header(Seen {
            tech: false,
            timestamp: false,
            scale: false,
        });
        Ok(())
    }

    /// Reads the next line, in its section.
    pub fn take_line(&mut self, tech: &Tech, line: &[u8]) -> Result<(), MagFault>
        ensures read { OnOk result (line_in tech.now self.old.section self.old line.now ≡ Ok self.new) }
        ensures refused { IfErr result (λ fault. fault ≢ OutOfMemory
            → line_in tech.now self.old.section self.old line.now ≡ Err fault) }
    {
        match self.section {
            Section::Start => self.begin(line),
            Section::Ended => Ok(()),
            Section::Inside(Group::ReadOver) if !ends_read_over(line) => Ok(()),
            _ => self.take(tech, line),
        }
    }

    /// Whether the last line was read.
    pub fn check_ended(&self) -> Result<(), MagFault>
        ensures read { OnOk result (ended self.now.section self.now ≡ Ok self.now) }
        ensures refused { IfErr result (λ fault. ended self.now.section self.now ≡ Err fault) }
    {
        match self.section {
            Section::Start => Err(MagFault::Magic),
            Section::Ended => Ok(()),
            _ => Err(MagFault::NoEnd),
        }
    }

    /// The body of the cell, whose rectangles are painted in their order.
    pub fn into_body(self, tech: &Tech) -> Result<CellBody, AllocError>
        requires { AreDrawn tech.now self.drawn }
        ensures body { IfOk result (HasAllOf tech.now self) }
        ensures kinds { IfOk result (λ body. body.paint.kinds ≡ tech.now.types) }
        ensures planes { IfOk result (λ body. length body.paint.planes ≡ length tech.now.planes) }
    {
        let MagDraft {
            alloc,
            section: _,
            pending: _,
            rects,
            table,
            marks,
            numbers,
        } = self;
        let paint = paint_all(alloc, tech, rects.as_slice())?;
        Ok(CellBody {
            paint,
            uses: List::of(table.into_vec()),
            labels: List::of(marks),
            scale: numbers,
        })
    }
}

fn begins_with_use(line: &[u8]) -> bool
    ensures { result ≡ begins_with_word (codes "use") (words_of line.now) }
{
    match words(line).next() {
        Some(word) => word == b"use".as_slice(),
        None => false,
    }
}

fn ends_read_over(line: &[u8]) -> bool
    ensures { result ≡ ends_read_over line.now }
{
    line.starts_with(b"<<") || begins_with_use(line)
}

fn is_magic(line: &[u8]) -> bool
    ensures { result ≡ is_magic (words_of line.now) }
{
    let mut words = words(line);
    let Some(first) = words.next() else {
        return false;
    };
    words.next().is_none() && first == b"magic".as_slice()
}
