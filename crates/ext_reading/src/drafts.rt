//! What a circuit file has said so far.
ghost use Rattle.std.specs.Prelude.{◌≡◌, ◌≢◌, ◌&&◌, ◌++◌, ◌∷◌, [], false, Ok, Err, OnOk, IfOk, IfErr, pos, slice_index};
ghost use Rattle.std.specs.List.{list_all, list_any, position, before_first};
ghost use Rattle.std.specs.Str.{bytes_eq};
ghost use Rattle.ext_model.specs.LawfulArrays.{HasIdForm};
ghost use Rattle.element_index.specs.GivenNames.{is_among, gives_again};
ghost use Rattle.ext_reading.specs.declared.faults.ExtReadFault.TheVariants.{Memory as OutOfMemory, NoName};
ghost use Rattle.ext_reading.specs.Parts.{is_slash};
ghost use Rattle.ext_reading.specs.Drafts.{nothing_seen, nothing_yet, is_incomplete, was_seen, with_seen, is_other_version, with_header};
ghost use Rattle.ext_reading.specs.Drafts.{takes_header, elements_of, with_use, takes_new_use, takes_use, node_from, with_node, takes_node, named_too};
ghost use Rattle.ext_reading.specs.Drafts.{with_alias_at, with_alias};
ghost use Rattle.ext_reading.specs.Drafts.{takes_alias, takes_equiv, fet_from, has_its_nodes, takes_fet, leads, all_lead, range_in, merge_from};
ghost use Rattle.ext_reading.specs.Drafts.{count_of, elements_known, second_of, takes_merge, takes_record};
ghost use Rattle.ext_reading.specs.Drafts.{has_measures, fits_classes, fits_version, takes_body, takes, finish};
ghost use Rattle.ext_reading.specs.LineForms.{HasNameForm, NamesUse};
ghost use Rattle.ext_reading.specs.ExtTexts.{record_of};

use crate::faults::ExtReadFault;
use crate::headers::{is_incomplete, is_other_version, nothing_seen, was_seen, with_seen};
use crate::known_names::{has_its_nodes, is_among, leads, seconds_lead};
use crate::limits::MOST_USES;
use crate::lines::{
    ExtLine, FetLine, HeaderLine, MergeLine, NodeLine, Numeral, Seen, UseLine, Version,
};
use crate::outlines::Outline;
use crate::parts::put;
use crate::ranges::{class_values_in, grid_in, six_in};
use crate::records::{fet_from, merge_from, name_node_too, node_from};
use crate::use_names::range_in;
use element_index::{ElementIndex, UseElements};
use ext_model::{ArrayExt, ArrayUse, FetRec, MergeRow, NodeRec};
use name_index::NameIndex;
use names_lists::{List, Name};
use std::alloc::{AllocError, Global};
use std::marker::Model;

/// A record as far as its lines are read. Contracts see it as a record of its parts.
pub struct ExtDraft {
    alloc: Global,
    seen: Seen,
    begun: bool,
    version: Option<Version>,
    tech: Name,
    classes: List<u64>,
    arrays: Vec<ArrayUse>,
    given: ElementIndex,
    nodes: Vec<NodeRec>,
    names: NameIndex,
    owners: Vec<usize>,
    transistors: Vec<FetRec>,
    joins: Vec<MergeRow>,
}

impl Drop for ExtDraft {
    fn drop(self) {
        let ExtDraft {
            alloc: _,
            seen: _,
            begun: _,
            version: _,
            tech: _,
            classes: _,
            arrays: _,
            given: _,
            nodes: _,
            names: _,
            owners: _,
            transistors: _,
            joins: _,
        } = self;
    }
}

impl Model for ExtDraft {
    ghost use Rattle.ext_reading.specs.Drafts.{Draft};

    ghost Value = { Draft };

    ghost view = { λ draft. record {
      seen = draft.seen;
      begun = draft.begun;
      version = draft.version;
      tech = draft.tech;
      classes = draft.classes;
      uses = draft.arrays.items;
      given = draft.given;
      nodes = draft.nodes.items;
      names = draft.names;
      owners = draft.owners.items;
      fets = draft.transistors.items;
      merges = draft.joins.items;
    } };
}

// Why a row of merges is refused whose paths don't all lead to nodes. The row is let go.
fn leads_nowhere(_row: MergeRow) -> ExtReadFault
    ensures { result ≡ NoName }
{
    ExtReadFault::NoName
}

impl ExtDraft {
    /// Nothing yet. It takes no memory.
    pub fn new(alloc: Global) -> ExtDraft
        ensures { result ≡ nothing_yet }
    {
        ExtDraft {
            alloc,
            seen: nothing_seen(),
            begun: false,
            version: None,
            tech: Name::empty(alloc),
            classes: List::of(Vec::new(alloc)),
            arrays: Vec::new(alloc),
            given: ElementIndex::new(alloc),
            nodes: Vec::new(alloc),
            names: NameIndex::new(alloc),
            owners: Vec::new(alloc),
            transistors: Vec::new(alloc),
            joins: Vec::new(alloc),
        }
    }

    fn take_what_header_has(&mut self, header: HeaderLine) -> Result<(), ExtReadFault>
        ensures read { OnOk result (with_header self.old header ≡ Ok self.new) }
        ensures refused { IfErr result (λ fault. fault ≢ OutOfMemory → with_header self.old header ≡ Err fault) }
    {
        match header {
            HeaderLine::Tech(name) => self.tech = name,
            HeaderLine::Version(version) => self.version = Some(version),
            HeaderLine::Classes(values) => {
                self.classes = class_values_in(self.alloc, values.items())?;
            }
            _ => {}
        }
        Ok(())
    }

    fn take_header(&mut self, is_last: bool, header: HeaderLine) -> Result<(), ExtReadFault>
        ensures read { OnOk result (takes_header is_last self.old header ≡ Ok self.new) }
        ensures refused { IfErr result (λ fault. fault ≢ OutOfMemory
            → takes_header is_last self.old header ≡ Err fault) }
    {
        if self.begun {
            return Err(ExtReadFault::BadLine);
        }
        let seen = with_seen(self.seen, &header);
        if is_last && is_incomplete(seen) {
            return Err(ExtReadFault::NoHeader);
        }
        if is_other_version(&header) {
            return Err(ExtReadFault::Version);
        }
        if was_seen(self.seen, &header) {
            return Err(ExtReadFault::NameTwice);
        }
        self.seen = seen;
        self.take_what_header_has(header)
    }

    // Adds a use, where no element has a name that another one has.
    fn take_new_use(&mut self, used: ArrayUse) -> Result<(), ExtReadFault>
        requires { HasIdForm used.grid used.id }
        ensures read { OnOk result (takes_new_use self.old used ≡ Ok self.new) }
        ensures refused { IfErr result (λ fault. fault ≢ OutOfMemory → takes_new_use self.old used ≡ Err fault) }
    {
        let given = UseElements {
            id: used.id.copy(self.alloc)?,
            grid: used.grid,
        };
        if self.given.gives_again(&given) {
            return Err(ExtReadFault::UseTwice);
        }
        self.given.add(given)?;
        put(&mut self.arrays, used)?;
        Ok(())
    }

    fn take_use(&mut self, line: UseLine) -> Result<(), ExtReadFault>
        requires { HasNameForm line.name.grid line.name.id }
        ensures read { OnOk result (takes_use self.old line ≡ Ok self.new) }
        ensures refused { IfErr result (λ fault. fault ≢ OutOfMemory → takes_use self.old line ≡ Err fault) }
    {
        if self.arrays.len() >= MOST_USES {
            return Err(ExtReadFault::Range);
        }
        let grid = grid_in(line.name.grid)?;
        let six = six_in(line.six)?;
        self.take_new_use(ArrayUse {
            cell: line.cell,
            id: line.name.id,
            six,
            grid,
        })
    }

    fn add_node(&mut self, node: NodeRec) -> Result<(), AllocError>
        requires { is_among node.name self.old.names ≡ false }
        ensures { OnOk result (self.new ≡ with_node self.old node) }
    {
        let _ = self.names.insert(node.name.bytes())?;
        let number = self.nodes.len();
        put(&mut self.owners, number)?;
        put(&mut self.nodes, node)
    }

    fn take_node(&mut self, line: NodeLine) -> Result<(), ExtReadFault>
        ensures read { OnOk result (takes_node self.old line ≡ Ok self.new) }
        ensures refused { IfErr result (λ fault. fault ≢ OutOfMemory → takes_node self.old line ≡ Err fault) }
    {
        if is_among(line.name.bytes(), &self.names) {
            return Err(ExtReadFault::NameTwice);
        }
        let node = node_from(self.alloc, line)?;
        self.add_node(node)?;
        Ok(())
    }

    fn add_alias(&mut self, node: usize, alias: Name) -> Result<(), AllocError>
        requires { is_among alias self.old.names ≡ false }
        ensures { OnOk result (self.new ≡ with_alias self.old node alias) }
    {
        let _ = self.names.insert(alias.bytes())?;
        put(&mut self.owners, node)?;
        name_node_too(self.alloc, &mut self.nodes, node, alias)
    }

    // The number of the node that has the name at this place.
    fn owner_at(&self, place: usize) -> usize
        ensures { result ≡ slice_index self.now.owners place }
    {
        match self.owners.get(place) {
            Some(node) => *node,
            None => 0,
        }
    }

    fn take_equiv(&mut self, name: Name, alias: Name) -> Result<(), ExtReadFault>
        ensures read { OnOk result (takes_equiv self.old name alias ≡ Ok self.new) }
        ensures refused { IfErr result (λ fault. fault ≢ OutOfMemory → takes_equiv self.old name alias ≡ Err fault) }
    {
        if is_among(alias.bytes(), &self.names) {
            return Err(ExtReadFault::NameTwice);
        }
        let Some(place) = self.names.find(name.bytes()) else {
            return Err(ExtReadFault::NoName);
        };
        let node = self.owner_at(place);
        self.add_alias(node, alias)?;
        Ok(())
    }

    fn take_fet(&mut self, line: FetLine) -> Result<(), ExtReadFault>
        ensures read { OnOk result (takes_fet self.old line ≡ Ok self.new) }
        ensures refused { IfErr result (λ fault. fault ≢ OutOfMemory → takes_fet self.old line ≡ Err fault) }
    {
        let fet = fet_from(self.alloc, line)?;
        if !has_its_nodes(&self.names, &fet) {
            return Err(ExtReadFault::NoName);
        }
        put(&mut self.transistors, fet)?;
        Ok(())
    }

    // The row of merges that a line says, and whether its paths lead to nodes.
    fn merge_said(
        &self,
        outline: &Outline,
        line: MergeLine,
    ) -> Result<(bool, MergeRow), ExtReadFault>
        ensures leads { IfOk result (λ found. found.0 ≡ (leads (elements_known self.now.version outline.now) self.now.names line.first
            && all_lead (elements_known self.now.version outline.now) self.now.names (second_of line.second (range_in self.now.version line.second))
            (count_of (range_in self.now.version line.second)))) }
        ensures read { IfOk result (λ found. merge_from line (range_in self.now.version line.second) ≡ Ok found.1) }
        ensures refused { IfErr result (λ fault. fault ≢ OutOfMemory → merge_from line (range_in self.now.version line.second) ≡ Err fault) }
    {
        let range = range_in(self.alloc, self.version, line.second.bytes())?;
        let elements = outline.elements(self.version);
        let leads_there = leads(elements, &self.names, line.first.bytes())
            && seconds_lead(elements, &self.names, line.second.bytes(), &range);
        let row = merge_from(self.alloc, line, &range)?;
        Ok((leads_there, row))
    }

    fn take_merge(&mut self, outline: &Outline, line: MergeLine) -> Result<(), ExtReadFault>
        ensures read { OnOk result (takes_merge outline.now self.old line ≡ Ok self.new) }
        ensures refused { IfErr result (λ fault. fault ≢ OutOfMemory
            → takes_merge outline.now self.old line ≡ Err fault) }
    {
        let (leads_there, row) = self.merge_said(outline, line)?;
        if !leads_there {
            return Err(leads_nowhere(row));
        }
        put(&mut self.joins, row)?;
        Ok(())
    }

    fn take_record(&mut self, outline: &Outline, said: ExtLine) -> Result<(), ExtReadFault>
        requires { NamesUse said }
        ensures read { OnOk result (takes_record outline.now self.old said ≡ Ok self.new) }
        ensures refused { IfErr result (λ fault. fault ≢ OutOfMemory
            → takes_record outline.now self.old said ≡ Err fault) }
    {
        match said {
            ExtLine::Use(line) => self.take_use(line),
            ExtLine::Node(line) => self.take_node(line),
            ExtLine::Equiv(name, alias) => self.take_equiv(name, alias),
            ExtLine::Fet(line) => self.take_fet(line),
            ExtLine::Merge(line) => self.take_merge(outline, line),
            ExtLine::Nothing | ExtLine::Header(_) => Ok(()),
        }
    }

    fn has_measures(&self, measures: &[Numeral]) -> bool
        ensures { result ≡ has_measures self.now measures.now }
    {
        !self.seen.classes || measures.len() == 2 * self.classes.items().len()
    }

    fn fits_classes(&self, said: &ExtLine) -> bool
        ensures { result ≡ fits_classes self.now said.now }
    {
        match said {
            ExtLine::Node(line) => self.has_measures(line.measures.items()),
            ExtLine::Merge(line) => self.has_measures(line.measures.items()),
            _ => true,
        }
    }

    // Whether a file of this version may have the line: there are no arrays in version 1.
    fn fits_version(&self, said: &ExtLine) -> bool
        ensures { result ≡ fits_version self.now.version said.now }
    {
        match (self.version, said) {
            (Some(Version::One), ExtLine::Use(line)) => line.name.grid.is_none(),
            _ => true,
        }
    }

    fn take_body(&mut self, outline: &Outline, said: ExtLine) -> Result<(), ExtReadFault>
        requires { NamesUse said }
        ensures read { OnOk result (takes_body outline.now self.old said ≡ Ok self.new) }
        ensures refused { IfErr result (λ fault. fault ≢ OutOfMemory
            → takes_body outline.now self.old said ≡ Err fault) }
    {
        if !(self.fits_classes(&said) && self.fits_version(&said)) {
            return Err(ExtReadFault::BadLine);
        }
        if is_incomplete(self.seen) {
            return Err(ExtReadFault::NoHeader);
        }
        self.begun = true;
        self.take_record(outline, said)
    }

    /// Adds what a line says; where it is the last line of the text, a header ends with it.
    pub fn take(
        &mut self,
        outline: &Outline,
        is_last: bool,
        said: ExtLine,
    ) -> Result<(), ExtReadFault>
        requires { NamesUse said }
        ensures read { OnOk result (takes outline.now is_last self.old said ≡ Ok self.new) }
        ensures refused { IfErr result (λ fault. fault ≢ OutOfMemory
            → takes outline.now is_last self.old said ≡ Err fault) }
    {
        match said {
            ExtLine::Nothing => Ok(()),
            ExtLine::Header(header) => self.take_header(is_last, header),
            said => self.take_body(outline, said),
        }
    }

    /// Where the memory of the record is taken from.
    pub fn alloc(&self) -> Global {
        self.alloc
    }

    /// Whether the header has what it needs.
    pub fn check_header(&self) -> Result<(), ExtReadFault>
        ensures read { OnOk result (finish self.now ≡ Ok self.now) }
        ensures refused { IfErr result (λ fault. finish self.now ≡ Err fault) }
    {
        if is_incomplete(self.seen) {
            Err(ExtReadFault::NoHeader)
        } else {
            Ok(())
        }
    }

    /// The record of the cell of this name.
    pub fn into_record(self, cell: Name) -> ArrayExt
        ensures { result ≡ record_of cell self }
    {
        let ExtDraft {
            alloc: _,
            seen: _,
            begun: _,
            version: _,
            tech,
            classes,
            arrays,
            given: _,
            nodes,
            names: _,
            owners: _,
            transistors,
            joins,
        } = self;
        ArrayExt {
            cell,
            tech,
            classes,
            uses: List::of(arrays),
            nodes: List::of(nodes),
            fets: List::of(transistors),
            merges: List::of(joins),
        }
    }
}
