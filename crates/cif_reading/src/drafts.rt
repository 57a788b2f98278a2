//! Reads commands one after another into what a CIF text says.
ghost use Rattle.std.specs.Prelude.{◌≡◌, ◌≢◌, ◌&&◌, ◌++◌, ◌∷◌, [], true, Some, None, IfOk, IfErr, OnOk};
ghost use Rattle.cif_forms.specs.declared.commands.CifCommand.TheVariants.{End, Finish, Layer as SaidLayer};
ghost use Rattle.cif_model.specs.Cifs.{IsLawfulCif};
ghost use Rattle.cif_reading.specs.declared.faults.CifFault.TheVariants.{Memory as OutOfMemory};
ghost use Rattle.cif_reading.specs.Additions.{call_said, takes, with_area, with_finish, with_item, with_start};
ghost use Rattle.cif_reading.specs.Boxes.{area_said};
ghost use Rattle.cif_reading.specs.CifTexts.{parts_of};
ghost use Rattle.cif_reading.specs.Drafts.{nothing_yet, scale_of};
ghost use Rattle.cif_reading.specs.Faults.{area_faults, call_faults, fault_in, faults_there, first_fault, is_factor, lacks_semicolon};
ghost use Rattle.cif_reading.specs.Faults.{start_faults, uses_what_is_left_out};
ghost use Rattle.cif_reading.specs.Scales.{IsScale};

use crate::boxes::{area_is_in_range, area_is_whole, area_said, has_short_side, is_in_range};
use crate::faults::CifFault;
use crate::layers::LayerList;
use crate::limits::MOST_FACTOR;
use crate::scales::Scale;
use crate::steps::{are_along_axes, are_whole, call_is_in_range, moves_said};
use crate::symbols::SymbolList;
use cif_forms::{CifCommand, SaidMove};
use cif_model::{Cif, CifItem};
use geo_core::Rect;
use names_lists::{List, Name};
use std::alloc::{AllocError, Global};
use std::marker::Model;
use std::mem;

/// A symbol that is being defined: its number, its scale, and the layer before it.
#[derive(Debug, Drop)]
pub struct Opened {
    pub number: i64,
    pub scale: Scale,
    pub before: Option<Name>,
}

/// A CIF text as far as its commands are read. Contracts see it as a record of its parts.
pub struct CifDraft {
    alloc: Global,
    layer: Option<Name>,
    opened: Option<Opened>,
    inner: Vec<CifItem>,
    names: LayerList,
    defined: SymbolList,
    outer: Vec<CifItem>,
    has_ended: bool,
}

impl Drop for CifDraft {
    fn drop(self) {
        let CifDraft {
            alloc: _,
            layer: _,
            opened: _,
            inner: _,
            names: _,
            defined: _,
            outer: _,
            has_ended: _,
        } = self;
    }
}

impl Model for CifDraft {
    ghost use Rattle.cif_reading.specs.Drafts.{Draft, IsLawfulOpened};

    ghost Value = { Draft };

    ghost view = { λ draft. record {
      layer = draft.layer;
      opened = draft.opened;
      items = draft.inner.items;
      layers = draft.names;
      symbols = draft.defined;
      top = draft.outer.items;
      ended = draft.has_ended;
    } };

    ghost invariant = { λ draft. IsLawfulOpened draft.defined draft.opened };
}

fn put(items: &mut Vec<CifItem>, item: CifItem) -> Result<(), AllocError>
    ensures { OnOk result (items.new.items ≡ items.old.items ++ item ∷ []) }
{
    items.push(item)?;
    Ok(())
}

// A place that is told in 32 bits. A greater one counts as want of memory.
fn number_32(place: usize) -> Result<u32, CifFault>
    ensures ok { IfOk result (λ number. number ≡ place) }
    ensures err { IfErr result (λ fault. fault ≡ OutOfMemory) }
{
    match u32::try_from(place) {
        Ok(number) => Ok(number),
        Err(_) => Err(CifFault::Memory),
    }
}

fn is_factor(z: i64) -> bool
    ensures { result ≡ is_factor z }
{
    1 <= z && z <= MOST_FACTOR as i64
}

// Whether the numbers are those of a scale.
#[tactic(auto, using(crate::proofs::NumberLaws::scale_of_factors))]
fn are_factors(a: i64, b: i64) -> bool
    ensures value { result ≡ (is_factor a && is_factor b) }
    ensures scale { result ≡ true → IsScale (record { up = a; down = b }) }
{
    is_factor(a) && is_factor(b)
}

// Whether a command is of a kind that is left out, or a part of it is.
#[tactic(auto, unfolding(crate::specs::Faults::uses_what_is_left_out))]
fn uses_what_is_left_out(command: &CifCommand) -> bool
    ensures { result ≡ uses_what_is_left_out command.now }
{
    match command {
        CifCommand::LeftOut => true,
        CifCommand::Area(_, _, _, _, direction) => *direction,
        CifCommand::Call(_, moves, _) => !are_along_axes(moves.items()),
        _ => false,
    }
}

// Whether the semicolon of a command is missing.
#[tactic(auto, unfolding(crate::specs::Faults::lacks_semicolon))]
fn lacks_semicolon(closed: bool, command: &CifCommand) -> bool
    ensures { result ≡ lacks_semicolon closed command.now }
{
    !closed && !matches!(command, CifCommand::Empty | CifCommand::End)
}

impl CifDraft {
    /// Nothing yet. It takes no memory.
    pub fn new(alloc: Global) -> CifDraft
        ensures { result ≡ nothing_yet }
    {
        CifDraft {
            alloc,
            layer: None,
            opened: None,
            inner: Vec::new(alloc),
            names: LayerList::new(alloc),
            defined: SymbolList::new(alloc),
            outer: Vec::new(alloc),
            has_ended: false,
        }
    }

    pub fn alloc(&self) -> Global {
        self.alloc
    }

    /// Whether an `E` was read.
    pub fn has_ended(&self) -> bool
        ensures { result ≡ self.now.ended }
    {
        self.has_ended
    }

    /// What the text says. It takes no memory.
    pub fn into_cif(self) -> Cif
        requires { IsLawfulCif (parts_of self) }
        ensures { result ≡ parts_of self }
    {
        let CifDraft {
            alloc: _,
            layer: _,
            opened: _,
            inner: _,
            names,
            defined,
            outer,
            has_ended: _,
        } = self;
        Cif::of(names.into_list(), defined.into_list(), List::of(outer))
    }

    fn scale(&self) -> Scale
        ensures value { result ≡ scale_of self.now.opened }
        ensures lawful { IsScale result }
    {
        match &self.opened {
            Some(opened) => opened.scale,
            None => Scale { up: 1, down: 1 },
        }
    }

    // The box that is said, its edges scaled; or its first fault.
    fn area_there(&self, l: i64, w: i64, x: i64, y: i64) -> Result<Rect, CifFault>
        ensures fine { OnOk result (first_fault (area_faults self.now l w x y) ≡ None) }
        ensures area { IfOk result (λ area. area ≡ area_said (scale_of self.now.opened) l w x y) }
        ensures refused { IfErr result (λ fault. first_fault (area_faults self.now l w x y) ≡ Some fault) }
    {
        if has_short_side(l, w) {
            return Err(CifFault::Form);
        }
        if !area_is_in_range(l, w, x, y) {
            return Err(CifFault::Range);
        }
        if self.layer.is_none() {
            return Err(CifFault::NoLayer);
        }
        let scale = self.scale();
        if !area_is_whole(scale, l, w, x, y) {
            return Err(CifFault::NotWhole);
        }
        Ok(area_said(scale, l, w, x, y))
    }

    // The call that is said, its steps scaled; or its first fault.
    fn call_there(&self, n: i64, moves: &[SaidMove], more: bool) -> Result<CifItem, CifFault>
        ensures fine { OnOk result (first_fault (call_faults self.now n moves.now more) ≡ None) }
        ensures call { IfOk result (λ call. call ≡ call_said self.now n moves.now) }
        ensures refused { IfErr result (λ fault. fault ≢ OutOfMemory → first_fault (call_faults self.now n moves.now more) ≡ Some fault) }
    {
        if more {
            return Err(CifFault::Form);
        }
        if !call_is_in_range(n, moves) {
            return Err(CifFault::Range);
        }
        let Some(place) = self.defined.find(n) else {
            return Err(CifFault::NoSymbol);
        };
        let scale = self.scale();
        if !are_whole(scale, moves) {
            return Err(CifFault::NotWhole);
        }
        let symbol = number_32(place)?;
        let moves = moves_said(self.alloc, scale, moves)?;
        Ok(CifItem::Call {
            symbol,
            moves: List::of(moves),
        })
    }

    // Whether a symbol may start, or the first fault.
    fn check_start(&self, n: i64, a: i64, b: i64) -> Result<(), CifFault>
        ensures fine { OnOk result (first_fault (start_faults self.now n a b) ≡ None) }
        ensures scale { OnOk result (IsScale (record { up = a; down = b })) }
        ensures refused { IfErr result (λ fault. first_fault (start_faults self.now n a b) ≡ Some fault) }
    {
        if self.opened.is_some() || !are_factors(a, b) {
            return Err(CifFault::Form);
        }
        if !is_in_range(n) {
            return Err(CifFault::Range);
        }
        if self.defined.find(n).is_some() {
            return Err(CifFault::SymbolTwice);
        }
        Ok(())
    }

    // One more box or call, of the symbol that is being defined or of the top level.
    fn put_item(&mut self, item: CifItem) -> Result<(), AllocError>
        ensures { OnOk result (self.new ≡ with_item self.old item) }
    {
        match &self.opened {
            Some(_) => put(&mut self.inner, item),
            None => put(&mut self.outer, item),
        }
    }

    // One more box, of the layer that was chosen. Where none was, nothing is added.
    fn put_area(&mut self, area: Rect) -> Result<(), CifFault>
        ensures read { OnOk result (self.new ≡ with_area self.old.layer self.old area) }
        ensures refused { IfErr result (λ fault. fault ≡ OutOfMemory) }
    {
        let Some(name) = &self.layer else {
            return Ok(());
        };
        let place = self.names.place(name)?;
        let layer = number_32(place)?;
        self.put_item(CifItem::Area { layer, area })?;
        Ok(())
    }

    fn read_layer(&mut self, name: Option<Name>) -> Result<(), CifFault>
        ensures fine { OnOk result (first_fault (faults_there self.old (SaidLayer name)) ≡ None) }
        ensures read { OnOk result (self.new ≡ takes self.old (SaidLayer name)) }
        ensures refused { IfErr result (λ fault. first_fault (faults_there self.old (SaidLayer name)) ≡ Some fault) }
    {
        if name.is_none() {
            return Err(CifFault::Form);
        }
        self.layer = name;
        Ok(())
    }

    fn read_start(&mut self, n: i64, a: i64, b: i64) -> Result<(), CifFault>
        ensures fine { OnOk result (first_fault (start_faults self.old n a b) ≡ None) }
        ensures read { OnOk result (self.new ≡ with_start self.old n a b) }
        ensures refused { IfErr result (λ fault. first_fault (start_faults self.old n a b) ≡ Some fault) }
    {
        match self.check_start(n, a, b) {
            Ok(()) => {
                let before = mem::replace(&mut self.layer, None);
                self.opened = Some(Opened {
                    number: n,
                    scale: Scale { up: a, down: b },
                    before,
                });
                self.inner = Vec::new(self.alloc);
                Ok(())
            }
            Err(fault) => Err(fault),
        }
    }

    fn read_finish(&mut self) -> Result<(), CifFault>
        ensures fine { OnOk result (first_fault (faults_there self.old Finish) ≡ None) }
        ensures read { OnOk result (self.new ≡ with_finish self.old.opened self.old) }
        ensures refused { IfErr result (λ fault. fault ≢ OutOfMemory → first_fault (faults_there self.old Finish) ≡ Some fault) }
    {
        match mem::replace(&mut self.opened, None) {
            Some(opened) => {
                let items = mem::replace(&mut self.inner, Vec::new(self.alloc));
                self.defined.push(opened.number, items)?;
                self.layer = opened.before;
                Ok(())
            }
            None => Err(CifFault::Form),
        }
    }

    fn read_end(&mut self) -> Result<(), CifFault>
        ensures fine { OnOk result (first_fault (faults_there self.old End) ≡ None) }
        ensures read { OnOk result (self.new ≡ takes self.old End) }
        ensures refused { IfErr result (λ fault. first_fault (faults_there self.old End) ≡ Some fault) }
    {
        if self.opened.is_some() {
            return Err(CifFault::Form);
        }
        self.has_ended = true;
        Ok(())
    }

    fn read_area(&mut self, l: i64, w: i64, x: i64, y: i64) -> Result<(), CifFault>
        ensures fine { OnOk result (first_fault (area_faults self.old l w x y) ≡ None) }
        ensures read { OnOk result (self.new ≡ with_area self.old.layer self.old (area_said (scale_of self.old.opened) l w x y)) }
        ensures refused { IfErr result (λ fault. fault ≢ OutOfMemory → first_fault (area_faults self.old l w x y) ≡ Some fault) }
    {
        match self.area_there(l, w, x, y) {
            Ok(area) => self.put_area(area),
            Err(fault) => Err(fault),
        }
    }

    fn read_call(&mut self, n: i64, moves: &[SaidMove], more: bool) -> Result<(), CifFault>
        ensures fine { OnOk result (first_fault (call_faults self.old n moves.now more) ≡ None) }
        ensures read { OnOk result (self.new ≡ with_item self.old (call_said self.old n moves.now)) }
        ensures refused { IfErr result (λ fault. fault ≢ OutOfMemory → first_fault (call_faults self.old n moves.now more) ≡ Some fault) }
    {
        match self.call_there(n, moves, more) {
            Ok(call) => {
                self.put_item(call)?;
                Ok(())
            }
            Err(fault) => Err(fault),
        }
    }

    // Reads a command that uses nothing that is left out and lacks no semicolon.
    fn take(&mut self, command: CifCommand) -> Result<(), CifFault>
        ensures fine { OnOk result (first_fault (faults_there self.old command) ≡ None) }
        ensures read { OnOk result (self.new ≡ takes self.old command) }
        ensures refused { IfErr result (λ fault. fault ≢ OutOfMemory → first_fault (faults_there self.old command) ≡ Some fault) }
    {
        match command {
            CifCommand::Empty | CifCommand::ReadOver | CifCommand::LeftOut => Ok(()),
            CifCommand::Other => Err(CifFault::Form),
            CifCommand::End => self.read_end(),
            CifCommand::Layer(name) => self.read_layer(name),
            CifCommand::Start(n, a, b) => self.read_start(n, a, b),
            CifCommand::Finish => self.read_finish(),
            CifCommand::Area(l, w, x, y, _) => self.read_area(l, w, x, y),
            CifCommand::Call(n, moves, more) => self.read_call(n, moves.items(), more),
        }
    }

    /// Reads a command by what it says, which a semicolon ends or not.
    pub fn read_said(&mut self, command: CifCommand, closed: bool) -> Result<(), CifFault>
        ensures fine { OnOk result (fault_in self.old closed command ≡ None) }
        ensures read { OnOk result (self.new ≡ takes self.old command) }
        ensures refused { IfErr result (λ fault. fault ≢ OutOfMemory → fault_in self.old closed command ≡ Some fault) }
    {
        if uses_what_is_left_out(&command) {
            return Err(CifFault::LeftOut);
        }
        if lacks_semicolon(closed, &command) {
            return Err(CifFault::Form);
        }
        self.take(command)
    }
}
