//! A run over objects in memory.
ghost use Rattle.std.specs.Prelude.{◌≡◌, ◌<◌};

use crate::cases::{Call, Case, File, Numbered};
use anyhow::Result;
use magex_top::{Status, run};
use names_lists::Name;
use outside_io::{
    FaultlessShelf, FaultlessSink, FaultlessSource, MemoryShelf, MemorySink, MemorySource, Shelf,
    Sink, Source,
};
use std::alloc::{AllocError, Global};
use std::marker::Brand;
use std::sync::ledger::{Blank, Ledger};
use step_count::Steps;

/// The files that lie on the shelf of each case: those of the folder, and those of the file of cases in their place.
#[derive(Clone, Copy)]
pub struct Setting<'a> {
    pub folder: &'a [File],
    pub suite: &'a [File],
}

/// What a run left.
#[derive(Drop)]
pub struct Outcome {
    pub report: Vec<u8>,
    pub status: u8,
    pub reads: u64,
    pub writes: u64,
    pub shelf: MemoryShelf,
}

impl Outcome {
    /// How many calls of that kind were made.
    pub fn calls(&self, call: Call) -> u64 {
        match call {
            Call::Read => self.reads,
            Call::Write => self.writes,
            Call::Fetch => self.shelf.fetches(),
            Call::Store => self.shelf.stores(),
        }
    }
}

/// Runs a case, with these calls failing.
pub fn run_case(
    alloc: Global,
    setting: Setting<'_>,
    case: &Case,
    failing: &[Numbered],
) -> Result<Outcome> {
    let mut script = source_of(alloc, case, failing)?;
    let mut report = sink_of(alloc, case, failing)?;
    let mut shelf = MemoryShelf::new(
        shelf_of(alloc, setting, case)?,
        numbers_of(alloc, failing, Call::Fetch)?,
        numbers_of(alloc, failing, Call::Store)?,
    );
    let status = run_over::<MemorySource, MemorySink, MemoryShelf, Brand>(
        alloc,
        Blank::new(1),
        &case.words,
        &mut script,
        &mut report,
        &mut shelf,
    );
    Ok(Outcome {
        report: Vec::from_slice(alloc, report.bytes())?,
        status: status.code(),
        reads: script.calls(),
        writes: report.calls(),
        shelf,
    })
}

/// The shelf that a case begins with.
pub fn shelf_of(alloc: Global, setting: Setting<'_>, case: &Case) -> Result<FaultlessShelf> {
    let mut shelf = FaultlessShelf::new(alloc);
    for files in [setting.folder, setting.suite, &case.files] {
        for file in files {
            shelf.store(&Name::of(alloc, &file.name)?, &file.bytes)?;
        }
    }
    Ok(shelf)
}

/// The shelf of a case after its first stores.
pub fn shelf_after(
    alloc: Global,
    setting: Setting<'_>,
    case: &Case,
    stores: u64,
) -> Result<FaultlessShelf> {
    let mut shelf = shelf_of(alloc, setting, case)?;
    for (file, _) in case.stored.iter().zip(0..stores) {
        store(alloc, &mut shelf, file)?;
    }
    Ok(shelf)
}

fn store(alloc: Global, shelf: &mut FaultlessShelf, file: &File) -> Result<()> {
    shelf.store(&Name::of(alloc, &file.name)?, &file.bytes)?;
    Ok(())
}

/// The source of a case's script.
fn source_of(alloc: Global, case: &Case, failing: &[Numbered]) -> Result<MemorySource, AllocError> {
    let script = Vec::from_slice(alloc, &case.script)?;
    Ok(MemorySource::new(
        FaultlessSource::in_pieces(script, case.piece.max(1)),
        numbers_of(alloc, failing, Call::Read)?,
    ))
}

/// The sink of a case's report.
fn sink_of(alloc: Global, case: &Case, failing: &[Numbered]) -> Result<MemorySink, AllocError> {
    Ok(MemorySink::new(
        FaultlessSink::in_pieces(alloc, case.piece.max(1)),
        numbers_of(alloc, failing, Call::Write)?,
    ))
}

/// The numbers of the calls of one kind.
fn numbers_of(alloc: Global, calls: &[Numbered], kind: Call) -> Result<Vec<u64>, AllocError> {
    let mut numbers = Vec::new(alloc);
    for call in calls {
        if call.call == kind {
            numbers.push(call.number)?;
        }
    }
    Ok(numbers)
}

/// A run with a count of its own.
fn run_over<S: Source, K: Sink, F: Shelf, L: Ledger>(
    alloc: Global,
    blank: Blank,
    words: &[String],
    script: &mut S,
    report: &mut K,
    shelf: &mut F,
) -> Status
    requires name { blank.name ≡ L.name }
    requires parts { blank.parts ≡ L.parts }
    requires some_part { 0 < blank.parts }
{
    let mut steps: Steps<L> = Steps::new(blank);
    run(alloc, words, script, report, shelf, &mut steps)
}
