//! A source, a sink and a shelf in memory that never fail: each call is refused for want of memory at most.
ghost use Rattle.std.specs.Prelude.{◌≡◌, ◌<◌, ◌≤◌, [], vec_len, Some, IfOk, IfSome};
ghost use Rattle.std.specs.Option.{option_copied};
ghost use Rattle.outside_io.specs.Files.{no_files, bytes_of, names_of};

use crate::calls::raised;
use crate::faults::{Failed, PutFault, ShelfFault};
use crate::limits::LONGEST_FILE;
use crate::outside::{Shelf, Sink, Source};
use names_lists::{List, Name};
use std::alloc::Global;
use std::collections::BTreeMap;

/// A source that hands out the bytes of a vector and never fails.
#[derive(Drop)]
pub struct FaultlessSource {
    bytes: Vec<u8>,
    taken: usize,
    largest: usize,
    ghost within: { taken ≤ vec_len bytes },
    ghost some: { 0 < largest },
}

impl FaultlessSource {
    /// A source that hands out as many bytes as the buffer has room for.
    pub fn new(bytes: Vec<u8>) -> FaultlessSource
        ensures { ⟦<FaultlessSource as Source>⟧.left result ≡ Some bytes.items }
    {
        FaultlessSource::in_pieces(bytes, usize::MAX)
    }

    /// A source that hands out at most so many bytes at a time.
    pub fn in_pieces(bytes: Vec<u8>, largest: usize) -> FaultlessSource
        requires { 0 < largest }
        ensures { ⟦<FaultlessSource as Source>⟧.left result ≡ Some bytes.items }
    {
        FaultlessSource {
            bytes,
            taken: 0,
            largest,
        }
    }
}

impl Source for FaultlessSource {
    ghost use Rattle.std.specs.Prelude.{drop, Some, None};

    ghost left = { λ source. Some (drop source.taken source.bytes.items) };

    ghost faults = { λ _. 0 };

    ghost plan = { λ _. None };

    fn read(&mut self, buf: &mut [u8]) -> Result<usize, Failed> {
        let rest = &self.bytes[self.taken..];
        let count = rest.len().min(buf.len()).min(self.largest);
        buf[..count].copy_from_slice(&rest[..count]);
        self.taken += count;
        Ok(count)
    }
}

/// A sink that keeps what is written in a vector and never fails.
#[derive(Drop)]
pub struct FaultlessSink {
    bytes: Vec<u8>,
    largest: usize,
    ghost some: { 0 < largest },
}

impl FaultlessSink {
    /// An empty sink that takes the whole of each piece.
    pub fn new(alloc: Global) -> FaultlessSink
        ensures { ⟦<FaultlessSink as Sink>⟧.written result ≡ Some [] }
    {
        FaultlessSink::in_pieces(alloc, usize::MAX)
    }

    /// An empty sink that takes at most so many bytes at a time.
    pub fn in_pieces(alloc: Global, largest: usize) -> FaultlessSink
        requires { 0 < largest }
        ensures { ⟦<FaultlessSink as Sink>⟧.written result ≡ Some [] }
    {
        FaultlessSink {
            bytes: Vec::new(alloc),
            largest,
        }
    }

    /// What was written.
    pub fn bytes(&self) -> &[u8]
        ensures { ⟦<FaultlessSink as Sink>⟧.written self.now ≡ Some result.now }
    {
        self.bytes.as_slice()
    }
}

impl Sink for FaultlessSink {
    ghost use Rattle.std.specs.Prelude.{Some, None};

    ghost written = { λ sink. Some sink.bytes.items };

    ghost faults = { λ _. 0 };

    ghost plan = { λ _. None };

    fn write(&mut self, piece: &[u8]) -> Result<usize, PutFault> {
        let count = piece.len().min(self.largest);
        self.bytes.extend_from_slice(&piece[..count])?;
        Ok(count)
    }
}

/// A shelf that keeps its files in a map and never fails.
#[derive(Drop)]
pub struct FaultlessShelf {
    alloc: Global,
    files: BTreeMap<Name, List<u8>>,
    absences: u64,
    overlengths: u64,
}

impl FaultlessShelf {
    /// A shelf without files.
    pub fn new(alloc: Global) -> FaultlessShelf
        ensures { ⟦<FaultlessShelf as Shelf>⟧.files result ≡ Some no_files }
    {
        FaultlessShelf {
            alloc,
            files: BTreeMap::new(alloc),
            absences: 0,
            overlengths: 0,
        }
    }

    /// The names that have a file: each once, in the order of their bytes. It counts as no call.
    pub fn names(&self, alloc: Global) -> Result<Vec<Name>, PutFault>
        ensures { IfOk result (λ names. IfSome (⟦<FaultlessShelf as Shelf>⟧.files self.now) (λ held.
            names.items ≡ names_of held)) }
    {
        let mut names = Vec::new(alloc);
        for name in self.files.keys() {
            names.push(name.copy(alloc)?)?;
        }
        Ok(names)
    }

    /// The bytes of a file of any length. It counts as no call.
    pub fn file(&self, name: &Name) -> Option<&[u8]>
        ensures { IfSome (⟦<FaultlessShelf as Shelf>⟧.files self.now) (λ held.
            bytes_of held name.now ≡ option_copied result) }
    {
        match self.files.get(name) {
            Some(bytes) => Some(bytes.items()),
            None => None,
        }
    }
}

impl Shelf for FaultlessShelf {
    ghost use Rattle.std.specs.Prelude.{Some, None};
    ghost use Rattle.std.specs.FinMap.{from_entries};

    ghost files = { λ shelf. Some (from_entries shelf.files.entries) };

    ghost absences = { λ shelf. shelf.absences };

    ghost overlengths = { λ shelf. shelf.overlengths };

    ghost fetch_faults = { λ _. 0 };

    ghost store_faults = { λ _. 0 };

    ghost fetch_plan = { λ _. None };

    ghost store_plan = { λ _. None };

    fn fetch(&mut self, alloc: Global, name: &Name) -> Result<Vec<u8>, ShelfFault> {
        let Some(bytes) = self.file(name) else {
            self.absences = raised(self.absences);
            return Err(ShelfFault::Absent);
        };
        if bytes.len() > LONGEST_FILE {
            self.overlengths = raised(self.overlengths);
            return Err(ShelfFault::TooLong);
        }
        Ok(Vec::from_slice(alloc, bytes)?)
    }

    fn store(&mut self, name: &Name, bytes: &[u8]) -> Result<(), PutFault> {
        let kept = List::of(Vec::from_slice(self.alloc, bytes)?);
        let name = name.copy(self.alloc)?;
        self.files.insert(name, kept)?;
        Ok(())
    }
}
