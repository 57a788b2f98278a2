//! A source, a sink and a shelf in memory whose calls fail where their numbers are listed.
//!
//! They do what the forms that never fail do, and count their calls. A call that is to fail does nothing else.
ghost use Rattle.std.specs.Prelude.{◌≡◌, Some, IfOk, IfSome};
ghost use Rattle.std.specs.Option.{option_copied};
ghost use Rattle.outside_io.specs.CallPlans.{plan_of};
ghost use Rattle.outside_io.specs.Files.{bytes_of, names_of};

use crate::calls::{Calls, raised};
use crate::faultless::{FaultlessShelf, FaultlessSink, FaultlessSource};
use crate::faults::{Failed, PutFault, ShelfFault};
use crate::outside::{Shelf, Sink, Source};
use names_lists::Name;
use std::alloc::Global;

/// A source in memory, some of whose calls fail.
#[derive(Drop)]
pub struct MemorySource {
    source: FaultlessSource,
    calls: Calls,
    faults: u64,
}

impl MemorySource {
    /// This source, whose calls of these numbers fail. The first call has number 1.
    pub fn new(source: FaultlessSource, failing: Vec<u64>) -> MemorySource
        ensures planned { ⟦<MemorySource as Source>⟧.plan result ≡ Some (plan_of failing.items) }
        ensures content { ⟦<MemorySource as Source>⟧.left result ≡ ⟦<FaultlessSource as Source>⟧.left source }
        ensures no_faults { ⟦<MemorySource as Source>⟧.faults result ≡ 0 }
    {
        MemorySource {
            source,
            calls: Calls::new(failing),
            faults: 0,
        }
    }

    /// How many calls were made.
    pub fn calls(&self) -> u64
        ensures { IfSome (⟦<MemorySource as Source>⟧.plan self.now) (λ plan. result ≡ plan.made) }
    {
        self.calls.made()
    }
}

impl Source for MemorySource {
    ghost use Rattle.std.specs.Prelude.{Some};

    ghost left = { λ memory. ⟦<FaultlessSource as Source>⟧.left memory.source };

    ghost faults = { λ memory. memory.faults };

    ghost plan = { λ memory. Some memory.calls };

    fn read(&mut self, buf: &mut [u8]) -> Result<usize, Failed> {
        if self.calls.is_next_to_fail() {
            self.faults = raised(self.faults);
            return Err(Failed);
        }
        self.source.read(buf)
    }
}

/// A sink in memory, some of whose calls fail.
#[derive(Drop)]
pub struct MemorySink {
    sink: FaultlessSink,
    calls: Calls,
    faults: u64,
}

impl MemorySink {
    /// This sink, whose calls of these numbers fail. The first call has number 1.
    pub fn new(sink: FaultlessSink, failing: Vec<u64>) -> MemorySink
        ensures planned { ⟦<MemorySink as Sink>⟧.plan result ≡ Some (plan_of failing.items) }
        ensures content { ⟦<MemorySink as Sink>⟧.written result ≡ ⟦<FaultlessSink as Sink>⟧.written sink }
        ensures no_faults { ⟦<MemorySink as Sink>⟧.faults result ≡ 0 }
    {
        MemorySink {
            sink,
            calls: Calls::new(failing),
            faults: 0,
        }
    }

    /// What was written.
    pub fn bytes(&self) -> &[u8]
        ensures { ⟦<MemorySink as Sink>⟧.written self.now ≡ Some result.now }
    {
        self.sink.bytes()
    }

    /// How many calls were made.
    pub fn calls(&self) -> u64
        ensures { IfSome (⟦<MemorySink as Sink>⟧.plan self.now) (λ plan. result ≡ plan.made) }
    {
        self.calls.made()
    }
}

impl Sink for MemorySink {
    ghost use Rattle.std.specs.Prelude.{Some};

    ghost written = { λ memory. ⟦<FaultlessSink as Sink>⟧.written memory.sink };

    ghost faults = { λ memory. memory.faults };

    ghost plan = { λ memory. Some memory.calls };

    fn write(&mut self, piece: &[u8]) -> Result<usize, PutFault> {
        if self.calls.is_next_to_fail() {
            self.faults = raised(self.faults);
            return Err(PutFault::Failed);
        }
        self.sink.write(piece)
    }
}

/// A shelf in memory, some of whose calls fail.
#[derive(Drop)]
pub struct MemoryShelf {
    shelf: FaultlessShelf,
    fetches: Calls,
    stores: Calls,
    fetch_faults: u64,
    store_faults: u64,
}

impl MemoryShelf {
    /// This shelf, whose fetches and stores of these numbers fail. The first fetch has number 1, and so has the first store.
    pub fn new(
        shelf: FaultlessShelf,
        failing_fetches: Vec<u64>,
        failing_stores: Vec<u64>,
    ) -> MemoryShelf
        ensures planned_fetches { ⟦<MemoryShelf as Shelf>⟧.fetch_plan result ≡ Some (plan_of failing_fetches.items) }
        ensures planned_stores { ⟦<MemoryShelf as Shelf>⟧.store_plan result ≡ Some (plan_of failing_stores.items) }
        ensures content { ⟦<MemoryShelf as Shelf>⟧.files result ≡ ⟦<FaultlessShelf as Shelf>⟧.files shelf }
        ensures no_fetch_faults { ⟦<MemoryShelf as Shelf>⟧.fetch_faults result ≡ 0 }
        ensures no_store_faults { ⟦<MemoryShelf as Shelf>⟧.store_faults result ≡ 0 }
    {
        MemoryShelf {
            shelf,
            fetches: Calls::new(failing_fetches),
            stores: Calls::new(failing_stores),
            fetch_faults: 0,
            store_faults: 0,
        }
    }

    /// The names that have a file: each once, in the order of their bytes. It counts as no call.
    pub fn names(&self, alloc: Global) -> Result<Vec<Name>, PutFault>
        ensures { IfOk result (λ names. IfSome (⟦<MemoryShelf as Shelf>⟧.files self.now) (λ held.
            names.items ≡ names_of held)) }
    {
        self.shelf.names(alloc)
    }

    /// The bytes of a file of any length. It counts as no call.
    pub fn file(&self, name: &Name) -> Option<&[u8]>
        ensures { IfSome (⟦<MemoryShelf as Shelf>⟧.files self.now) (λ held.
            bytes_of held name.now ≡ option_copied result) }
    {
        self.shelf.file(name)
    }

    /// How many fetches were made.
    pub fn fetches(&self) -> u64
        ensures { IfSome (⟦<MemoryShelf as Shelf>⟧.fetch_plan self.now) (λ plan. result ≡ plan.made) }
    {
        self.fetches.made()
    }

    /// How many stores were made.
    pub fn stores(&self) -> u64
        ensures { IfSome (⟦<MemoryShelf as Shelf>⟧.store_plan self.now) (λ plan. result ≡ plan.made) }
    {
        self.stores.made()
    }
}

impl Shelf for MemoryShelf {
    ghost use Rattle.std.specs.Prelude.{Some};

    ghost files = { λ memory. ⟦<FaultlessShelf as Shelf>⟧.files memory.shelf };

    ghost absences = { λ memory. ⟦<FaultlessShelf as Shelf>⟧.absences memory.shelf };

    ghost overlengths = { λ memory. ⟦<FaultlessShelf as Shelf>⟧.overlengths memory.shelf };

    ghost fetch_faults = { λ memory. memory.fetch_faults };

    ghost store_faults = { λ memory. memory.store_faults };

    ghost fetch_plan = { λ memory. Some memory.fetches };

    ghost store_plan = { λ memory. Some memory.stores };

    fn fetch(&mut self, alloc: Global, name: &Name) -> Result<Vec<u8>, ShelfFault> {
        if self.fetches.is_next_to_fail() {
            self.fetch_faults = raised(self.fetch_faults);
            return Err(ShelfFault::Failed);
        }
        self.shelf.fetch(alloc, name)
    }

    fn store(&mut self, name: &Name, bytes: &[u8]) -> Result<(), PutFault> {
        if self.stores.is_next_to_fail() {
            self.store_faults = raised(self.store_faults);
            return Err(PutFault::Failed);
        }
        self.shelf.store(name, bytes)
    }
}
