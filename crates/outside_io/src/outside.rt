//! What bytes come from, what they go to, and where files lie.
ghost use Rattle.std.specs.Prelude.{◌≡◌, ◌↔◌, ℕ, ◌<◌, ◌≤◌, [], List, Option, length, take, vec_len};
ghost use Rattle.std.specs.Prelude.{IfOk, IfSome, IsSomeAnd, OnOk, OnErr, IsErr, IsErrOf};
ghost use Rattle.outside_io.specs.CallPlans.{CallPlan, told_after_call, IsListed};
ghost use Rattle.outside_io.specs.Counts.{Rose};
ghost use Rattle.outside_io.specs.Refusals.{UnlessPutFailed, UnlessFetchFailed};
ghost use Rattle.outside_io.specs.ToldBytes.{ToldBytes, with_front, with_back};
ghost use Rattle.outside_io.specs.Files.{Files, bytes_of, told_with_file, ToldSameElsewhere};

use crate::faults::{Failed, PutFault, ShelfFault};
use crate::limits::LONGEST_FILE;
use names_lists::Name;
use std::alloc::Global;

/// Where bytes come from.
pub trait Source {
    /// The bytes that are left to be read, where the source tells them.
    ghost left: { Self → ToldBytes };

    /// How many calls have failed, up to the last value of a counter.
    ghost faults: { Self → ℕ };

    /// Which calls fail, where the source tells it.
    ghost plan: { Self → Option CallPlan };

    /// Takes the next bytes, fills the front of the buffer with them and says how many they are.
    /// There are 0 of them for an empty buffer and at the end of the input.
    fn read(&mut self, buf: &mut [u8]) -> Result<usize, Failed>
        ensures within { IfOk result (λ count. count ≤ length buf.new) }

        // What filled the buffer was the first of what was left, and is no longer left.
        ensures taken { IfOk result (λ count. left self.old ≡ with_front (take count buf.new) (left self.new)) }
        ensures ended { 0 < length buf.new →
            IfOk result (λ count. IfSome (left self.old) (λ bytes. (count ≡ 0) ↔ (bytes ≡ []))) }

        ensures failed { OnErr result (Rose (faults self.old) (faults self.new)) }
        ensures calm { OnOk result (faults self.new ≡ faults self.old) }
        ensures no_fall { faults self.old ≤ faults self.new }

        // Where it is told which calls fail, those do and no others.
        ensures counted { plan self.new ≡ told_after_call (plan self.old) }
        ensures planned { IfSome (plan self.new) (λ plan. IsErr result ↔ IsListed plan) };
}

/// Where bytes go to.
pub trait Sink {
    /// The bytes that were written, where the sink tells them.
    ghost written: { Self → ToldBytes };

    /// How many calls have failed, up to the last value of a counter.
    ghost faults: { Self → ℕ };

    /// Which calls fail, where the sink tells it.
    ghost plan: { Self → Option CallPlan };

    /// Writes bytes from the front of the piece, and says how many they are: at least one, unless the piece is empty.
    fn write(&mut self, piece: &[u8]) -> Result<usize, PutFault>
        ensures within { IfOk result (λ count. count ≤ length piece.now) }
        ensures some { 0 < length piece.now → IfOk result (λ count. 0 < count) }
        ensures appended { IfOk result (λ count.
            written self.new ≡ with_back (written self.old) (take count piece.now)) }
        ensures refused { OnErr result (written self.new ≡ written self.old) }

        ensures failed { IsErrOf result PutFault.Failed → Rose (faults self.old) (faults self.new) }
        ensures calm { UnlessPutFailed result (faults self.new ≡ faults self.old) }
        ensures no_fall { faults self.old ≤ faults self.new }

        // Where it is told which calls fail, those do and no others.
        ensures counted { plan self.new ≡ told_after_call (plan self.old) }
        ensures planned { IfSome (plan self.new) (λ plan. IsErrOf result PutFault.Failed ↔ IsListed plan) };
}

/// Where files lie, each under its name.
pub trait Shelf {
    /// The files, where the shelf tells them.
    ghost files: { Self → Option Files };

    /// How many calls found no file, up to the last value of a counter.
    ghost absences: { Self → ℕ };

    /// How many calls found a file too long, up to the last value of a counter.
    ghost overlengths: { Self → ℕ };

    /// How many calls of `fetch` have failed, up to the last value of a counter.
    ghost fetch_faults: { Self → ℕ };

    /// How many calls of `store` have failed, up to the last value of a counter.
    ghost store_faults: { Self → ℕ };

    /// Which calls of `fetch` fail, where the shelf tells it.
    ghost fetch_plan: { Self → Option CallPlan };

    /// Which calls of `store` fail, where the shelf tells it.
    ghost store_plan: { Self → Option CallPlan };

    /// The bytes of a file of at most 16 MiB.
    fn fetch(&mut self, alloc: Global, name: &Name) -> Result<Vec<u8>, ShelfFault>
        ensures unchanged { files self.new ≡ files self.old }
        ensures fits { IfOk result (λ bytes. vec_len bytes ≤ LONGEST_FILE) }
        ensures found { IfOk result (λ bytes.
            IfSome (files self.old) (λ held. bytes_of held name.now ≡ Some bytes.items)) }

        // Each refusal has its cause: a count that rose, and where the files are told also the name's bytes.
        ensures absent { IsErrOf result ShelfFault.Absent → Rose (absences self.old) (absences self.new) }
        ensures absent_file { IsErrOf result ShelfFault.Absent →
            IfSome (files self.old) (λ held. bytes_of held name.now ≡ None) }
        ensures too_long { IsErrOf result ShelfFault.TooLong → Rose (overlengths self.old) (overlengths self.new) }
        ensures too_long_file { IsErrOf result ShelfFault.TooLong →
            IfSome (files self.old) (λ held.
            IsSomeAnd (bytes_of held name.now) (λ bytes. LONGEST_FILE < length bytes)) }
        ensures failed { IsErrOf result ShelfFault.Failed → Rose (fetch_faults self.old) (fetch_faults self.new) }

        ensures calm { UnlessFetchFailed result (fetch_faults self.new ≡ fetch_faults self.old) }
        ensures no_store { store_faults self.new ≡ store_faults self.old }
        ensures no_fall_of_absences { absences self.old ≤ absences self.new }
        ensures no_fall_of_overlengths { overlengths self.old ≤ overlengths self.new }
        ensures no_fall_of_faults { fetch_faults self.old ≤ fetch_faults self.new }

        // Where it is told which calls fail, those do and no others.
        ensures counted { fetch_plan self.new ≡ told_after_call (fetch_plan self.old) }
        ensures planned { IfSome (fetch_plan self.new) (λ plan. IsErrOf result ShelfFault.Failed ↔ IsListed plan) }
        ensures no_store_call { store_plan self.new ≡ store_plan self.old };

    /// Puts a file of these bytes under a name, in place of one that is there.
    fn store(&mut self, name: &Name, bytes: &[u8]) -> Result<(), PutFault>
        ensures stored { OnOk result (files self.new ≡ told_with_file (files self.old) name.now bytes.now) }
        ensures unknown { IsErrOf result PutFault.Failed →
            ToldSameElsewhere name.now (files self.old) (files self.new) }
        ensures refused { IsErrOf result PutFault.Memory → files self.new ≡ files self.old }

        ensures failed { IsErrOf result PutFault.Failed → Rose (store_faults self.old) (store_faults self.new) }
        ensures calm { UnlessPutFailed result (store_faults self.new ≡ store_faults self.old) }
        ensures no_fall { store_faults self.old ≤ store_faults self.new }
        ensures no_fetch { fetch_faults self.new ≡ fetch_faults self.old }
        ensures no_absence { absences self.new ≡ absences self.old }
        ensures no_overlength { overlengths self.new ≡ overlengths self.old }

        // Where it is told which calls fail, those do and no others.
        ensures counted { store_plan self.new ≡ told_after_call (store_plan self.old) }
        ensures planned { IfSome (store_plan self.new) (λ plan. IsErrOf result PutFault.Failed ↔ IsListed plan) }
        ensures no_fetch_call { fetch_plan self.new ≡ fetch_plan self.old };
}
