//! The room of a block: places side by side behind one raw pointer, each empty or with an item.
//!
//! The raw pointers of the repository stand here alone, in functions of a few lines. A place is written while it is empty and read while
//! it has an item, so nothing is read before it was written. What lies in the places has nothing to drop, since it is `Copy`.
ghost use Rattle.std.specs.Prelude.{◌≡◌, ℕ, ◌<◌, List, Option, Some, None, length, replicate, get_or, slice_set, IfOk, ⊤};
ghost use Rattle.std.specs.Borrow.{sem};
ghost use Rattle.std.specs.Vec.Ownership.{FitsInBlock};
ghost use base.Fml.{ftrue};
ghost use denote.RawPtr.{Ptr};
ghost use Rattle.tile_arena.specs.Places.{HasItem};
ghost use Rattle.tile_arena.specs.PlaceOwnership.{places_own, places_lend, title_owns};

use std::alloc::{AllocError, Allocator};
use std::marker::{Model, PhantomData};
use std::mem::{align_of, size_of};

/// Where the first place lies. It owns nothing.
pub(crate) struct Start<X> {
    ptr: *mut X,
}

impl<X> Clone for Start<X> {
    ghost is_clone = { λ start copy. copy ≡ start };

    ghost is_infallible = { λ _. ⊤ };

    fn clone(&self) -> Result<Start<X>, AllocError> {
        Ok(*self)
    }
}

impl<X> Copy for Start<X> {}

/// The owner of the places: contracts see where they lie and what each holds. It takes no bytes.
pub(crate) struct Places<X> {
    mark: PhantomData<*const X>,
    ghost at: { Ptr },
    ghost held: { List (Option X) },
}

impl<X> Model for Places<X> {
    ghost also_owns = { λ places. places_own X.row places.at places.held };

    ghost also_shares = { λ places _ κ. places_lend X.row places.at places.held κ };
}

/// The right to give as many places back to the allocator. It takes no bytes.
pub(crate) struct Title<X, A: Allocator> {
    mark: PhantomData<*const (X, A)>,
    ghost at: { Ptr },
    ghost count: { ℕ },
    ghost alloc: { A },
}

impl<X, A: Allocator> Model for Title<X, A> {
    ghost also_owns = { λ title. title_owns X.row (A.dealloc_token title.alloc) title.at title.count };

    ghost also_shares = { λ _ _ _. ftrue };
}

/// Takes room for as many places, all of them empty.
pub(crate) fn allocate<X, A: Allocator>(
    alloc: &A,
    count: usize,
) -> Result<(Start<X>, Places<X>, Title<X, A>), AllocError>
    requires { FitsInBlock X.row count }
    ensures { IfOk result (λ room. (room.1.at ≡ room.0.ptr) × (room.1.held ≡ replicate count None)
        × (room.2.at ≡ room.0.ptr) × (room.2.count ≡ count) × (room.2.alloc ≡ alloc.now)) }
{
    match alloc.allocate(count * size_of::<X>(), align_of::<X>()) {
        Ok(room) => {
            let start = Start {
                ptr: room as *mut X,
            };
            Ok((
                start,
                Places { mark: PhantomData },
                Title { mark: PhantomData },
            ))
        }
        Err(error) => Err(error),
    }
}

/// Gives the room back. What the places hold is forgotten, so it should have nothing to drop.
pub(crate) fn deallocate<X, A: Allocator>(
    alloc: &A,
    start: Start<X>,
    count: usize,
    places: Places<X>,
    title: Title<X, A>,
)
    requires { (places.at ≡ start.ptr) × (length places.held ≡ count) × (title.at ≡ start.ptr) × (title.count ≡ count) × (title.alloc ≡ alloc.now) }
{
    let Places { mark: _ } = places;
    let Title { mark: _ } = title;
    unsafe {
        alloc.deallocate(
            start.ptr as *mut u8,
            count * size_of::<X>(),
            align_of::<X>(),
        );
    }
}

impl<X> Places<X> {
    ghost use Rattle.tile_arena.specs.steps.PlaceLending.{lends_place};

    /// Puts an item into an empty place.
    pub(crate) fn write(&mut self, start: Start<X>, index: usize, item: X)
        requires { (start.ptr ≡ self.old.at) × (index < length self.old.held) × (get_or self.old.held index None ≡ None) }
        ensures { (self.new.at ≡ self.old.at) × (self.new.held ≡ slice_set self.old.held index (Some item)) }
    {
        unsafe { start.ptr.add(index).write(item) }
    }

    /// The item of a place.
    pub(crate) fn get(&self, start: Start<X>, index: usize) -> &X
        requires { (start.ptr ≡ self.now.at) × HasItem self.now.held index }
        ensures { get_or self.now.held index None ≡ Some result.now }
    {
        unsafe { &*start.ptr.add(index) }
    }

    /// The item of a place, to be changed there.
    pub(crate) fn get_mut(&mut self, start: Start<X>, index: usize) -> &mut X
        requires { (start.ptr ≡ self.old.at) × HasItem self.old.held index }
        ensures* writes_back { sem 𝓛 (lends_place X.row self.entry index result) }
        ensures value { get_or self.old.held index None ≡ Some result.now }
    {
        unsafe { &mut *start.ptr.add(index) }
    }
}
