//! Slots: what lies under a number of an arena.
ghost use Rattle.std.specs.Prelude.{◌≡◌, Some, IsSome, is_some};
ghost use Rattle.std.specs.Borrow.{Lends, sem};
ghost use Rattle.tile_arena.specs.Slots.{value_of};
ghost use Rattle.tile_arena.specs.contracts.slots.Slot.{the_row};

/// A value; or none, and then the number of the next empty slot.
#[derive(Clone, Copy)]
pub(crate) enum Slot<T> {
    Live(T),
    Empty(u32),
}

impl<T> Slot<T> {
    /// Whether there is a value.
    pub(crate) fn is_live(&self) -> bool
        ensures { result ≡ is_some (value_of self.now) }
    {
        matches!(self, Slot::Live(_))
    }

    /// The value.
    pub(crate) fn value(&self) -> &T
        requires { IsSome (value_of self.now) }
        ensures { value_of self.now ≡ Some result.now }
    {
        match self {
            Slot::Live(value) => value,
            Slot::Empty(_) => unreachable!(),
        }
    }

    /// The value, to be changed in place.
    pub(crate) fn value_mut(&mut self) -> &mut T
        requires { IsSome (value_of self.old) }
        ensures* lends { sem 𝓛 (Lends (the_row T.row) T.row self.entry result Slot.Live) }
        ensures value { value_of self.old ≡ Some result.now }
    {
        match self {
            Slot::Live(value) => value,
            Slot::Empty(_) => unreachable!(),
        }
    }
}
