//! Lists: vectors that contracts see as the list of their items.
ghost use Rattle.std.specs.Prelude.{◌≡◌, length};
ghost use Rattle.std.specs.Borrow.{Array, Lends, sem};
ghost use Rattle.std.specs.List.{refill};
ghost use Rattle.names_lists.specs.contracts.lists.List.{the_row};

use std::marker::Model;

/// Items in order. Contracts see it as a list, and so compare two of them by their items alone.
#[derive(Debug, Drop)]
pub struct List<T> {
    entries: Vec<T>,
}

impl<T> Model for List<T> {
    ghost use Rattle.std.specs.Prelude.{List as Items};

    ghost Value = { Items T };

    ghost view = { λ list. list.entries.items };
}

impl<T> List<T> {
    /// The list of a vector's items. It takes no memory.
    pub fn of(items: Vec<T>) -> List<T>
        ensures { result ≡ items.items }
    {
        List { entries: items }
    }

    /// The vector of the list's items. It takes no memory.
    pub fn into_vec(self) -> Vec<T>
        ensures { result.items ≡ self }
    {
        let List { entries } = self;
        entries
    }

    /// The items in order.
    pub fn items(&self) -> &[T]
        ensures { result.now ≡ self.now }
    {
        self.entries.as_slice()
    }

    /// The items in order, to be changed in place. The list then has the changed items, as many as before.
    pub fn items_mut(&mut self) -> &mut [T]
        // `refill` writes the items over the old ones. A slice keeps its length, so the list ends as the slice does.
        ensures* writes_back { sem 𝓛 (Lends (the_row T.row) (Array T.row 0) self.entry result
            (refill (length self.old) self.old)) }
        ensures value { result.now ≡ self.old }
    {
        self.entries.as_mut_slice()
    }
}
