//! The index of the names that uses give.
ghost use Rattle.std.specs.Prelude.{◌≡◌, ◌≤◌, [], ◌∷◌, ◌++◌, length, slice_get, Some as Just, IfOk, OnErr, OnOk};
ghost use Rattle.ext_model.specs.LawfulArrays.{HasIdForm};
ghost use Rattle.element_index.specs.GivenNames.{gives_again};
ghost use Rattle.element_index.specs.Holds.{Holds, IsGrown};

use crate::forests::Forest;
use crate::limits::MOST_IDS;
use crate::uses::{UseElements, raised};
use geo_core::Rect;
use name_index::NameIndex;
use std::alloc::{AllocError, Global};
use std::marker::Model;

/// Uses, whose elements are found by their names. Contracts see it as the list of the uses.
///
/// A use is one rectangle of squares, however many elements it has. Time and memory are as told below where no use gives a name
/// again.
pub struct ElementIndex {
    ids: NameIndex,
    uses: Vec<UseElements>,
    areas: Forest,
}

impl Drop for ElementIndex {
    fn drop(self) {
        let ElementIndex {
            ids: _,
            uses: _,
            areas: _,
        } = self;
    }
}

impl Model for ElementIndex {
    ghost use Rattle.std.specs.Prelude.{List};
    ghost use Rattle.element_index.specs.declared.uses.UseElements.{UseElements as OneUse};
    ghost use Rattle.element_index.specs.Holds.{Holds};

    ghost Value = { List OneUse };

    ghost view = { λ index. index.uses.items };

    ghost invariant = { λ index. Holds index.ids index.uses.items index.areas };
}

/// The number of an id, which is added where it is new. It is refused for want of memory, and past [`MOST_IDS`].
fn number_of(ids: &mut NameIndex, id: &[u8]) -> Result<usize, AllocError>
    requires few { length ids.old ≤ MOST_IDS }
    ensures number { IfOk result (λ number. slice_get ids.new number ≡ Just id.now) }
    ensures grown { OnOk result (IsGrown ids.old ids.new id.now) }
    ensures refused { OnErr result (ids.new ≡ ids.old) }
{
    if let Some(number) = ids.find(id) {
        return Ok(number);
    }
    let number = ids.len();
    if number >= MOST_IDS {
        return Err(AllocError);
    }
    ids.insert(id)?;
    Ok(number)
}

impl ElementIndex {
    /// No uses. It takes no memory.
    pub fn new(alloc: Global) -> ElementIndex
        ensures { result ≡ [] }
    {
        ElementIndex {
            ids: NameIndex::new(alloc),
            uses: Vec::new(alloc),
            areas: Forest::new(alloc),
        }
    }

    /// Whether the use gives an element a name that one of the uses gives. It takes no memory, and a walk down each of a few trees.
    pub fn gives_again(&self, used: &UseElements) -> bool
        requires { HasIdForm used.now.grid used.now.id }
        ensures { result ≡ gives_again self.now used.now }
    {
        let block = used.block();
        match self.ids.find(block.id) {
            Some(number) => self.areas.meets(raised(block.area, number)),
            None => false,
        }
    }

    /// Adds a use. Want of memory refuses, and an id past as many as fit the numbers of squares; nothing is changed then. Many uses take
    /// the time of about as many sorts as their number has digits in binary.
    pub fn add(&mut self, used: UseElements) -> Result<(), AllocError>
        requires { HasIdForm used.grid used.id }
        ensures added { OnOk result (self.new ≡ self.old ++ used ∷ []) }
        ensures refused { OnErr result (self.new ≡ self.old) }
    {
        let block = used.block();
        let number = number_of(&mut self.ids, block.id)?;
        let area = raised(block.area, number);
        self.uses.push(used)?;
        if let Err(error) = self.areas.add(area) {
            self.uses.pop();
            return Err(error);
        }
        Ok(())
    }

    /// The numbers of the ids, the uses, and all their rectangles.
    pub(crate) fn into_parts(self) -> Result<(NameIndex, Vec<UseElements>, Vec<Rect>), AllocError>
        ensures { IfOk result (λ parts. parts.1.items ≡ self × Holds parts.0 self parts.2.items) }
    {
        let ElementIndex { ids, uses, areas } = self;
        let rects = areas.rects()?;
        Ok((ids, uses, rects))
    }
}
