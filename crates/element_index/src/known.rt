//! The names of elements, as what paths are asked of.
ghost use Rattle.std.specs.Prelude.{◌≡◌, ◌+ℤ◌, ◌≤ℤ◌, pos, IfOk};
ghost use Rattle.std.specs.Int.{w32};
ghost use Rattle.std.specs.Int.RustNames.{FitsSigned};
ghost use Rattle.std.specs.List.{list_all, range_with_len};
ghost use Rattle.geo_core.specs.Elements.{indices};
ghost use Rattle.ext_model.specs.ElementNames.{indexed_name};
ghost use Rattle.element_index.specs.GivenNames.{is_among, names_in};

use crate::index::ElementIndex;
use crate::uses::{UseElements, named_block, one_square, raised};
use geo_strips::strips;
use name_index::NameIndex;
use rect_trees::RectTree;
use std::alloc::{AllocError, Global};
use std::marker::Model;

/// Uses, whose elements are known by their names, one by one and in rows. Contracts see it as the list of the uses.
pub struct KnownElements {
    ids: NameIndex,
    uses: Vec<UseElements>,
    // of the squares of all names, so that a row of names lies in one of them
    strips: RectTree,
}

impl Drop for KnownElements {
    fn drop(self) {
        let KnownElements {
            ids: _,
            uses: _,
            strips: _,
        } = self;
    }
}

impl Model for KnownElements {
    ghost use Rattle.std.specs.Prelude.{List};
    ghost use Rattle.element_index.specs.declared.uses.UseElements.{UseElements as OneUse};
    ghost use Rattle.element_index.specs.Holds.{HoldsStrips};

    ghost Value = { List OneUse };

    ghost view = { λ known. known.uses.items };

    ghost invariant = { λ known. HoldsStrips known.ids known.uses.items known.strips };
}

impl KnownElements {
    /// The uses of an index. Want of memory alone refuses. It takes the time of a few sorts of the uses.
    pub fn of(alloc: Global, index: ElementIndex) -> Result<KnownElements, AllocError>
        ensures { IfOk result (λ known. known ≡ index) }
    {
        let (ids, uses, areas) = index.into_parts()?;
        let strips = strips(alloc, &areas)?;
        Ok(KnownElements {
            ids,
            uses,
            strips: RectTree::new(alloc, &strips)?,
        })
    }

    /// Whether an element has the name. It takes no memory, and a walk down a tree.
    pub fn has(&self, name: &[u8]) -> bool
        ensures { result ≡ is_among name.now (names_in self.now) }
    {
        let ids = &self.ids;
        let Some(block) = named_block(name) else {
            return false;
        };
        let Some(number) = ids.find(block.id) else {
            return false;
        };
        self.strips
            .some_meeting(raised(block.area, number))
            .is_some()
    }

    /// Whether elements have all the names of the id with this second index and the first indices from `lo` to `hi`. It takes no
    /// memory, and a walk down a tree.
    pub fn has_row(&self, id: &[u8], lo: i64, hi: i64, j: i64) -> bool
        requires lo_fits { FitsSigned w32 lo }
        requires hi_fits { FitsSigned w32 hi }
        requires j_fits { FitsSigned w32 j }
        requires ordered { lo ≤ℤ hi }
        ensures { result ≡ list_all (λ k. is_among (indexed_name id.now (lo +ℤ pos k) j) (names_in self.now)) (range_with_len 0 (indices lo hi)) }
    {
        let Some(number) = self.ids.find(id) else {
            return false;
        };
        match self.strips.some_meeting(raised(one_square(lo, j), number)) {
            Some(strip) => hi < strip.xhi,
            None => false,
        }
    }
}
