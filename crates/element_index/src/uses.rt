//! Uses as what gives names to elements, and the squares of those names.
ghost use Rattle.std.specs.Prelude.{◌≡◌, ◌<◌, [], ◌∷◌, None as Nothing, IfNone, IfSome};
ghost use Rattle.geo_core.specs.Elements.{IsLawful};
ghost use Rattle.ext_model.specs.LawfulArrays.{HasIdForm};
ghost use Rattle.element_index.specs.GivenNames.{element_ids};
ghost use Rattle.element_index.specs.Squares.{grid_area, one_square, raised, IsBlock, LiesLow};

use crate::limits::{MOST_IDS, ROWS_OF_AN_ID, WHOLE_COLUMN};
use crate::name_parts::indexed_parts;
use ext_model::is_use_id;
use geo_core::{Grid, Rect};
use names_lists::Name;

/// What a use says of the names of its elements: its id, and the grid of an array.
#[derive(Debug)]
pub struct UseElements {
    pub id: Name,
    pub grid: Option<Grid>,
}

impl Drop for UseElements {
    fn drop(self) {
        let UseElements { id: _, grid: _ } = self;
    }
}

/// The squares of names that have one id.
#[derive(Clone, Copy)]
pub struct Block<'a> {
    pub id: &'a [u8],
    /// Where they are if the id is the first of all.
    pub area: Rect,
}

/// The rectangle of one square.
pub fn one_square(x: i64, y: i64) -> Rect
    requires { LiesLow (one_square x y) }
    ensures { result ≡ one_square x y }
{
    Rect {
        xlo: x,
        ylo: y,
        xhi: x + 1,
        yhi: y + 1,
    }
}

/// The squares of the indices of a grid.
fn grid_area(grid: &Grid) -> Rect
    requires { IsLawful grid.now }
    ensures { result ≡ grid_area grid.now }
{
    Rect {
        xlo: grid.xlo.min(grid.xhi),
        ylo: grid.ylo.min(grid.yhi),
        xhi: grid.xlo.max(grid.xhi) + 1,
        yhi: grid.ylo.max(grid.yhi) + 1,
    }
}

/// The area in the rows of the id of this number.
pub fn raised(area: Rect, number: usize) -> Rect
    requires low { LiesLow area }
    requires few { number < MOST_IDS }
    ensures { result ≡ raised area number }
{
    let up = number as i64 * ROWS_OF_AN_ID;
    Rect {
        xlo: area.xlo,
        ylo: area.ylo + up,
        xhi: area.xhi,
        yhi: area.yhi + up,
    }
}

/// The square of a name of one of the two forms that names of elements have.
pub fn named_block(name: &[u8]) -> Option<Block<'_>>
    ensures some { IfSome result (λ block. IsBlock (name.now ∷ []) block.id.now block.area) }
    ensures none { IfNone result (HasIdForm Nothing name.now → ⊥) }
{
    if is_use_id(name) {
        return Some(Block {
            id: name,
            area: one_square(WHOLE_COLUMN, 0),
        });
    }
    let (id, i, j) = indexed_parts(name)?;
    Some(Block {
        id,
        area: one_square(i, j),
    })
}

impl UseElements {
    /// The squares of the names of the use's elements.
    pub(crate) fn block(&self) -> Block<'_>
        requires { HasIdForm self.now.grid self.now.id }
        ensures { IsBlock (element_ids self.now.id self.now.grid) result.id.now result.area }
    {
        let id = self.id.bytes();
        match &self.grid {
            Some(grid) => Block {
                id,
                area: grid_area(grid),
            },
            None => match named_block(id) {
                Some(block) => block,
                None => unreachable!(),
            },
        }
    }
}
