//! The two sheets of tiles of a plane: the plane, and the one on which changes are made ready.
ghost use Rattle.std.specs.Prelude.{◌≡◌, ◌↔◌, IsTrue, IfOk, IfSome, IsOkUnless};
ghost use Rattle.geo_core.specs.declared.squares.Square.{Square as OneSquare};
ghost use Rattle.geo_core.specs.Covering.{Covers};
ghost use Rattle.geo_core.specs.Planes.{plane_range, AreSame, AreSet};
ghost use Rattle.tile_plane.specs.Sheets.{IsSheet, AreSettable, next_of, IsSecond};
ghost use Rattle.tile_plane.specs.Tiles.{value_at, IsTaken};

use crate::marks::Marks;
use crate::pieces::set_piece;
use crate::stores::Store;
use crate::tiles::Tile;
use crate::walks::find;
use geo_core::{PLANE_EDGE, Piece, PlaneFault, Rect, Square};
use std::alloc::Global;
use std::mem;

/// The tiles of a plane.
#[derive(Drop)]
pub struct Sheet {
    pub store: Store,
    /// The tile at which the last piece was set.
    pub hint: u32,
    /// Tiles at which pieces were set before.
    pub marks: Marks,
}

/// The other sheet of a plane.
#[derive(Drop)]
pub enum Second {
    /// There is none.
    Missing,
    /// What the plane was before the last change, which set the pieces.
    Behind(Sheet, Vec<Piece>),
    /// What the plane will be, with the pieces of the change where setting them again is less work than a copy.
    Ahead(Sheet, Option<Vec<Piece>>),
}

impl Sheet {
    /// A plane whose squares are all 0.
    pub fn new(alloc: Global) -> Result<Sheet, PlaneFault>
        ensures sheet { IfOk result IsSheet }
        ensures space { IfOk result (λ sheet. (square : OneSquare) → value_at sheet.store square ≡ 0) }
        ensures memory { IsOkUnless result PlaneFault.Memory }
    {
        let mut store = Store::new(alloc);
        let whole = Tile {
            area: Rect {
                xlo: -PLANE_EDGE,
                ylo: -PLANE_EDGE,
                xhi: PLANE_EDGE,
                yhi: PLANE_EDGE,
            },
            value: 0,
            above: 0,
            right: 0,
            below: 0,
            left: 0,
        };
        let Ok(hint) = store.insert(whole) else {
            return Err(PlaneFault::Memory);
        };
        Ok(Sheet {
            store,
            hint,
            marks: Marks::new(alloc),
        })
    }

    /// The value at the square.
    pub fn at(&self, square: Square) -> u8
        requires { IsSheet self.now }
        ensures { result ≡ value_at self.now.store square }
    {
        if !is_in_range(&square) {
            return 0;
        }
        self.store
            .get(find(&self.store, square, self.near(square)))
            .value
    }

    fn copy(&self) -> Result<Sheet, PlaneFault>
        requires { IsSheet self.now }
        ensures sheet { IfOk result IsSheet }
        ensures same { IfOk result (λ copy. AreSame (value_at self.now.store) (value_at copy.store)) }
        ensures memory { IsOkUnless result PlaneFault.Memory }
    {
        let Ok(store) = self.store.copy() else {
            return Err(PlaneFault::Memory);
        };
        let marks = self.marks.copy()?;
        Ok(Sheet {
            store,
            hint: self.hint,
            marks,
        })
    }

    /// A tile at which a search for the square begins.
    pub fn near(&self, square: Square) -> u32
        requires { IsSheet self.now }
        ensures { IsTaken self.now.store result }
    {
        match self.marks.near(&self.store, square) {
            Some(id) => id,
            None => self.hint,
        }
    }

    /// A tile at which a search for the first of the areas begins.
    pub fn near_first(&self, areas: &[Rect]) -> u32
        requires { IsSheet self.now }
        ensures { IsTaken self.now.store result }
    {
        match areas.first() {
            Some(area) => self.near(area.corner()),
            None => self.hint,
        }
    }

    /// The sheet with the pieces set. The search for the first begins near it, and each other where the last piece was set.
    pub fn with_pieces(mut self, pieces: &[Piece]) -> Result<Sheet, PlaneFault>
        requires sheet { IsSheet self }
        requires settable { AreSettable pieces.now }
        ensures sheet { IfOk result IsSheet }
        ensures set { IfOk result (λ sheet. AreSet (value_at self.store) (value_at sheet.store) pieces.now) }
        ensures memory { IsOkUnless result PlaneFault.Memory }
    {
        self.begin_near(pieces);
        let mut sheet = self.with_each(pieces)?;
        sheet.mark_last(pieces)?;
        Ok(sheet)
    }

    /// Searches begin near the first of the pieces.
    fn begin_near(&mut self, pieces: &[Piece])
        requires { IsSheet self.old }
        ensures sheet { IsSheet self.new }
        ensures same { self.new.store ≡ self.old.store }
    {
        if let Some(piece) = pieces.first() {
            self.hint = self.near(piece.area.corner());
        }
    }

    /// Marks where the last of the pieces was set.
    fn mark_last(&mut self, pieces: &[Piece]) -> Result<(), PlaneFault>
        ensures store { self.new.store ≡ self.old.store }
        ensures hint { self.new.hint ≡ self.old.hint }
        ensures memory { IsOkUnless result PlaneFault.Memory }
    {
        if let Some(piece) = pieces.last() {
            self.marks
                .mark(&self.store, piece.area.corner(), self.hint)?;
        }
        Ok(())
    }

    /// The sheet with the pieces set. Each search begins where the last piece was set.
    fn with_each(mut self, pieces: &[Piece]) -> Result<Sheet, PlaneFault>
        requires sheet { IsSheet self }
        requires settable { AreSettable pieces.now }
        ensures sheet { IfOk result IsSheet }
        ensures set { IfOk result (λ sheet. AreSet (value_at self.store) (value_at sheet.store) pieces.now) }
        ensures memory { IsOkUnless result PlaneFault.Memory }
    {
        for piece in pieces {
            let Ok(hint) = set_piece(&mut self.store, piece, self.hint) else {
                return Err(PlaneFault::Memory);
            };
            self.hint = hint;
            self.marks
                .mark_some(&self.store, piece.area.corner(), hint)?;
        }
        Ok(self)
    }
}

impl Second {
    /// A sheet with the values of the first, to set pieces on. It may take the second, unless a change is ready there.
    pub fn base(&mut self, first: &Sheet) -> Result<Sheet, PlaneFault>
        requires first { IsSheet first.now }
        requires second { IsSecond first.now.store self.old }
        ensures base { IfOk result IsSheet }
        ensures same { IfOk result (λ base. AreSame (value_at first.now.store) (value_at base.store)) }
        ensures second { IsSecond first.now.store self.new }
        ensures ready { next_of self.new ≡ next_of self.old }
        ensures memory { IsOkUnless result PlaneFault.Memory }
    {
        match mem::replace(self, Second::Missing) {
            Second::Behind(sheet, pieces) => {
                let base = sheet.with_pieces(&pieces)?;
                Ok(base)
            }
            other => {
                *self = other;
                let base = first.copy()?;
                Ok(base)
            }
        }
    }

    /// Makes the change that is ready, if one is: the second sheet becomes the first. It takes no memory.
    pub fn exchange(&mut self, first: &mut Sheet)
        requires first { IsSheet first.old }
        requires second { IsSecond first.old.store self.old }
        ensures first { IsSheet first.new }
        ensures second { IsSecond first.new.store self.new }
        ensures exchanged { IfSome (next_of self.old) (λ next. first.new.store ≡ next) }
    {
        if let Second::Ahead(next, again) = mem::replace(self, Second::Missing) {
            let last = mem::replace(first, next);
            if let Some(pieces) = again {
                *self = Second::Behind(last, pieces);
            }
        }
    }
}

/// Whether the range of planes has the square.
fn is_in_range(square: &Square) -> bool
    ensures { IsTrue result ↔ Covers plane_range square.now }
{
    -PLANE_EDGE <= square.x
        && square.x < PLANE_EDGE
        && -PLANE_EDGE <= square.y
        && square.y < PLANE_EDGE
}
