//! The plane.
ghost use Rattle.std.specs.Prelude.{[], ◌≡◌, List as Items, All, AllPairs, OnOk, OnErr, IsOkUnless};
ghost use Rattle.geo_core.specs.declared.squares.Piece.{Piece as OnePiece};
ghost use Rattle.geo_core.specs.Areas.{AreDisjoint, IsNear};
ghost use Rattle.geo_core.specs.Covering.{IsProper};
ghost use Rattle.geo_core.specs.Planes.{AreSame};
ghost use Rattle.run_plane.specs.Contents.{number_in, IsReady};

use crate::changes::{Change, change_for};
use crate::listings::{box_of, pieces_between, strips_of, tiles_of};
use crate::rows::{Row, runs_at};
use crate::runs::value_at;
use geo_core::{PLANE_EDGE, Piece, Plane, PlaneFault, Rect, Square};
use std::alloc::Global;
use std::marker::Model;

/// A plane as rows of runs. Setting a piece takes the time of the rows that it spans and their runs, and
/// moves the list of rows.
#[derive(Debug, Drop)]
pub struct RunPlane {
    alloc: Global,
    rows: Vec<Row>,
    change: Change,
}

impl Model for RunPlane {
    ghost use Rattle.run_plane.specs.Contents.{Contents, IsRunPlane, contents_of};

    ghost Value = { Contents };

    ghost view = { λ plane. contents_of plane.rows plane.change };

    ghost invariant = { λ plane. IsRunPlane plane.rows plane.change };
}

impl RunPlane {
    /// A plane whose squares are all 0. It takes no memory.
    pub fn new(alloc: Global) -> RunPlane
        ensures { result ≡ record { rows = []; next = [] } }
    {
        RunPlane {
            alloc,
            rows: Vec::new(alloc),
            change: Change {
                from: 0,
                until: 0,
                rows: Vec::new(alloc),
            },
        }
    }
}

impl Plane for RunPlane {
    ghost value_at = { number_in };

    ghost ready = { IsReady };

    fn at(&self, square: Square) -> u8 {
        value_at(runs_at(self.rows.as_slice(), square.y), square.x)
    }

    /// It is never `Full`.
    fn reserve(&mut self, pieces: &[Piece]) -> Result<(), PlaneFault>
        requires proper { All (λ piece. IsProper piece.area) pieces.now }
        requires near { All (λ piece. IsNear piece.area) pieces.now }
        requires apart { AllPairs (λ a b. AreDisjoint a.area b.area) pieces.now }
        ensures ready { OnOk result (IsReady self.new pieces.now) }
        ensures same { AreSame (number_in self.old) (number_in self.new) }
        ensures still_ready { OnErr result ((others : Items OnePiece) → IsReady self.old others → IsReady self.new others) }
        ensures memory { IsOkUnless result PlaneFault.Memory }
    {
        let change = change_for(self.alloc, self.rows.as_slice(), pieces)?;
        self.rows.reserve(change.rows.len())?;
        self.change = change;
        Ok(())
    }

    fn commit(&mut self, _pieces: &[Piece]) {
        self.change.put_into(&mut self.rows);
    }

    fn tiles_in(&self, area: Rect) -> Result<Vec<Piece>, PlaneFault> {
        let pieces = pieces_between(self.alloc, self.rows.as_slice(), area.ylo, area.yhi)?;
        Ok(tiles_of(self.alloc, pieces.as_slice(), &area)?)
    }

    fn strips(&self, value: u8) -> Result<Vec<Rect>, PlaneFault> {
        let pieces = pieces_between(self.alloc, self.rows.as_slice(), -PLANE_EDGE, PLANE_EDGE)?;
        Ok(strips_of(self.alloc, pieces.as_slice(), value)?)
    }

    fn box_of(&self) -> Option<Rect> {
        box_of(self.rows.as_slice())
    }
}
