//! The walk down the uses that lists each cell behind those that it uses.

ghost use Rattle.std.specs.Prelude.{◌≡◌, ◌+◌, ◌^◌, ◌<◌, ◌≤◌, [], ℕ, List, IfOk, OnOk, length, map, false};
ghost use Rattle.std.specs.List.{range_with_len};
ghost use Rattle.use_orders.specs.Uses.{AreCells, used_by};
ghost use Rattle.use_orders.specs.steps.Walks.{WalkState, walk_state, walk_mark, mark_before, with_open};
ghost use Rattle.use_orders.specs.steps.Walks.{after_meeting, after_following, after_listing};
ghost use Rattle.use_orders.specs.steps.Walks.{IsWalking, IsAtRest, IsThorough, IsLater, HasVisited, work_left};

use crate::graph::UseGraph;
use std::alloc::{AllocError, Global};

/// How far the walk has come with a cell.
#[derive(Clone, Copy)]
pub(crate) enum Mark {
    Unmet,
    Open,
    Listed,
}

/// A cell that was met and is not listed yet, and how many of its uses were followed.
#[derive(Clone, Copy)]
pub(crate) struct OpenCell {
    pub(crate) cell: usize,
    pub(crate) followed: usize,
}

/// A walk: the marks of all cells, the open cells on the way down to the present one, and the
/// cells that were listed. The cells below `first` count as listed from the start.
#[derive(Drop)]
pub(crate) struct Walk {
    pub(crate) first: usize,
    pub(crate) marks: Vec<Mark>,
    pub(crate) path: Vec<OpenCell>,
    pub(crate) order: Vec<usize>,
    /// Whether an open cell was met.
    pub(crate) is_cyclic: bool,
}

/// The marks before a walk.
fn first_marks(alloc: Global, count: usize, first: usize) -> Result<Vec<Mark>, AllocError>
    ensures { IfOk result (λ marks. marks.items ≡ map (mark_before first) (range_with_len 0 count)) }
{
    (0..count)
        .map(|cell| {
            if cell < first {
                Mark::Listed
            } else {
                Mark::Unmet
            }
        })
        .collect(alloc)
}

impl Walk {
    /// A walk over so many cells that has listed those below `first`.
    pub(crate) fn new(alloc: Global, count: usize, first: usize) -> Result<Walk, AllocError>
        requires { first ≤ count }
        ensures rest { IfOk result (λ walk. (children : List (List ℕ)) → length children ≡ count
            → IsAtRest children first (walk_state walk)) }
        ensures thorough { IfOk result (λ walk. (children : List (List ℕ))
            → IsThorough children first (walk_state walk)) }
        ensures first { IfOk result (λ walk. walk.first ≡ first) }
        ensures empty { IfOk result (λ walk. walk.order.items ≡ []) }
        ensures acyclic { IfOk result (λ walk. walk.is_cyclic ≡ false) }
    {
        Ok(Walk {
            first,
            marks: first_marks(alloc, count, first)?,
            path: Vec::new(alloc),
            order: Vec::new(alloc),
            is_cyclic: false,
        })
    }

    /// Meets a cell.
    fn meet(&mut self, cell: usize) -> Result<(), AllocError>
        requires { cell < length self.old.marks.items }
        ensures first { self.new.first ≡ self.old.first }
        ensures state { OnOk result (walk_state self.new
            ≡ after_meeting (walk_mark self.old.marks.items cell) cell (walk_state self.old)) }
    {
        match self.marks[cell] {
            Mark::Unmet => {
                self.path.push(OpenCell { cell, followed: 0 })?;
                self.marks[cell] = Mark::Open;
            }
            Mark::Open => self.is_cyclic = true,
            Mark::Listed => {}
        }
        Ok(())
    }

    /// Follows the next use of an open cell.
    fn follow<G: UseGraph>(&mut self, graph: &G, at: OpenCell) -> Result<(), AllocError>
        requires cells { AreCells (G.children graph.now) }
        requires fits { length self.old.marks.items ≡ length (G.children graph.now) }
        requires cell { at.cell < length (G.children graph.now) }
        requires use_left { at.followed < length (used_by (G.children graph.now) at.cell) }
        requires small { at.followed + 1 < 2 ^ 64 }
        ensures first { self.new.first ≡ self.old.first }
        ensures state { OnOk result (walk_state self.new
            ≡ after_following (G.children graph.now) at (walk_state self.old)) }
    {
        let child = graph.child(at.cell, at.followed);
        self.path.push(OpenCell {
            cell: at.cell,
            followed: at.followed + 1,
        })?;
        self.meet(child)
    }

    /// Lists an open cell.
    fn list(&mut self, cell: usize) -> Result<(), AllocError>
        requires { cell < length self.old.marks.items }
        ensures first { self.new.first ≡ self.old.first }
        ensures state { OnOk result (walk_state self.new ≡ after_listing cell (walk_state self.old)) }
    {
        self.order.push(cell)?;
        self.marks[cell] = Mark::Listed;
        Ok(())
    }

    /// Follows the next use of the present cell, or lists it where none is left.
    fn step<G: UseGraph>(&mut self, graph: &G, at: OpenCell) -> Result<(), AllocError>
        requires cells { AreCells (G.children graph.now) }
        requires under_way { IsWalking (G.children graph.now) self.old.first
            (with_open at (walk_state self.old)) }
        ensures first { self.new.first ≡ self.old.first }
        ensures later { OnOk result (IsLater (G.children graph.now) self.old.first
            (with_open at (walk_state self.old)) (walk_state self.new)) }
        ensures less { OnOk result (work_left (G.children graph.now) (walk_state self.new)
            < work_left (G.children graph.now) (with_open at (walk_state self.old))) }
    {
        if at.followed < graph.use_count(at.cell) {
            self.follow(graph, at)
        } else {
            self.list(at.cell)
        }
    }

    /// Steps until no cell is open.
    fn finish<G: UseGraph>(&mut self, graph: &G) -> Result<(), AllocError>
        requires cells { AreCells (G.children graph.now) }
        requires under_way { IsWalking (G.children graph.now) self.old.first (walk_state self.old) }
        ensures first { self.new.first ≡ self.old.first }
        ensures later { OnOk result (IsLater (G.children graph.now) self.old.first
            (walk_state self.old) (walk_state self.new) × ((walk_state self.new).way ≡ [])) }
    {
        'open: while let Some(at) = self.path.pop() {
            self.step(graph, at)?;
        }
        Ok(())
    }

    /// Lists the cells at and below one, behind those that are listed.
    pub(crate) fn visit<G: UseGraph>(&mut self, graph: &G, root: usize) -> Result<(), AllocError>
        requires cells { AreCells (G.children graph.now) }
        requires root { root < length (G.children graph.now) }
        requires rest { IsAtRest (G.children graph.now) self.old.first (walk_state self.old) }
        ensures first { self.new.first ≡ self.old.first }
        ensures visited { OnOk result (HasVisited (G.children graph.now) self.old.first root
            (walk_state self.old) (walk_state self.new)) }
    {
        self.meet(root)?;
        self.finish(graph)
    }

    /// The cells that were listed.
    pub(crate) fn into_order(self) -> Vec<usize>
        ensures { result ≡ self.order }
    {
        let Walk { order, .. } = self;
        order
    }
}
