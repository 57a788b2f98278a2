//! Trees of rectangles.
ghost use Rattle.std.specs.Prelude.{◌≡◌, IfNone, IfOk, IfSome};
ghost use Rattle.rect_trees.specs.Meetings.{AreMeeting, IsMeeting, MissesAll};

use crate::nodes::{Node, grow};
use crate::places::places;
use geo_core::Rect;
use std::alloc::{AllocError, Global};
use std::marker::Model;

/// Rectangles of a list, which a search finds by area. Contracts see it as the list.
#[derive(Drop)]
pub struct RectTree {
    rects: Vec<Rect>,
    // those that have squares
    root: Option<Node>,
}

impl Model for RectTree {
    ghost use Rattle.std.specs.Prelude.{List};
    ghost use Rattle.geo_core.specs.declared.squares.Rect.{Rect as OneRect};
    ghost use Rattle.rect_trees.specs.Nodes.{IsRoot};

    ghost Value = { List OneRect };

    ghost view = { λ tree. tree.rects.items };

    ghost invariant = { λ tree. IsRoot tree.rects.items tree.root };
}

impl RectTree {
    /// The tree of the rectangles, which may overlap and be without squares. Want of memory alone refuses. It takes time for a sort.
    pub fn new(alloc: Global, rects: &[Rect]) -> Result<RectTree, AllocError>
        ensures { IfOk result (λ tree. tree ≡ rects.now) }
    {
        let places = places(alloc, rects)?;
        let root = if places.is_empty() {
            None
        } else {
            Some(grow(alloc, rects, &places)?)
        };
        Ok(RectTree {
            rects: rects.to_vec(alloc)?,
            root,
        })
    }

    /// The positions in the list of the rectangles that have squares in the area, in order. Want of memory alone refuses.
    /// It takes time for a sort of what it finds, and for a walk down the tree where the rectangles are well spread.
    pub fn meeting(&self, alloc: Global, area: Rect) -> Result<Vec<usize>, AllocError>
        ensures { IfOk result (λ positions. AreMeeting self.now area positions.items) }
    {
        let mut found = Vec::new(alloc);
        if let Some(root) = &self.root {
            root.add_meeting(&self.rects, &area, &mut found)?;
        }
        found.sort_unstable();
        Ok(found)
    }
    /// A rectangle that has squares in the area, if there is one. It takes no memory, and stops at the first that it finds.
    pub fn some_meeting(&self, area: Rect) -> Option<Rect>
        ensures found { IfSome result (IsMeeting self.now area) }
        ensures none { IfNone result (MissesAll self.now area) }
    {
        let Some(root) = &self.root else {
            return None;
        };
        match root.first_meeting(&self.rects, &area) {
            Some(position) => Some(self.rects[position]),
            None => None,
        }
    }

    /// The list of the rectangles.
    pub fn rects(&self) -> &[Rect]
        ensures { result.now ≡ self.now }
    {
        self.rects.as_slice()
    }
}
