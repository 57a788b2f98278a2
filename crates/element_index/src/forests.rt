//! Rectangles that are searched for those that meet an area, and to which more come.
ghost use Rattle.std.specs.Prelude.{◌≡◌, [], ◌∷◌, ◌++◌, ◌↔◌, ◌≤◌, length, IfOk, IsTrue, OnErr, OnOk};
ghost use Rattle.element_index.specs.Forests.{rects_of, MeetsSome};

use geo_core::Rect;
use rect_trees::RectTree;
use std::alloc::{AllocError, Global};
use std::marker::Model;

/// Rectangles in the order of arrival. Contracts see it as their list.
///
/// They lie in trees of 1, 2, 4 .. rectangles, the largest first, which are joined like the bits of a counter.
#[derive(Drop)]
pub struct Forest {
    alloc: Global,
    trees: Vec<RectTree>,
}

impl Model for Forest {
    ghost use Rattle.std.specs.Prelude.{List};
    ghost use Rattle.geo_core.specs.declared.squares.Rect.{Rect as OneRect};
    ghost use Rattle.element_index.specs.Forests.{rects_of};

    ghost Value = { List OneRect };

    ghost view = { λ forest. rects_of forest.trees.items };
}

/// Adds the rectangles of trees.
fn collect(trees: &[RectTree], rects: &mut Vec<Rect>) -> Result<(), AllocError>
    ensures { OnOk result (rects.new.items ≡ rects.old.items ++ rects_of trees.now) }
{
    for tree in trees {
        rects.extend_from_slice(tree.rects())?;
    }
    Ok(())
}

/// From which tree on they are joined with one rectangle more: each has no more rectangles than there are behind it.
fn first_joined(trees: &[RectTree]) -> usize
    ensures { result ≤ length trees.now }
{
    let mut count: usize = 1;
    let mut first = trees.len();
    while 0 < first {
        let more = trees[first - 1].rects().len();
        if count < more {
            break;
        }
        count = count.saturating_add(more);
        first -= 1;
    }
    first
}

/// The tree of the rectangles of trees, and one more.
fn joined(alloc: Global, trees: &[RectTree], rect: Rect) -> Result<RectTree, AllocError>
    ensures { IfOk result (λ tree. tree ≡ rects_of trees.now ++ rect ∷ []) }
{
    let mut rects = Vec::new(alloc);
    collect(trees, &mut rects)?;
    rects.push(rect)?;
    RectTree::new(alloc, &rects)
}

impl Forest {
    /// No rectangles. It takes no memory.
    pub fn new(alloc: Global) -> Forest
        ensures { result ≡ [] }
    {
        Forest {
            alloc,
            trees: Vec::new(alloc),
        }
    }

    /// Whether a rectangle has squares in the area.
    pub fn meets(&self, area: Rect) -> bool
        ensures { IsTrue result ↔ MeetsSome self.now area }
    {
        for tree in &self.trees {
            if tree.some_meeting(area).is_some() {
                return true;
            }
        }
        false
    }

    /// All the rectangles.
    pub fn rects(&self) -> Result<Vec<Rect>, AllocError>
        ensures { IfOk result (λ rects. rects.items ≡ self.now) }
    {
        let mut rects = Vec::new(self.alloc);
        collect(&self.trees, &mut rects)?;
        Ok(rects)
    }

    /// Adds a rectangle. Want of memory alone refuses, and nothing is changed then.
    pub fn add(&mut self, rect: Rect) -> Result<(), AllocError>
        ensures added { OnOk result (self.new ≡ self.old ++ rect ∷ []) }
        ensures refused { OnErr result (self.new ≡ self.old) }
    {
        let first = first_joined(&self.trees);
        let tree = joined(self.alloc, &self.trees[first..], rect)?;
        if first < self.trees.len() {
            self.trees[first] = tree;
            self.trees.truncate(first + 1);
        } else {
            self.trees.push(tree)?;
        }
        Ok(())
    }
}
