//! Trees whose forks know what goes round all that is below them.
ghost use Rattle.std.specs.Prelude.{◌≡◌, ◌++◌, ◌<◌, length, filter, find, map, All, IfOk, OnOk};
ghost use Rattle.rect_trees.specs.Positions.{position_of, meets_at};
ghost use Rattle.rect_trees.specs.Nodes.{positions_of, hull_of, AreHulls};

use crate::places::Place;
use geo_core::Rect;
use std::alloc::{AllocError, Global};

/// The positions of rectangles of a list.
#[cycle(node)]
#[derive(Drop)]
pub enum Node {
    Leaf(usize),
    Fork(Box<Sides>),
}

/// Two trees, and the smallest rectangle that goes round all of them.
#[cycle(node)]
#[derive(Drop)]
pub struct Sides {
    hull: Rect,
    left: Node,
    right: Node,
}

/// The tree of the rectangles at these places, the first on the left.
pub fn grow(alloc: Global, rects: &[Rect], places: &[Place]) -> Result<Node, AllocError>
    requires some { 0 < length places.now }
    requires within { All (λ place. place.position < length rects.now) places.now }
    ensures hulls { IfOk result (AreHulls rects.now) }
    ensures positions { IfOk result (λ node. positions_of node ≡ map position_of places.now) }
{
    if places.len() == 1 {
        return Ok(Node::Leaf(places[0].position));
    }
    let middle = places.len() / 2;
    let left = grow(alloc, rects, &places[..middle])?;
    let right = grow(alloc, rects, &places[middle..])?;
    let sides = Sides {
        hull: left.hull(rects).joined(&right.hull(rects)),
        left,
        right,
    };
    Ok(Node::Fork(Box::new(alloc, sides)?))
}

impl Node {
    /// The smallest rectangle that goes round all that are in the tree.
    fn hull(&self, rects: &[Rect]) -> Rect
        requires { AreHulls rects.now self.now }
        ensures { result ≡ hull_of rects.now self.now }
    {
        match self {
            Node::Leaf(position) => rects[*position],
            Node::Fork(sides) => sides.hull,
        }
    }

    /// Adds the positions of the rectangles that have squares in the area.
    pub fn add_meeting(
        &self,
        rects: &[Rect],
        area: &Rect,
        found: &mut Vec<usize>,
    ) -> Result<(), AllocError>
        requires { AreHulls rects.now self.now }
        ensures { OnOk result (found.new.items ≡ found.old.items ++ filter (meets_at rects.now area.now) (positions_of self.now)) }
    {
        if !self.hull(rects).common(area).has_square() {
            return Ok(());
        }
        match self {
            Node::Leaf(position) => found.push(*position)?,
            Node::Fork(sides) => {
                let sides = &**sides;
                sides.left.add_meeting(rects, area, found)?;
                sides.right.add_meeting(rects, area, found)?;
            }
        }
        Ok(())
    }
    /// The position of the first rectangle, from left to right, that has squares in the area, if there is one.
    pub fn first_meeting(&self, rects: &[Rect], area: &Rect) -> Option<usize>
        requires { AreHulls rects.now self.now }
        ensures { result ≡ find (meets_at rects.now area.now) (positions_of self.now) }
    {
        if !self.hull(rects).common(area).has_square() {
            return None;
        }
        match self {
            Node::Leaf(position) => Some(*position),
            Node::Fork(sides) => {
                let sides = &**sides;
                match sides.left.first_meeting(rects, area) {
                    Some(position) => Some(position),
                    None => sides.right.first_meeting(rects, area),
                }
            }
        }
    }
}
