//! Rectangles that are searched for those that meet an area, again and again.
//!
//! # How the proof goes
//!
//! The places of the rectangles that have squares have each of their positions once, in whatever order they stand, so the
//! bands and the sorts need no more than that positions stay the same (`PlaceLaws`). A tree that grows from places has
//! their positions, from left to right (`RootLaws`). A search adds the positions of a tree that pass the test of the
//! area: where the hull of a tree has no square in the area, none passes, since an area that misses what goes round two
//! rectangles misses both (`HullLaws`). Sorted, they ascend, since each position is in the tree once (`MeetingLaws`). A search that
//! stops at the first finds the first of those positions.
#![tactic(auto)]

mod nodes;
mod places;
mod trees;

pub use trees::RectTree;
