//! Rectangles of a tree that meet an area.
use crate::rects::{Bounds, rect, rects};
use rect_trees::RectTree;
use std::alloc::{AllocError, Global};
use std::test::Fail;

/// Rectangles, and areas with the positions of those that have a square in it.
type Row = (&'static [Bounds], &'static [(Bounds, &'static [usize])]);

const ROWS: &[Row] = &[
    (&[], &[([-9, -9, 9, 9], &[])]),
    // The second is like the fifth, and the third has no square.
    (
        &[
            [2, 2, 4, 4],
            [0, 0, 2, 2],
            [1, 0, 1, 3],
            [1, 1, 3, 3],
            [0, 0, 2, 2],
        ],
        &[
            ([-9, -9, 9, 9], &[0, 1, 3, 4]),
            ([1, 1, 2, 2], &[1, 3, 4]),
            ([2, 2, 3, 3], &[0, 3]),
            // An edge in common is no square.
            ([2, 0, 4, 2], &[3]),
            ([-2, 0, 0, 2], &[]),
            // An area without a square meets nothing.
            ([1, 1, 1, 9], &[]),
            ([3, 3, 0, 0], &[]),
        ],
    ),
    // Long ones span others that lie far apart.
    (
        &[
            [5, 0, 6, 1],
            [-8, 0, 8, 1],
            [-6, 0, -5, 1],
            [i64::MIN, 4, i64::MAX, 5],
        ],
        &[
            ([-6, -3, -5, 9], &[1, 2, 3]),
            ([0, 0, 1, 4], &[1]),
            ([5, 0, 6, 1], &[0, 1]),
            ([100, 1, 101, 5], &[3]),
            ([i64::MIN, i64::MIN, i64::MAX, i64::MAX], &[0, 1, 2, 3]),
        ],
    ),
];

/// Whether the tree of the row's rectangles finds those of each area.
fn is_right(alloc: Global, row: &Row) -> Result<bool, AllocError> {
    let (table, meetings) = *row;
    let rects = rects(alloc, table)?;
    let tree = RectTree::new(alloc, rects.as_slice())?;
    for &(area, positions) in meetings {
        if tree.meeting(alloc, rect(area))?.as_slice() != positions {
            return Ok(false);
        }
    }
    Ok(true)
}

#[test]
fn trees_find_what_meets_an_area(rt: HostRuntime) -> Result<(), Fail> {
    for row in ROWS {
        assert!(rt; is_right(rt.alloc(), row)?);
    }
    Ok(())
}
