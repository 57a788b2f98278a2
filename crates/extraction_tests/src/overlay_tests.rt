//! Rectangles laid over each other, asked square by square.
use crate::rects::{Bounds, rect, rects};
use geo_core::Rect;
use rect_overlays::{Stack, overlay};
use std::alloc::{AllocError, Global};
use std::test::Fail;

/// Rectangles, and areas that lie apart, each with the places of the rectangles that cover it. No other square is covered.
struct Row {
    rects: &'static [Bounds],
    covered: &'static [(Bounds, &'static [usize])],
}

const ROWS: &[Row] = &[
    Row {
        rects: &[],
        covered: &[],
    },
    // Two have a corner in common.
    Row {
        rects: &[[0, 0, 2, 2], [1, 1, 3, 3]],
        covered: &[
            ([0, 0, 2, 1], &[0]),
            ([0, 1, 1, 2], &[0]),
            ([1, 1, 2, 2], &[0, 1]),
            ([2, 1, 3, 2], &[1]),
            ([1, 2, 3, 3], &[1]),
        ],
    },
    // Those without a square count as places alone.
    Row {
        rects: &[[1, -1, 1, 3], [0, 0, 2, 1], [3, 3, -1, -1]],
        covered: &[([0, 0, 2, 1], &[1])],
    },
    // One lies inside the other.
    Row {
        rects: &[[1, 1, 2, 2], [0, 0, 3, 3]],
        covered: &[
            ([0, 0, 3, 1], &[1]),
            ([0, 1, 1, 2], &[1]),
            ([1, 1, 2, 2], &[0, 1]),
            ([2, 1, 3, 2], &[1]),
            ([0, 2, 3, 3], &[1]),
        ],
    },
    // Equal ones.
    Row {
        rects: &[[0, 0, 2, 1], [0, 0, 2, 1]],
        covered: &[([0, 0, 2, 1], &[0, 1])],
    },
    // As wide as numbers are.
    Row {
        rects: &[[i64::MIN, 0, i64::MAX, 1], [0, i64::MIN, 1, i64::MAX]],
        covered: &[
            ([-2, 0, 0, 1], &[0]),
            ([0, 0, 1, 1], &[0, 1]),
            ([1, 0, 5, 1], &[0]),
            ([0, -2, 1, 0], &[1]),
            ([0, 1, 1, 5], &[1]),
        ],
    },
    // Three equal ones, and three of which each lies over the next.
    Row {
        rects: &[[0, 0, 1, 2], [0, 0, 1, 2], [0, 0, 1, 2]],
        covered: &[([0, 0, 1, 2], &[0, 1, 2])],
    },
    Row {
        rects: &[[0, 0, 2, 1], [1, 0, 4, 1], [1, 0, 3, 1]],
        covered: &[
            ([0, 0, 1, 1], &[0]),
            ([1, 0, 2, 1], &[0, 1, 2]),
            ([2, 0, 3, 1], &[1, 2]),
            ([3, 0, 4, 1], &[1]),
        ],
    },
    // Some that lie apart, beside two that don't.
    Row {
        rects: &[
            [-2, -2, -1, -1],
            [3, -2, 5, 0],
            [0, 0, 2, 2],
            [1, 1, 3, 2],
            [-2, 3, 5, 4],
        ],
        covered: &[
            ([-2, -2, -1, -1], &[0]),
            ([3, -2, 5, 0], &[1]),
            ([0, 0, 2, 1], &[2]),
            ([0, 1, 1, 2], &[2]),
            ([1, 1, 2, 2], &[2, 3]),
            ([2, 1, 3, 2], &[3]),
            ([-2, 3, 5, 4], &[4]),
        ],
    },
];

fn covers(area: &Rect, x: i64, y: i64) -> bool {
    area.xlo <= x && x < area.xhi && area.ylo <= y && y < area.yhi
}

/// The rectangles of the row that cover the square.
fn covering(row: &Row, x: i64, y: i64) -> &'static [usize] {
    for &(bounds, members) in row.covered {
        if covers(&rect(bounds), x, y) {
            return members;
        }
    }
    &[]
}

/// Whether the square lies in one stack with the right members, or in none if no rectangle covers it.
fn is_right_at(stacks: &[Stack], row: &Row, x: i64, y: i64) -> bool {
    let covering = covering(row, x, y);
    let mut is_found = false;
    for stack in stacks {
        if covers(&stack.area, x, y) {
            if is_found || stack.members.as_slice() != covering {
                return false;
            }
            is_found = true;
        }
    }
    is_found != covering.is_empty()
}

/// Whether the overlay of the row's rectangles says the right of each square nearby.
fn is_right(alloc: Global, row: &Row) -> Result<bool, AllocError> {
    let rects = rects(alloc, row.rects)?;
    let stacks = overlay(alloc, rects.as_slice())?;
    for y in -2..5 {
        for x in -2..5 {
            if !is_right_at(stacks.as_slice(), row, x, y) {
                return Ok(false);
            }
        }
    }
    Ok(true)
}

#[test]
fn overlays_have_the_members_of_each_square(rt: HostRuntime) -> Result<(), Fail> {
    for row in ROWS {
        assert!(rt; is_right(rt.alloc(), row)?);
    }
    Ok(())
}
