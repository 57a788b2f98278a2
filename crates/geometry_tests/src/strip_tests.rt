//! Strips worked by hand, those that a count square by square finds, and lists of real size.

use crate::areas::{Bounds, rect, rects};
use crate::random::{next, pick};
use geo_core::Rect;
use geo_strips::strips;
use std::alloc::{AllocError, Global};
use std::test::Fail;

/// Rectangles, and the strips of the squares that they cover.
const ROWS: &[(&[Bounds], &[Bounds])] = &[
    (&[], &[]),
    // A cross.
    (
        &[[1, 0, 2, 3], [0, 1, 3, 2]],
        &[[1, 0, 2, 1], [0, 1, 3, 2], [1, 2, 2, 3]],
    ),
    // A ring, one side of it twice.
    (
        &[
            [0, 0, 3, 1],
            [0, 2, 3, 3],
            [0, 0, 1, 3],
            [2, 0, 3, 3],
            [2, 0, 3, 3],
        ],
        &[[0, 0, 3, 1], [0, 1, 1, 2], [2, 1, 3, 2], [0, 2, 3, 3]],
    ),
    // A comb.
    (
        &[[4, 1, 5, 3], [2, 1, 3, 4], [0, 1, 1, 3], [0, 0, 5, 1]],
        &[[0, 0, 5, 1], [0, 1, 1, 3], [2, 1, 3, 4], [4, 1, 5, 3]],
    ),
    // Stairs.
    (
        &[[0, 0, 1, 3], [0, 0, 2, 2], [0, 0, 3, 1]],
        &[[0, 0, 3, 1], [0, 1, 2, 2], [0, 2, 1, 3]],
    ),
    // One rectangle in parts, and two without a square.
    (
        &[
            [0, 0, 2, 2],
            [1, 0, 3, 2],
            [0, 2, 3, 3],
            [5, 5, 5, 9],
            [7, 2, 6, 3],
        ],
        &[[0, 0, 3, 3]],
    ),
    // One rectangle three times.
    (&[[2, 3, 5, 7], [2, 3, 5, 7], [2, 3, 5, 7]], &[[2, 3, 5, 7]]),
    // A bridge.
    (
        &[[0, 0, 1, 3], [2, 0, 3, 3], [1, 1, 2, 2]],
        &[
            [0, 0, 1, 1],
            [2, 0, 3, 1],
            [0, 1, 3, 2],
            [0, 2, 1, 3],
            [2, 2, 3, 3],
        ],
    ),
];

fn has_strips(alloc: Global, row: &(&[Bounds], &[Bounds])) -> Result<bool, AllocError> {
    let covering = rects(alloc, row.0)?;
    let want = rects(alloc, row.1)?;
    Ok(strips(alloc, covering.as_slice())?.as_slice() == want.as_slice())
}

#[test]
fn rectangles_have_their_strips(rt: HostRuntime) -> Result<(), Fail> {
    for row in ROWS {
        assert!(rt; has_strips(rt.alloc(), row)?);
    }
    Ok(())
}

fn block(x: u32, y: u32, wide: u32, high: u32) -> Rect {
    let (x, y) = (i64::from(x), i64::from(y));
    rect([x, y, x + i64::from(wide), y + i64::from(high)])
}

/// A spine, with teeth of different heights on it.
fn comb(alloc: Global) -> Result<Vec<Rect>, AllocError> {
    let mut rects = Vec::new(alloc);
    rects.push(block(0, 0, 200000, 1))?;
    for k in 0..100000u32 {
        rects.push(block(2 * k, 1, 1, 1 + k % 10007))?;
    }
    Ok(rects)
}

#[test]
fn a_comb_of_many_teeth_is_its_strips(rt: HostRuntime) -> Result<(), Fail> {
    let rects = comb(rt.alloc())?;
    let found = strips(rt.alloc(), rects.as_slice())?;
    assert!(rt; found.as_slice() == rects.as_slice());
    Ok(())
}

/// The rectangle in a cell of ten by ten squares. It touches no side of the cell.
fn in_cell(column: u16, row: u16) -> Rect {
    let (x, y) = (10 * u32::from(column), 10 * u32::from(row));
    let right = next(u64::from(x + y / 10));
    let up = next(right);
    let wide = next(up);
    let high = next(wide);
    block(
        x + 1 + u32::from(pick(right, 4)),
        y + 1 + u32::from(pick(up, 4)),
        1 + u32::from(pick(wide, 4)),
        1 + u32::from(pick(high, 4)),
    )
}

/// The column or row of cells in which a coordinate lies.
fn cell_of(coordinate: i64) -> u16 {
    u16::try_from(coordinate / 10).unwrap_or(0)
}

/// The rectangles of 400 columns and 250 rows of cells, in an order that looks random.
fn scattered(alloc: Global) -> Result<Vec<Rect>, AllocError> {
    let mut rects = Vec::new(alloc);
    for k in 0..100000u32 {
        let cell = k * 7919 % 100000;
        rects.push(in_cell((cell % 400) as u16, (cell / 400) as u16))?;
    }
    Ok(rects)
}

fn stand_in_cells(found: &[Rect]) -> bool {
    found.iter().all(|area| *area == in_cell(cell_of(area.xlo), cell_of(area.ylo)))
}

#[test]
fn many_small_rectangles_apart_are_their_strips(rt: HostRuntime) -> Result<(), Fail> {
    let rects = scattered(rt.alloc())?;
    let found = strips(rt.alloc(), rects.as_slice())?;
    assert!(rt; found.len() == 100000 && stand_in_cells(found.as_slice()));
    Ok(())
}

/// Wide rectangles, one above the other, and tall ones of different heights beneath them.
fn woven(alloc: Global) -> Result<Vec<Rect>, AllocError> {
    let mut rects = Vec::new(alloc);
    for k in 0..50000u32 {
        rects.push(block(0, k, 100000, 10))?;
        rects.push(block(2 * k, 0, 1, 50010 + k % 10007))?;
    }
    Ok(rects)
}

/// One block, and upon it what the tall ones reach out.
fn woven_strips(alloc: Global) -> Result<Vec<Rect>, AllocError> {
    let mut rects = Vec::new(alloc);
    rects.push(block(0, 0, 100000, 50009))?;
    for k in 0..50000u32 {
        rects.push(block(2 * k, 50009, 1, 1 + k % 10007))?;
    }
    Ok(rects)
}

#[test]
fn many_wide_rectangles_over_tall_ones(rt: HostRuntime) -> Result<(), Fail> {
    let rects = woven(rt.alloc())?;
    let found = strips(rt.alloc(), rects.as_slice())?;
    assert!(rt; found.as_slice() == woven_strips(rt.alloc())?.as_slice());
    Ok(())
}

/// Rectangles are looked at in the squares from 0 on and below this, both ways.
const SIDE: i64 = 64;

fn is_covered(rects: &[Rect], x: i64, y: i64) -> bool {
    rects.iter().any(|area| area.xlo <= x && x < area.xhi && area.ylo <= y && y < area.yhi)
}

/// Where the run of squares that begins at a square ends.
fn run_end(rects: &[Rect], x: i64, y: i64) -> i64 {
    for end in x..SIDE {
        if !is_covered(rects, end, y) {
            return end;
        }
    }
    SIDE
}

fn is_run(rects: &[Rect], xlo: i64, xhi: i64, y: i64) -> bool {
    is_covered(rects, xlo, y)
        && !is_covered(rects, xlo.wrapping_sub(1), y)
        && run_end(rects, xlo, y) == xhi
}

/// Up to where the rows from y on have the run.
fn strip_top(rects: &[Rect], xlo: i64, xhi: i64, y: i64) -> i64 {
    for top in y..SIDE {
        if !is_run(rects, xlo, xhi, top) {
            return top;
        }
    }
    SIDE
}

/// The strips, found square by square.
fn by_squares(alloc: Global, rects: &[Rect]) -> Result<Vec<Rect>, AllocError> {
    let mut found = Vec::new(alloc);
    for y in 0..SIDE {
        for x in 0..SIDE {
            let xhi = run_end(rects, x, y);
            if is_run(rects, x, xhi, y) && !is_run(rects, x, xhi, y.wrapping_sub(1)) {
                found.push(rect([x, y, xhi, strip_top(rects, x, xhi, y)]))?;
            }
        }
    }
    Ok(found)
}

/// So many rectangles, with places and sides below a bound.
fn random_blocks(alloc: Global, seed: u64, count: u32, below: u8) -> Result<Vec<Rect>, AllocError> {
    let mut state = seed;
    let mut rects = Vec::new(alloc);
    for _ in 0..count {
        let right = next(state);
        let up = next(right);
        let wide = next(up);
        state = next(wide);
        rects.push(block(
            u32::from(pick(right, below)),
            u32::from(pick(up, below)),
            u32::from(pick(wide, below)),
            u32::from(pick(state, below)),
        ))?;
    }
    Ok(rects)
}

fn are_by_squares(alloc: Global, trial: u8) -> Result<bool, AllocError> {
    let rects = random_blocks(
        alloc,
        u64::from(trial),
        u32::from(trial % 17),
        4 + trial % 13,
    )?;
    let want = by_squares(alloc, rects.as_slice())?;
    Ok(strips(alloc, rects.as_slice())?.as_slice() == want.as_slice())
}

#[test]
fn strips_are_those_of_the_squares(rt: HostRuntime) -> Result<(), Fail> {
    for trial in 0..250u8 {
        assert!(rt; are_by_squares(rt.alloc(), trial)?);
    }
    Ok(())
}
