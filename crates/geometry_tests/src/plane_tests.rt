//! Planes asked and changed as worked by hand, and planes beside a grid of numbers.
ghost use Rattle.std.specs.Prelude.{◌<◌};

use crate::areas::{Bounds, are_settable, is_sound, pieces, rect, rects};
use crate::random::{next, pick};
use geo_core::{Piece, Plane, PlaneFault, Rect, Square};
use run_plane::RunPlane;
use std::alloc::{AllocError, Global};
use std::test::Fail;
use tile_plane::TilePlane;

/// What is done to a plane, or asked of it with the answer.
#[derive(Clone, Copy)]
enum Step {
    Set(Bounds, u8),
    /// Several pieces at once.
    SetAll(&'static [(Bounds, u8)]),
    At(i64, i64, u8),
    Strips(u8, &'static [Bounds]),
    Tiles(Bounds, &'static [(Bounds, u8)]),
    Box(Option<Bounds>),
}

const STEPS: &[Step] = &[
    Step::Box(None),
    // A cross.
    Step::Set([0, 2, 6, 4], 1),
    Step::Set([2, 0, 4, 6], 1),
    Step::At(5, 3, 1),
    Step::Strips(1, &[[2, 0, 4, 2], [0, 2, 6, 4], [2, 4, 4, 6]]),
    // Another value over part of it, and space above that.
    Step::SetAll(&[([5, 3, 9, 4], 2), ([5, 4, 9, 5], 0)]),
    Step::At(5, 3, 2),
    Step::At(5, 4, 0),
    Step::Strips(1, &[[2, 0, 4, 2], [0, 2, 6, 3], [0, 3, 5, 4], [2, 4, 4, 6]]),
    Step::Strips(3, &[]),
    Step::Tiles(
        [3, 1, 7, 4],
        &[
            ([3, 1, 4, 2], 1),
            ([3, 2, 6, 3], 1),
            ([3, 3, 5, 4], 1),
            ([5, 3, 7, 4], 2),
        ],
    ),
    Step::Box(Some([0, 0, 9, 6])),
];

pub fn set<P: Plane>(plane: &mut P, area: Rect, value: u8) -> Result<bool, PlaneFault> {
    if !is_sound(&area) {
        return Ok(false);
    }
    plane.set_rect(area, value)?;
    Ok(true)
}

fn set_all<P: Plane>(alloc: Global, plane: &mut P, pieces: &[Piece]) -> Result<bool, PlaneFault> {
    if !are_settable(alloc, pieces)? {
        return Ok(false);
    }
    plane.reserve(pieces)?;
    plane.commit(pieces);
    Ok(true)
}

pub fn has_strips<P: Plane>(plane: &P, value: u8, want: &[Rect]) -> Result<bool, PlaneFault> {
    if value == 0 {
        return Ok(false);
    }
    Ok(plane.strips(value)?.as_slice() == want)
}

fn has_tiles<P: Plane>(plane: &P, area: Rect, want: &[Piece]) -> Result<bool, PlaneFault> {
    if !is_sound(&area) {
        return Ok(false);
    }
    Ok(plane.tiles_in(area)?.as_slice() == want)
}

/// Whether the step could be done, or was answered as it says.
fn is_taken<P: Plane>(alloc: Global, plane: &mut P, step: Step) -> Result<bool, PlaneFault> {
    match step {
        Step::Set(area, value) => set(plane, rect(area), value),
        Step::SetAll(table) => set_all(alloc, plane, pieces(alloc, table)?.as_slice()),
        Step::At(x, y, want) => Ok(plane.at(Square { x, y }) == want),
        Step::Strips(value, table) => has_strips(plane, value, rects(alloc, table)?.as_slice()),
        Step::Tiles(area, table) => has_tiles(plane, rect(area), pieces(alloc, table)?.as_slice()),
        Step::Box(want) => Ok(plane.box_of() == want.map(rect)),
    }
}

/// Whether all steps could be done, one after the other, and were answered as they say.
fn are_taken<P: Plane>(alloc: Global, plane: &mut P) -> Result<bool, PlaneFault> {
    for step in STEPS {
        if !is_taken(alloc, plane, *step)? {
            return Ok(false);
        }
    }
    Ok(true)
}

#[test]
fn a_plane_of_runs_answers_as_worked_by_hand(rt: HostRuntime) -> Result<(), Fail> {
    let mut plane = RunPlane::new(rt.alloc());
    assert!(rt; are_taken(rt.alloc(), &mut plane)?);
    Ok(())
}

#[test]
fn a_plane_of_tiles_answers_as_worked_by_hand(rt: HostRuntime) -> Result<(), Fail> {
    let mut plane = TilePlane::new(rt.alloc())?;
    assert!(rt; are_taken(rt.alloc(), &mut plane)?);
    Ok(())
}

/// The squares of the grid go from 0 on and below this, both ways.
const SIDE: i64 = 24;

/// The values that are set are below this.
const VALUES: u8 = 6;

/// The numbers of the grid's squares, row by row from below.
type Grid = Vec<u8>;

/// The number at a square, which is 0 off the grid.
fn number(grid: &Grid, x: i64, y: i64) -> u8 {
    if x < 0 || y < 0 || SIDE <= x || SIDE <= y {
        return 0;
    }
    let place = (y * SIDE + x) as usize;
    grid.get(place).copied().unwrap_or(0)
}

/// The grid after the squares of a rectangle are set, made anew.
fn painted(alloc: Global, grid: &Grid, area: &Rect, value: u8) -> Result<Grid, AllocError> {
    let mut found = Vec::new(alloc);
    for y in 0..SIDE {
        for x in 0..SIDE {
            let inside = area.xlo <= x && x < area.xhi && area.ylo <= y && y < area.yhi;
            found.push(if inside { value } else { number(grid, x, y) })?;
        }
    }
    Ok(found)
}

/// Where the run of a value that begins at a square ends, if one begins there.
fn run_end(grid: &Grid, x: i64, y: i64, value: u8) -> Option<i64> {
    if number(grid, x, y) != value || 0 < x && number(grid, x - 1, y) == value {
        return None;
    }
    for end in x..SIDE {
        if number(grid, end, y) != value {
            return Some(end);
        }
    }
    Some(SIDE)
}

/// Up to where the rows from y on have the run.
fn strip_top(grid: &Grid, x: i64, y: i64, run: Option<i64>, value: u8) -> i64 {
    for top in y..SIDE {
        if run_end(grid, x, top, value) != run {
            return top;
        }
    }
    SIDE
}

/// The strips of a value: each run that the row below has not, as high as the rows have it.
fn strips_of_grid(alloc: Global, grid: &Grid, value: u8) -> Result<Vec<Rect>, AllocError> {
    let mut found = Vec::new(alloc);
    for y in 0..SIDE {
        for x in 0..SIDE {
            let run = run_end(grid, x, y, value);
            let below = if 0 < y {
                run_end(grid, x, y - 1, value)
            } else {
                None
            };
            if let Some(xhi) = run {
                if below != run {
                    found.push(rect([x, y, xhi, strip_top(grid, x, y, run, value)]))?;
                }
            }
        }
    }
    Ok(found)
}

/// The strips of all values in order of corners, cut to an area, one value after the other and then sorted.
fn tiles_of_grid(alloc: Global, grid: &Grid, area: &Rect) -> Result<Vec<Piece>, AllocError> {
    let mut found = Vec::new(alloc);
    for value in 1..VALUES {
        for strip in strips_of_grid(alloc, grid, value)? {
            let part = strip.common(area);
            if part.has_square() {
                found.push(Piece { area: part, value })?;
            }
        }
    }
    found.sort_unstable_by_key(|tile| (tile.area.ylo, tile.area.xlo));
    Ok(found)
}

/// Some rectangle of the grid, and the next state.
fn random_rect(state: u64) -> (Rect, u64) {
    let up = next(state);
    let wide = next(up);
    let high = next(wide);
    let xlo = i64::from(pick(state, 16));
    let ylo = i64::from(pick(up, 16));
    let area = rect([
        xlo,
        ylo,
        xlo + 1 + i64::from(pick(wide, 8)),
        ylo + 1 + i64::from(pick(high, 8)),
    ]);
    (area, next(high))
}

fn has_squares<P: Plane>(plane: &P, grid: &Grid) -> bool {
    for y in -1..SIDE + 1 {
        for x in -1..SIDE + 1 {
            if plane.at(Square { x, y }) != number(grid, x, y) {
                return false;
            }
        }
    }
    true
}

fn has_all_strips<P: Plane>(alloc: Global, plane: &P, grid: &Grid) -> Result<bool, PlaneFault> {
    for value in 1..VALUES {
        let want = strips_of_grid(alloc, grid, value)?;
        if !has_strips(plane, value, want.as_slice())? {
            return Ok(false);
        }
    }
    Ok(true)
}

/// The plane says of each square, of strips and of tiles what the grid says.
fn agrees<P: Plane>(alloc: Global, plane: &P, grid: &Grid, area: Rect) -> Result<bool, PlaneFault> {
    if !has_squares(plane, grid) || !has_all_strips(alloc, plane, grid)? {
        return Ok(false);
    }
    let want = tiles_of_grid(alloc, grid, &area)?;
    has_tiles(plane, area, want.as_slice())
}

/// Sets random rectangles of a plane and of a grid, and compares them each time.
fn is_as_a_grid<P: Plane>(alloc: Global, plane: &mut P, times: u32) -> Result<bool, PlaneFault> {
    let mut grid = Vec::new(alloc);
    let mut state = 7;
    for _ in 0..times {
        let (area, then) = random_rect(state);
        let (window, after) = random_rect(then);
        let value = pick(after, VALUES);
        state = next(after);
        if !set(plane, area, value)? {
            return Ok(false);
        }
        grid = painted(alloc, &grid, &area, value)?;
        if !agrees(alloc, plane, &grid, window)? {
            return Ok(false);
        }
    }
    Ok(true)
}

#[test]
fn a_plane_of_runs_is_as_a_grid(rt: HostRuntime) -> Result<(), Fail> {
    let mut plane = RunPlane::new(rt.alloc());
    assert!(rt; is_as_a_grid(rt.alloc(), &mut plane, 60)?);
    Ok(())
}

#[test]
fn a_plane_of_tiles_is_as_a_grid(rt: HostRuntime) -> Result<(), Fail> {
    let mut plane = TilePlane::new(rt.alloc())?;
    assert!(rt; is_as_a_grid(rt.alloc(), &mut plane, 60)?);
    Ok(())
}
