//! Planes of tiles beside planes of runs, and many tiles.

use crate::areas::rect;
use crate::plane_tests::{has_strips, set};
use crate::random::{next, pick};
use geo_core::{Plane, PlaneFault, Rect, Square};
use run_plane::RunPlane;
use std::alloc::{AllocError, Global};
use std::test::Fail;
use tile_plane::TilePlane;

/// The coordinates of the rectangles are below this.
const EDGE: u8 = 64;

/// The values that are set are below this.
const VALUES: u8 = 6;

/// So many rectangles are set on both planes.
const TIMES: u32 = 2_000;

/// After so many each, the planes are compared.
const EACH: u32 = 100;

/// Two different coordinates in order, and the next state.
fn random_side(state: u64) -> (i64, i64, u64) {
    let then = next(state);
    let low = pick(state, EDGE - 1);
    let long = pick(then, (EDGE - 1).saturating_sub(low));
    let from = i64::from(low);
    (from, from + 1 + i64::from(long), next(then))
}

/// Some rectangle, and the next state.
fn random_rect(state: u64) -> (Rect, u64) {
    let (xlo, xhi, then) = random_side(state);
    let (ylo, yhi, after) = random_side(then);
    (rect([xlo, ylo, xhi, yhi]), after)
}

fn have_same_squares(runs: &RunPlane, tiles: &TilePlane) -> bool {
    let edge = i64::from(EDGE);
    for y in -1..edge + 1 {
        for x in -1..edge + 1 {
            if runs.at(Square { x, y }) != tiles.at(Square { x, y }) {
                return false;
            }
        }
    }
    true
}

fn have_same_strips(runs: &RunPlane, tiles: &TilePlane) -> Result<bool, PlaneFault> {
    for value in 1..VALUES {
        let want = runs.strips(value)?;
        if !has_strips(tiles, value, want.as_slice())? {
            return Ok(false);
        }
    }
    Ok(true)
}

/// Sets random rectangles on a plane of each kind, and compares the planes now and then.
fn planes_agree(alloc: Global) -> Result<bool, PlaneFault> {
    let mut runs = RunPlane::new(alloc);
    let mut tiles = TilePlane::new(alloc)?;
    let mut state = 11;
    for time in 0..TIMES {
        let (area, then) = random_rect(state);
        let value = pick(then, VALUES);
        state = next(then);
        if !set(&mut runs, area, value)? || !set(&mut tiles, area, value)? {
            return Ok(false);
        }
        let is_due = (time + 1) % EACH == 0;
        if is_due && !(have_same_squares(&runs, &tiles) && have_same_strips(&runs, &tiles)?) {
            return Ok(false);
        }
    }
    Ok(true)
}

#[test]
fn tiles_and_runs_show_one_plane(rt: HostRuntime) -> Result<(), Fail> {
    assert!(rt; planes_agree(rt.alloc())?);
    Ok(())
}

/// So many squares stand in a row, and so many rows.
const MANY: u16 = 400;

/// Squares of 2 by 2, each 4 from the next, row by row.
fn many_squares(alloc: Global) -> Result<Vec<Rect>, AllocError> {
    let mut found = Vec::new(alloc);
    for j in 0..MANY {
        for i in 0..MANY {
            let (x, y) = (4 * i64::from(i), 4 * i64::from(j));
            found.push(rect([x, y, x + 2, y + 2]))?;
        }
    }
    Ok(found)
}

/// Sets the squares one by one and lists them.
fn many_are_listed(alloc: Global) -> Result<bool, PlaneFault> {
    let mut plane = TilePlane::new(alloc)?;
    let squares = many_squares(alloc)?;
    for area in &squares {
        if !set(&mut plane, *area, 1)? {
            return Ok(false);
        }
    }
    has_strips(&plane, 1, squares.as_slice())
}

#[test]
fn many_squares_are_set_one_by_one(rt: HostRuntime) -> Result<(), Fail> {
    assert!(rt; many_are_listed(rt.alloc())?);
    Ok(())
}

/// So many teeth cross a strip.
const TEETH: u16 = 50_000;

/// Where the teeth cross the strip.
fn crossings(alloc: Global) -> Result<Vec<Rect>, AllocError> {
    let mut found = Vec::new(alloc);
    for tooth in 0..TEETH {
        let x = 4 * i64::from(tooth);
        found.push(rect([x, 2, x + 2, 4]))?;
    }
    Ok(found)
}

/// Sets a strip and teeth that cross it, one by one from the left, and lists the crossings.
fn crossings_are_listed(alloc: Global) -> Result<bool, PlaneFault> {
    let mut plane = TilePlane::new(alloc)?;
    let crossings = crossings(alloc)?;
    let mut done = set(&mut plane, rect([0, 2, 4 * i64::from(TEETH), 4]), 1)?;
    for crossing in &crossings {
        let Rect { xlo, xhi, .. } = *crossing;
        done = done
            && set(&mut plane, rect([xlo, 0, xhi, 2]), 2)?
            && set(&mut plane, *crossing, 3)?
            && set(&mut plane, rect([xlo, 4, xhi, 6]), 2)?;
    }
    Ok(done && has_strips(&plane, 3, crossings.as_slice())?)
}

#[test]
fn many_teeth_cross_a_strip(rt: HostRuntime) -> Result<(), Fail> {
    assert!(rt; crossings_are_listed(rt.alloc())?);
    Ok(())
}

/// So many wires cross a row of contacts.
const WIRES: u16 = 25_000;

/// Rectangles of two columns in these rows, one for each wire, each 8 from the next.
fn spaced(alloc: Global, from: u8, ylo: i64, yhi: i64) -> Result<Vec<Rect>, AllocError> {
    let mut found = Vec::new(alloc);
    for wire in 0..WIRES {
        let x = 8 * i64::from(wire) + i64::from(from);
        found.push(rect([x, ylo, x + 2, yhi]))?;
    }
    Ok(found)
}

/// Sets a strip, contacts in it, and then wires that cross it between these, and lists the wires.
fn wires_are_listed(alloc: Global) -> Result<bool, PlaneFault> {
    let mut plane = TilePlane::new(alloc)?;
    let wires = spaced(alloc, 0, 0, 6)?;
    let contacts = spaced(alloc, 4, 2, 4)?;
    let mut done = set(&mut plane, rect([0, 0, 8 * i64::from(WIRES), 6]), 1)?;
    for contact in &contacts {
        done = done && set(&mut plane, *contact, 2)?;
    }
    for wire in &wires {
        done = done && set(&mut plane, *wire, 3)?;
    }
    Ok(done && has_strips(&plane, 3, wires.as_slice())?)
}

#[test]
fn many_wires_cross_a_row_of_contacts(rt: HostRuntime) -> Result<(), Fail> {
    assert!(rt; wires_are_listed(rt.alloc())?);
    Ok(())
}
