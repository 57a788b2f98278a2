//! Transforms and grids, worked by hand.
ghost use Rattle.std.specs.Prelude.{◌≡◌, ◌≤◌, IfSome};
ghost use Rattle.geo_core.specs.Elements.{indices, IsLawful};

use crate::areas::{Bounds, rect};
use geo_core::{Grid, MOST_ELEMENTS, Orient, Rect, Transform};
use std::test::Fail;

/// A grid in a table: `xlo xhi xsep ylo yhi ysep`.
type Numbers = [i16; 6];

/// Two columns, of which the first is number 1 and stands at x = 0, and two rows.
const BACK: Numbers = [1, 0, -5, 0, 1, 7];

/// Three columns and two rows that go down.
const DOWN: Numbers = [3, 1, -10, 0, -1, -4];

/// A question of transforms or grids, and its answer.
#[derive(Clone, Copy)]
enum Asked {
    /// Where a transform takes the rectangle from (1, 2) to (4, 3).
    Turned([i64; 6], Bounds),
    NoTransform([i64; 6]),
    Count(Numbers, u64),
    /// The column, the row, and how far they are displaced, of an element.
    Element(Numbers, u64, (i64, i64, i64, i64)),
}

const QUESTIONS: &[Asked] = &[
    Asked::Turned([1, 0, 10, 0, 1, 20], [11, 22, 14, 23]),
    Asked::Turned([0, -1, 10, 1, 0, 20], [7, 21, 8, 24]),
    Asked::Turned([-1, 0, 10, 0, -1, 20], [6, 17, 9, 18]),
    Asked::Turned([0, 1, 10, -1, 0, 20], [12, 16, 13, 19]),
    Asked::Turned([1, 0, 10, 0, -1, 20], [11, 17, 14, 18]),
    Asked::Turned([-1, 0, 10, 0, 1, 20], [6, 22, 9, 23]),
    Asked::Turned([0, 1, 10, 1, 0, 20], [12, 21, 13, 24]),
    Asked::Turned([0, -1, 10, -1, 0, 20], [7, 16, 8, 19]),
    Asked::NoTransform([1, 0, 0, 0, 0, 0]),
    Asked::NoTransform([2, 0, 0, 0, 2, 0]),
    Asked::Count(BACK, 4),
    Asked::Element(BACK, 0, (1, 0, 0, 0)),
    Asked::Element(BACK, 1, (0, 0, -5, 0)),
    Asked::Element(BACK, 2, (1, 1, 0, 7)),
    Asked::Element(BACK, 3, (0, 1, -5, 7)),
    Asked::Count(DOWN, 6),
    Asked::Element(DOWN, 0, (3, 0, 0, 0)),
    Asked::Element(DOWN, 1, (2, 0, -10, 0)),
    Asked::Element(DOWN, 2, (1, 0, -20, 0)),
    Asked::Element(DOWN, 3, (3, -1, 0, -4)),
    Asked::Element(DOWN, 4, (2, -1, -10, -4)),
    Asked::Element(DOWN, 5, (1, -1, -20, -4)),
];

/// The image of a wide rectangle, turned and displaced by (10, 20).
fn displaced(orient: Orient) -> Rect {
    let transform = Transform {
        orient,
        dx: 10,
        dy: 20,
    };
    transform.rect(Rect {
        xlo: 1,
        ylo: 2,
        xhi: 4,
        yhi: 3,
    })
}

fn goes_to(six: [i64; 6], area: Bounds) -> bool {
    let Some(transform) = Transform::of_six(six) else {
        return false;
    };
    transform.six() == six && displaced(transform.orient) == rect(area)
}

/// How many values an index has that runs from one end to the other.
fn extent(from: i16, to: i16) -> u64
    ensures count { result ≡ indices from to }
    ensures few { result ≤ 65536 }
{
    u64::from(from.abs_diff(to)) + 1
}

/// The grid of these numbers, if it has no more elements than a grid may have.
fn grid(numbers: Numbers) -> Option<Grid>
    ensures { IfSome result IsLawful }
{
    let [xlo, xhi, xsep, ylo, yhi, ysep] = numbers;
    if extent(xlo, xhi) * extent(ylo, yhi) > MOST_ELEMENTS as u64 {
        return None;
    }
    Some(Grid {
        xlo: i64::from(xlo),
        xhi: i64::from(xhi),
        xsep: i64::from(xsep),
        ylo: i64::from(ylo),
        yhi: i64::from(yhi),
        ysep: i64::from(ysep),
    })
}

fn has_count(numbers: Numbers, want: u64) -> bool {
    match grid(numbers) {
        Some(grid) => grid.count() == want,
        None => false,
    }
}

fn has_element(numbers: Numbers, k: u64, want: (i64, i64, i64, i64)) -> bool {
    match grid(numbers) {
        Some(grid) => k < grid.count() && grid.element(k) == want,
        None => false,
    }
}

fn is_answered(asked: Asked) -> bool {
    match asked {
        Asked::Turned(six, area) => goes_to(six, area),
        Asked::NoTransform(six) => Transform::of_six(six).is_none(),
        Asked::Count(numbers, want) => has_count(numbers, want),
        Asked::Element(numbers, k, want) => has_element(numbers, k, want),
    }
}

#[test]
fn transforms_and_grids_are_as_worked_by_hand(rt: HostRuntime) -> Result<(), Fail> {
    for asked in QUESTIONS {
        assert!(rt; is_answered(*asked));
    }
    Ok(())
}
