//! Contacts and overlaps worked by hand, and lists of real size.

use crate::areas::{Bounds, are_several, rect, rects};
use geo_core::Rect;
use rect_contacts::{Contact, overlaps, touching};
use std::alloc::{AllocError, Global};
use std::test::Fail;

/// Rectangles, and their contacts as the two places and the length.
struct Row {
    rects: &'static [Bounds],
    contacts: &'static [(usize, usize, i64)],
}

const ROWS: &[Row] = &[
    // Part of a side.
    Row {
        rects: &[[-3, -4, -1, -1], [-1, -2, 5, 7]],
        contacts: &[(0, 1, 1)],
    },
    Row {
        rects: &[[2, 1, 4, 5], [0, 0, 2, 3]],
        contacts: &[(0, 1, 2)],
    },
    // Corners share nothing.
    Row {
        rects: &[[0, 0, 1, 1], [1, 1, 2, 2], [-3, 1, 0, 4]],
        contacts: &[],
    },
    // One upon the other, and a letter T.
    Row {
        rects: &[[1, 1, 3, 2], [0, 0, 4, 1]],
        contacts: &[(0, 1, 2)],
    },
    Row {
        rects: &[[0, 3, 5, 4], [2, 0, 3, 3]],
        contacts: &[(0, 1, 1)],
    },
    // A ring around a hole.
    Row {
        rects: &[[0, 0, 2, 1], [2, 0, 3, 2], [1, 2, 3, 3], [0, 1, 1, 3]],
        contacts: &[(0, 1, 1), (1, 2, 1), (2, 3, 1), (0, 3, 1)],
    },
    // Several on one.
    Row {
        rects: &[[0, 0, 6, 2], [0, 2, 2, 3], [2, 2, 3, 5], [4, 2, 6, 3]],
        contacts: &[(0, 1, 2), (0, 2, 1), (0, 3, 2), (1, 2, 1)],
    },
];

/// The contacts of rectangles that lie apart, and none of others.
fn contacts_of(alloc: Global, rects: &[Rect]) -> Result<Vec<Contact>, AllocError> {
    if !are_several(rects) {
        return Ok(Vec::new(alloc));
    }
    touching(alloc, rects)
}

fn has_contacts(alloc: Global, row: &Row) -> Result<bool, AllocError> {
    let rects = rects(alloc, row.rects)?;
    let found = contacts_of(alloc, rects.as_slice())?;
    for &(first, second, length) in row.contacts {
        let contact = Contact {
            first,
            second,
            length,
        };
        if !found.contains(&contact) {
            return Ok(false);
        }
    }
    Ok(are_several(rects.as_slice()) && found.len() == row.contacts.len())
}

#[test]
fn rectangles_have_their_contacts(rt: HostRuntime) -> Result<(), Fail> {
    for row in ROWS {
        assert!(rt; has_contacts(rt.alloc(), row)?);
    }
    Ok(())
}

/// A back of 200,000 columns, and teeth upon it.
fn comb(alloc: Global) -> Result<Vec<Rect>, AllocError> {
    let mut comb = Vec::new(alloc);
    comb.push(rect([0, 0, 200_000, 1]))?;
    for tooth in 0..100_000_u32 {
        let left = 2 * i64::from(tooth);
        comb.push(rect([left, 1, left + 1, 9]))?;
    }
    Ok(comb)
}

#[test]
fn a_comb_has_a_contact_for_each_tooth(rt: HostRuntime) -> Result<(), Fail> {
    let comb = comb(rt.alloc())?;
    assert_eq!(rt; contacts_of(rt.alloc(), comb.as_slice())?.len(), 100_000);
    Ok(())
}

/// Unit squares, 300 by 300 of them.
fn grid(alloc: Global) -> Result<Vec<Rect>, AllocError> {
    let mut grid = Vec::new(alloc);
    for y in 0..300 {
        for x in 0..300 {
            grid.push(rect([x, y, x + 1, y + 1]))?;
        }
    }
    Ok(grid)
}

#[test]
fn a_grid_has_its_inner_edges(rt: HostRuntime) -> Result<(), Fail> {
    let grid = grid(rt.alloc())?;
    assert_eq!(rt;
        contacts_of(rt.alloc(), grid.as_slice())?.len(),
        2 * 300 * 299
    );
    Ok(())
}

/// Two lists of rectangles that lie apart, and the pairs of their places that have squares in common.
struct Upon {
    first: &'static [Bounds],
    second: &'static [Bounds],
    pairs: &'static [(usize, usize)],
}

const UPON: &[Upon] = &[
    // An edge and a corner have no square.
    Upon {
        first: &[[0, 0, 2, 2]],
        second: &[[2, 0, 4, 2], [2, 2, 4, 4]],
        pairs: &[],
    },
    // One square of a corner, one that holds another, and bars that cross.
    Upon {
        first: &[[0, 0, 2, 2], [5, 0, 9, 9], [-4, -6, -1, -5]],
        second: &[[1, 1, 4, 4], [6, 3, 7, 4], [-3, -9, -2, 0]],
        pairs: &[(0, 0), (1, 1), (2, 2)],
    },
    // One upon several.
    Upon {
        first: &[[0, 0, 9, 1]],
        second: &[[-1, 0, 1, 1], [2, 0, 3, 5], [8, -3, 9, 2], [9, 0, 10, 1]],
        pairs: &[(0, 0), (0, 1), (0, 2)],
    },
];

/// The pairs of rectangles of two lists that have squares in common, where those of each list lie apart, and none of others.
fn pairs_of(
    alloc: Global,
    first: &[Rect],
    second: &[Rect],
) -> Result<Vec<(usize, usize)>, AllocError> {
    if !are_several(first) || !are_several(second) {
        return Ok(Vec::new(alloc));
    }
    overlaps(alloc, first, second)
}

fn has_pairs(alloc: Global, row: &Upon) -> Result<bool, AllocError> {
    let first = rects(alloc, row.first)?;
    let second = rects(alloc, row.second)?;
    let found = pairs_of(alloc, first.as_slice(), second.as_slice())?;
    for pair in row.pairs {
        if !found.contains(pair) {
            return Ok(false);
        }
    }
    Ok(found.len() == row.pairs.len())
}

#[test]
fn overlaps_are_found(rt: HostRuntime) -> Result<(), Fail> {
    for row in UPON {
        assert!(rt; has_pairs(rt.alloc(), row)?);
    }
    Ok(())
}
