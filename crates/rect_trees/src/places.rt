//! Rectangles in an order in which those that stand near one another lie near one another.
ghost use Rattle.std.specs.Prelude.{IfOk};
ghost use Rattle.rect_trees.specs.Positions.{ArePlaces};

use geo_core::Rect;
use std::alloc::{AllocError, Global};

/// Where a rectangle stands: in which band of the plane, and how far along it.
#[derive(Clone, Copy, Debug, PartialEq, Eq, PartialOrd, Ord)]
pub struct Place {
    pub band: usize,
    pub along: i64,
    /// The position of the rectangle in its list.
    pub position: usize,
}

/// The rectangles that have squares, in one band, from below.
fn from_below(alloc: Global, rects: &[Rect]) -> Result<Vec<Place>, AllocError>
    ensures { IfOk result (λ places. ArePlaces rects.now places.items) }
{
    let mut places = Vec::new(alloc);
    for (position, rect) in rects.iter().enumerate() {
        if rect.has_square() {
            places.push(Place {
                band: 0,
                along: rect.ylo,
                position,
            })?;
        }
    }
    places.sort_unstable();
    Ok(places)
}

/// As many bands of these as each band has rectangles, each band from the left.
fn in_bands(alloc: Global, rects: &[Rect], rising: &[Place]) -> Result<Vec<Place>, AllocError>
    requires { ArePlaces rects.now rising.now }
    ensures { IfOk result (λ places. ArePlaces rects.now places.items) }
{
    let in_each = rising.len().isqrt().max(1);
    let mut places = Vec::with_capacity(alloc, rising.len())?;
    for (rank, place) in rising.iter().enumerate() {
        let position = place.position;
        places.push(Place {
            band: rank / in_each,
            along: rects[position].xlo,
            position,
        })?;
    }
    places.sort_unstable();
    Ok(places)
}

/// The places of the rectangles that have squares, in bands from below, and in each band from the left.
pub fn places(alloc: Global, rects: &[Rect]) -> Result<Vec<Place>, AllocError>
    ensures { IfOk result (λ places. ArePlaces rects.now places.items) }
{
    let rising = from_below(alloc, rects)?;
    in_bands(alloc, rects, &rising)
}
