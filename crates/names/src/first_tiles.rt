//! The first tiles of classes of regions, in the order of places.
ghost use Rattle.std.specs.Prelude.{◌≡◌, ◌<◌, All, AllPairs, IfOk, IsPermutation, length};
ghost use Rattle.geo_core.specs.FiniteSets.Lists.{In};
ghost use Rattle.layout_model.specs.Places.{IsNoLater};
ghost use Rattle.names.specs.steps.FirstTiles.{corner_place, AreFirstTiles, AreUnmarked};

use layout_model::RegionTile;
use std::alloc::{AllocError, Global};

/// The tiles in the order of their least places.
fn in_place_order(alloc: Global, tiles: &[RegionTile]) -> Result<Vec<RegionTile>, AllocError>
    ensures moved { IfOk result (λ sorted. IsPermutation tiles.now sorted.items) }
    ensures sorted { IfOk result (λ sorted. AllPairs (λ a b. IsNoLater (corner_place a) (corner_place b)) sorted.items) }
{
    let mut sorted = Vec::from_slice(alloc, tiles)?;
    sorted.sort_unstable_by_key(|tile| (tile.plane, (tile.area.ylo, tile.area.xlo)));
    Ok(sorted)
}

/// A mark for each of so many classes, none of them set.
fn no_marks(alloc: Global, count: usize) -> Result<Vec<bool>, AllocError>
    ensures { IfOk result (λ marks. AreUnmarked count marks.items) }
{
    vec![in alloc; false; count]
}

/// Of tiles in the order of places, the first of each class.
fn first_of_classes(
    alloc: Global,
    sorted: &[RegionTile],
    classes: &[usize],
    count: usize,
) -> Result<Vec<RegionTile>, AllocError>
    requires regions { All (λ tile. tile.region < length classes.now) sorted.now }
    requires classes { All (λ class. class < count) classes.now }
    requires sorted { AllPairs (λ a b. IsNoLater (corner_place a) (corner_place b)) sorted.now }
    ensures { IfOk result (λ firsts. AreFirstTiles classes.now (λ tile. In tile sorted.now) firsts.items) }
{
    let mut seen = no_marks(alloc, count)?;
    let mut firsts = Vec::new(alloc);
    for tile in sorted {
        let class = classes[tile.region];
        if !seen[class] {
            seen[class] = true;
            firsts.push(*tile)?;
        }
    }
    Ok(firsts)
}

/// The first tile of each class that has one, in the order of places, where regions have classes below the count.
pub fn first_tiles(
    alloc: Global,
    tiles: &[RegionTile],
    classes: &[usize],
    count: usize,
) -> Result<Vec<RegionTile>, AllocError>
    requires regions { All (λ tile. tile.region < length classes.now) tiles.now }
    requires classes { All (λ class. class < count) classes.now }
    ensures { IfOk result (λ firsts. AreFirstTiles classes.now (λ tile. In tile tiles.now) firsts.items) }
{
    let sorted = in_place_order(alloc, tiles)?;
    first_of_classes(alloc, sorted.as_slice(), classes, count)
}
