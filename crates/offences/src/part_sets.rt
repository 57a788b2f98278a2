//! The sets that parts have where the same tiles cover each square.
ghost use Rattle.std.specs.Prelude.{◌≡◌, ◌<◌, ◌==◌, ◌++◌, ◌∷◌, [], All, AllPairs, length, map, OnOk, if◌then◌else◌};
ghost use Rattle.offences.specs.PartSets.{AreInPartOrder, HaveSetsOf, all_sets};

use crate::set_tiles::SetTile;
use std::alloc::AllocError;
use tech_model::PartSet;

/// What a part has at a square.
#[derive(Clone, Copy, Debug, PartialEq, Eq)]
pub struct PartSum {
    pub part: usize,
    pub set: PartSet,
}

/// Adds what a part has, if it has anything.
fn push_material(sums: &mut Vec<PartSum>, sum: PartSum) -> Result<(), AllocError>
    ensures { OnOk result (sums.new.items ≡ (if sum.set.0 == 0 then sums.old.items else sums.old.items ++ sum ∷ [])) }
{
    if sum.set.0 != 0 {
        sums.push(sum)?;
    }
    Ok(())
}

/// Lists what each part has where these of the tiles stand, in the order of parts, in the place of what the list had. The tiles are in that
/// order, and so the members of one part stand in a row.
pub fn list_part_sets(
    tiles: &[SetTile],
    members: &[usize],
    sums: &mut Vec<PartSum>,
) -> Result<(), AllocError>
    requires within { All (λ member. member < length tiles.now) members.now }
    requires ordered { AreInPartOrder tiles.now }
    requires ascending { AllPairs ◌<◌ members.now }
    ensures { OnOk result (HaveSetsOf tiles.now members.now sums.new.items) }
{
    sums.clear();
    let mut sum = PartSum {
        part: 0,
        set: PartSet(0),
    };
    for member in members {
        let tile = tiles[*member];
        if tile.part != sum.part {
            push_material(sums, sum)?;
            sum = PartSum {
                part: tile.part,
                set: PartSet(0),
            };
        }
        sum.set = PartSet(sum.set.0 | tile.set.0);
    }
    push_material(sums, sum)?;
    Ok(())
}

/// What all parts have together.
pub fn all_sets(sums: &[PartSum]) -> PartSet
    ensures { result.0 ≡ all_sets sums.now }
{
    let mut all = 0;
    for sum in sums {
        all |= sum.set.0;
    }
    PartSet(all)
}
