//! The sums of all groups.
ghost use Rattle.std.specs.Prelude.{◌≡◌, ◌<◌, ℕ, List as Listed, All, length, IfOk};
ghost use Rattle.finite_sets.specs.Lists.{Lists};
ghost use Rattle.meeting_laws.specs.FloodNodes.Stacking.{AreSpread};
ghost use Rattle.meeting_laws.specs.FloodNodes.TileShares.{IsTileContact};
ghost use Rattle.offences.specs.Offences.{SetLayout};
ghost use Rattle.offences.specs.PlaneStacks.{ArePlaneStacks};
ghost use Rattle.offences.specs.TypedStacks.{AreByPart};
ghost use Rattle.meeting_sums.specs.steps.Counts.{pairs_at, IsSmallSum};
ghost use Rattle.meeting_sums.specs.StackTiles.{tiles_of};
ghost use Rattle.meeting_sums.specs.Sums.{AreMeetingSums, IsSumOf};

use crate::capacitances::capacitance_of;
use crate::columns::{Column, columns_of};
use crate::limits::MOST_PARTS;
use names_lists::List;
use offences::PlaneStack;
use rect_contacts::Contact;
use std::alloc::{AllocError, Global};
use tech_model::Tech;

/// What the places of a group count in the flat layout beyond the parts: a capacitance in attofarads, and for each class an area in square
/// lambda and a perimeter in lambda. Each may be negative.
#[derive(Debug, Drop)]
pub struct MeetingSum {
    pub cap: i128,
    pub measures: List<(i128, i128)>,
}

/// The areas and perimeters of a group, a pair for each class.
fn measures_of(
    alloc: Global,
    columns: &[Column],
    group: usize,
) -> Result<Vec<(i128, i128)>, AllocError>
    requires areas { All (λ column. group < length column.areas.items) columns.now }
    requires perimeters { All (λ column. group < length column.perimeters.items) columns.now }
    ensures { IfOk result (λ measures. measures.items ≡ pairs_at group columns.now) }
{
    let mut measures = Vec::with_capacity(alloc, columns.len())?;
    for column in columns {
        measures.push((column.areas[group], column.perimeters[group]))?;
    }
    Ok(measures)
}

/// The sum of a group.
fn sum_of_group(
    alloc: Global,
    tech: &Tech,
    columns: &[Column],
    group: usize,
) -> Result<MeetingSum, AllocError>
    requires areas { All (λ column. group < length column.areas.items) columns.now }
    requires perimeters { All (λ column. group < length column.perimeters.items) columns.now }
    requires one_each { length columns.now ≡ length tech.now.classes }
    requires small { All IsSmallSum (pairs_at group columns.now) }
    ensures { IfOk result (IsSumOf tech.now.classes columns.now group) }
{
    let measures = measures_of(alloc, columns, group)?;
    Ok(MeetingSum {
        cap: capacitance_of(tech, measures.as_slice()),
        measures: List::of(measures),
    })
}

/// What the places of each group of pieces count in the flat layout of the parts less what they count in each part, for whichever parts
/// the pieces are of.
///
/// The pieces lie apart on planes of the technology, with a square and bounds in lambda below 2^28 in absolute value. Their parts rise and
/// are below `MOST_PARTS`. The contacts are those of the pieces as tiles, and the groups, one for each piece, are below the count. Want of
/// memory alone refuses. For each class it takes a step for each part of each piece, and for each contact a search for each part of its
/// first piece.
pub fn meeting_sums(
    alloc: Global,
    tech: &Tech,
    stacks: &[PlaneStack],
    contacts: &[Contact],
    groups: &[usize],
    count: usize,
) -> Result<Vec<MeetingSum>, AllocError>
    requires spread { AreSpread (tiles_of stacks.now) }
    requires planes { All (λ piece. piece.plane < length tech.now.planes) stacks.now }
    requires ordered { All (λ piece. AreByPart piece.stack.kinds) stacks.now }
    requires few_parts { All (λ piece. All (λ entry. entry.part < MOST_PARTS) piece.stack.kinds) stacks.now }
    requires contacts { Lists (IsTileContact (tiles_of stacks.now)) contacts.now }
    requires one_each { length groups.now ≡ length stacks.now }
    requires counted { All (λ group. group < count) groups.now }
    ensures { IfOk result (λ sums. (parts : Listed SetLayout) → ArePlaneStacks tech.now parts stacks.now
        → AreMeetingSums tech.now parts stacks.now groups.now count sums.items) }
{
    let classes = tech.raw().classes.items();
    let columns = columns_of(alloc, classes, stacks, contacts, groups, count)?;
    let mut sums = Vec::with_capacity(alloc, count)?;
    for group in 0..count {
        sums.push(sum_of_group(alloc, tech, columns.as_slice(), group)?)?;
    }
    Ok(sums)
}
