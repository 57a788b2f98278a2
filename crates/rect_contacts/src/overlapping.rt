//! Which rectangles of one list have a square in common with which of another.
ghost use Rattle.std.specs.Prelude.{IfOk, OnOk, All, AllPairs};
ghost use Rattle.std.specs.Ordering.{int_cmp};
ghost use Rattle.std.specs.BTreeMap.{get};
ghost use Rattle.geo_core.specs.FiniteSets.Lists.{Lists};
ghost use Rattle.geo_core.specs.Covering.{IsProper};
ghost use Rattle.geo_core.specs.Areas.{AreDisjoint, IsNear, IsSmall};
ghost use Rattle.rect_contacts.specs.steps.Actives.{AreActives, IsTurned};
ghost use Rattle.rect_contacts.specs.CommonSquares.{IsOverlap};

use crate::actives::{Active, add_met};
use crate::events::{Event, events};
use geo_core::Rect;
use std::alloc::{AllocError, Global};
use std::collections::BTreeMap;

/// One event is passed: a rectangle that begins meets those of the other list that the line crosses.
fn turn(
    event: &Event,
    own: &mut BTreeMap<i64, Active>,
    others: &BTreeMap<i64, Active>,
    pairs: &mut Vec<(usize, usize)>,
) -> Result<(), AllocError>
    requires from { IsSmall event.now.from }
    requires actives { AreActives (get int_cmp others.now) }
    ensures { OnOk result (IsTurned event.now (get int_cmp own.old) (get int_cmp own.new) (get int_cmp others.now) pairs.old.items pairs.new.items) }
{
    if event.begins {
        add_met(event, others, pairs)?;
        own.insert(
            event.to,
            Active {
                from: event.from,
                owner: event.owner,
            },
        )?;
    } else {
        own.remove(&event.to);
    }
    Ok(())
}

/// The pairs, each once, of places of a rectangle of the first list and one of the second that have a square in
/// common, in no order that callers may count on.
///
/// In each list, each rectangle has a square, no two have one in common, and each bound is below 2^28 in absolute
/// value. Want of memory alone is an error. It takes time for a sort, and for each rectangle and each pair that
/// it finds a search among the rectangles that one line crosses.
pub fn overlaps(
    alloc: Global,
    first: &[Rect],
    second: &[Rect],
) -> Result<Vec<(usize, usize)>, AllocError>
    requires first_proper { All IsProper first.now }
    requires first_near { All IsNear first.now }
    requires first_disjoint { AllPairs AreDisjoint first.now }
    requires second_proper { All IsProper second.now }
    requires second_near { All IsNear second.now }
    requires second_disjoint { AllPairs AreDisjoint second.now }
    ensures { IfOk result (λ pairs. Lists (IsOverlap first.now second.now) pairs.items) }
{
    let events = events(alloc, first, second)?;
    let mut firsts = BTreeMap::new(alloc);
    let mut seconds = BTreeMap::new(alloc);
    let mut pairs = Vec::new(alloc);
    for event in &events {
        if event.of_second {
            turn(event, &mut seconds, &firsts, &mut pairs)?;
        } else {
            turn(event, &mut firsts, &seconds, &mut pairs)?;
        }
    }
    Ok(pairs)
}
