//! The rectangles of one list that a line crosses, by where they end along it.
ghost use Rattle.std.specs.Prelude.{◌≡◌, ◌≤ℤ◌, ℤ, Some, IfSome, IfNone, OnOk};
ghost use Rattle.std.specs.Ordering.{int_cmp};
ghost use Rattle.std.specs.BTreeMap.{get};
ghost use Rattle.geo_core.specs.Areas.{IsSmall};
ghost use Rattle.rect_contacts.specs.declared.actives.Active.{Active as OneActive};
ghost use Rattle.rect_contacts.specs.steps.Actives.{AreActives, IsFirstPast, AddsMet};
ghost use Rattle.rect_contacts.specs.steps.Events.{pair_of};

use crate::events::Event;
use std::alloc::AllocError;
use std::collections::BTreeMap;

/// A rectangle that the line crosses: where it begins along the line, and its place in its list.
#[derive(Clone, Copy, Debug, PartialEq, Eq)]
pub struct Active {
    pub from: i64,
    pub owner: usize,
}

/// The first of them that ends past `x`, with its end.
fn first_past(actives: &BTreeMap<i64, Active>, x: i64) -> Option<(i64, Active)>
    requires { IsSmall x }
    ensures some { IfSome result (λ p. IsFirstPast (get int_cmp actives.now) x p.0 p.1) }
    ensures none { IfNone result ((a : ℤ) (active : OneActive) → get int_cmp actives.now a ≡ Some active → a ≤ℤ x) }
{
    let (to, active) = actives.range(x + 1..).next()?;
    Some((*to, *active))
}

/// The places of two rectangles, that of the first list's first.
fn pair_of(event: &Event, owner: usize) -> (usize, usize)
    ensures { result ≡ pair_of event.now owner }
{
    if event.of_second {
        (owner, event.owner)
    } else {
        (event.owner, owner)
    }
}

/// Adds the pair of the event's rectangle with each of them that it meets along the line.
pub fn add_met(
    event: &Event,
    others: &BTreeMap<i64, Active>,
    pairs: &mut Vec<(usize, usize)>,
) -> Result<(), AllocError>
    requires from { IsSmall event.now.from }
    requires actives { AreActives (get int_cmp others.now) }
    ensures { OnOk result (AddsMet event.now (get int_cmp others.now) pairs.old.items pairs.new.items) }
{
    let mut x = event.from;
    while let Some((to, active)) = first_past(others, x) {
        if event.to <= active.from {
            break;
        }
        pairs.push(pair_of(event, active.owner))?;
        x = to;
    }
    Ok(())
}
