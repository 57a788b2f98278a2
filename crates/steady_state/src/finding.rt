//! Passes over a part: the strongest paths of a kind to each of its nodes, from what paths begin with
//! there.

ghost use Rattle.std.specs.Prelude.{◌≡◌, ◌<◌, ℕ, All, length, slice_index};
ghost use Rattle.switch_net.specs.Sets.{IsInside, IsAmong};
ghost use Rattle.steady_state.specs.declared.kinds.PathKind.TheVariants.{Definite, FromOther};
ghost use Rattle.steady_state.specs.steps.Gathering.{IsGathered};
ghost use Rattle.steady_state.specs.steps.Lowering.{IsLowered};
ghost use Rattle.steady_state.specs.steps.Parts.{IsPartOf, IsInPart};
ghost use Rattle.steady_state.specs.steps.Kinds.{IsStrongestOfKind};
ghost use Rattle.steady_state.specs.steps.Wired.{network_in};

use crate::kinds::PathKind;
use crate::part::{Part, Pass};
use crate::spreading::drain;
use crate::wiring::Wiring;
use switch_net::{Level, NodeSet};

/// Has the nodes of a part wait that may bring something to others: those of more than the least
/// strength, unless the part has one node alone.
#[inline(always)]
fn enqueue(order: &[u32], best: &[u8], waiting: &mut NodeSet)
    requires order { All (λ v. v < length best.now) order.now }
    requires fits { length waiting.old.inside ≡ length best.now }
    requires idle { waiting.old.count ≡ 0 }
    ensures fits { length waiting.new.inside ≡ length waiting.old.inside }
    ensures inner { (v : ℕ) → IsInside waiting.new.inside v → IsAmong order.now (length order.now) v }
    ensures waits { (i : ℕ) → i < length order.now → 1 < length order.now
        → 1 < slice_index best.now (slice_index order.now i) → IsInside waiting.new.inside (slice_index order.now i) }
{
    if order.len() == 1 {
        return;
    }
    'nodes: for node in order {
        if best[*node as usize] > 1 {
            waiting.add(*node);
        }
    }
}

/// Writes 0 at the nodes of a part that are below their floors. The others wait, unless the part has one
/// node alone.
#[inline(always)]
fn lower(order: &[u32], floor: &[u8], best: &mut [u8], waiting: &mut NodeSet)
    requires order { All (λ v. v < length best.old) order.now }
    requires floor { length floor.now ≡ length best.old }
    requires fits { length waiting.old.inside ≡ length best.old }
    requires idle { waiting.old.count ≡ 0 }
    ensures fits { length waiting.new.inside ≡ length waiting.old.inside }
    ensures lowered { IsLowered order.now floor.now (length order.now) best.old best.new waiting.new.inside }
{
    let alone = order.len() == 1;
    'nodes: for node in order {
        let at = *node as usize;
        if best[at] < floor[at] {
            best[at] = 0;
        } else if !alone {
            waiting.add(*node);
        }
    }
}

/// Finds the strongest definite paths to the nodes of a part.
pub(crate) fn find_definite(
    net: &Wiring<'_>,
    part: &Part<'_>,
    best: &mut [u8],
    waiting: &mut NodeSet,
)
    requires part { IsPartOf (network_in net.now) part.now }
    requires best { length best.old ≡ net.now.nodes }
    requires gathered { (v : ℕ) → IsInPart part.now v
        → IsGathered (network_in net.now) part.now.state.now Definite v (slice_index best.old v) }
    requires fits { length waiting.old.inside ≡ net.now.nodes }
    requires idle { waiting.old.count ≡ 0 }
    ensures strongest { (v : ℕ) → IsInPart part.now v
        → IsStrongestOfKind (network_in net.now) part.now.state.now Definite v (slice_index best.new v) }
    ensures fits { length waiting.new.inside ≡ net.now.nodes }
    ensures idle { waiting.new.count ≡ 0 }
{
    let pass = Pass {
        kind: PathKind::Definite,
        part: *part,
        floor: None,
    };
    enqueue(part.order, best, waiting);
    drain(net, &pass, best, waiting);
}

/// Finds the strongest unblocked paths to the nodes of a part from roots in another state than this.
/// The floors are the strengths of the strongest definite paths.
pub(crate) fn find_from_other(
    net: &Wiring<'_>,
    part: &Part<'_>,
    level: Level,
    floor: &[u8],
    best: &mut [u8],
    waiting: &mut NodeSet,
)
    requires part { IsPartOf (network_in net.now) part.now }
    requires floor { length floor.now ≡ net.now.nodes }
    requires definite { (v : ℕ) → IsInPart part.now v
        → IsStrongestOfKind (network_in net.now) part.now.state.now Definite v (slice_index floor.now v) }
    requires best { length best.old ≡ net.now.nodes }
    requires gathered { (v : ℕ) → IsInPart part.now v
        → IsGathered (network_in net.now) part.now.state.now (FromOther level) v (slice_index best.old v) }
    requires fits { length waiting.old.inside ≡ net.now.nodes }
    requires idle { waiting.old.count ≡ 0 }
    ensures strongest { (v : ℕ) → IsInPart part.now v
        → IsStrongestOfKind (network_in net.now) part.now.state.now (FromOther level) v (slice_index best.new v) }
    ensures fits { length waiting.new.inside ≡ net.now.nodes }
    ensures idle { waiting.new.count ≡ 0 }
{
    let pass = Pass {
        kind: PathKind::FromOther(level),
        part: *part,
        floor: Some(floor),
    };
    lower(part.order, floor, best, waiting);
    drain(net, &pass, best, waiting);
}
