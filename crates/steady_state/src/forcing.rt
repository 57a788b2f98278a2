//! The rounds that follow where a phase has not settled within its budget. Each takes the nodes that
//! a step would still change, makes them X, and holds them there.

ghost use Rattle.std.specs.Prelude.{◌≡◌, ◌≤◌, ◌<◌, ◌⊎◌, ℕ, All, count_by, length, not, slice_index};
ghost use Rattle.switch_net.specs.Phase.{AreForced};
ghost use Rattle.switch_net.specs.Sets.{IsAmong, IsInside};
ghost use Rattle.switch_net.specs.Steady.{IsStep};
ghost use Rattle.steady_state.specs.steps.Rounds.{AreMadeX};
ghost use Rattle.steady_state.specs.Levels.{AreReadyFor, KeepsOthers};
ghost use Rattle.steady_state.specs.Marked.{AddsMarks, AreMarked};
ghost use Rattle.steady_state.specs.steps.Wired.{network_in};

use crate::changes::{changes, mark_changed};
use crate::stepping::step_marked;
use crate::wiring::Wiring;
use switch_net::{Level, NodeSet, Strengths};

/// Makes these nodes X, in what a step would make of them too, and adds them to the forced ones.
fn force(nodes: &[u32], forced: &mut NodeSet, state: &mut [Level], next: &mut [Level])
    requires nodes { All (λ v. v < length state.old) nodes.now }
    requires forced { length forced.old.inside ≡ length state.old }
    requires next { length next.old ≡ length state.old }
    ensures fits { length forced.new.inside ≡ length forced.old.inside }
    ensures adds { AddsMarks forced.old forced.new }
    ensures only { (v : ℕ) → IsInside forced.new.inside v
        → IsInside forced.old.inside v ⊎ IsAmong nodes.now (length nodes.now) v }
    ensures all { (i : ℕ) → i < length nodes.now
        → IsInside forced.new.inside (slice_index nodes.now i) }
    ensures state { AreMadeX nodes.now (length nodes.now) state.old state.new }
    ensures next { AreMadeX nodes.now (length nodes.now) next.old next.new }
{
    'nodes: for node in nodes {
        let at = *node as usize;
        state[at] = Level::X;
        next[at] = Level::X;
        forced.add(*node);
    }
}

/// Takes rounds until none would take a node, and says how many those are. A step has been worked
/// out, and the marked nodes alone differ after it. Each round but the first looks at the vicinities
/// alone in which the one before changed something.
pub(crate) fn force_all(
    net: &Wiring<'_>,
    state: &mut [Level],
    forced: &mut NodeSet,
    marks: &mut NodeSet,
    strengths: &mut Strengths,
    next: &mut [Level],
    changed: &mut [u32],
) -> u32
    requires state { length state.old ≡ net.now.nodes }
    requires forced { length forced.old.inside ≡ net.now.nodes }
    requires marks { AreMarked (network_in net.now) marks.old }
    requires strengths { AreReadyFor net.now.nodes strengths.old }
    requires step { IsStep (network_in net.now) state.old next.old }
    requires kept { KeepsOthers marks.old.inside state.old next.old }
    requires changed { length changed.old ≡ net.now.nodes }
    ensures rounds { AreForced (network_in net.now) result state.old state.new }
    ensures few { result ≤ count_by not net.now.inputs.now }
    ensures forced { length forced.new.inside ≡ net.now.nodes }
    ensures marks { length marks.new.inside ≡ net.now.nodes }
    ensures strengths { AreReadyFor net.now.nodes strengths.new }
{
    forced.clear();
    let mut rounds = 0;
    'rounds: loop {
        let moved = changes(marks.nodes(), state, next, changed);
        let before = forced.count;
        force(&changed[..moved], forced, state, next);
        if forced.count == before {
            return rounds;
        }
        marks.clear();
        mark_changed(net, &forced.nodes()[before..], marks);
        step_marked(net, state, marks, changed, strengths, next);
        rounds += 1;
    }
}
