//! The kinds of paths that strengths are looked for of.

ghost use Rattle.std.specs.Prelude.{◌≡◌, ◌<◌, ◌↔◌, IsTrue, length};
ghost use Rattle.switch_net.specs.Path.{switch_strength, is_closed, is_closed_or_unknown};
ghost use Rattle.steady_state.specs.steps.Kinds.{goes_through, BeginsAt};

use switch_net::{Level, Switch, SwitchKind};

/// Definite paths, or unblocked ones from roots in another state than this.
#[derive(Clone, Copy, Debug, PartialEq, Eq)]
pub(crate) enum PathKind {
    Definite,
    FromOther(Level),
}

/// The strength of a switch.
#[inline(always)]
pub(crate) fn strength_of(kind: SwitchKind) -> u8
    ensures { result ≡ switch_strength kind }
{
    match kind {
        SwitchKind::D => 4,
        SwitchKind::N | SwitchKind::P => 5,
    }
}

/// Whether a switch is closed.
#[inline(always)]
pub(crate) fn is_closed_now(state: &[Level], switch: &Switch) -> bool
    requires { switch.now.gate < length state.now }
    ensures { result ≡ is_closed state.now switch.now }
{
    match switch.kind {
        SwitchKind::D => true,
        SwitchKind::N => state[switch.gate as usize] == Level::One,
        SwitchKind::P => state[switch.gate as usize] == Level::Zero,
    }
}

/// Whether a switch is closed or unknown.
#[inline(always)]
pub(crate) fn may_conduct(state: &[Level], switch: &Switch) -> bool
    requires { switch.now.gate < length state.now }
    ensures { result ≡ is_closed_or_unknown state.now switch.now }
{
    match switch.kind {
        SwitchKind::D => true,
        SwitchKind::N => state[switch.gate as usize] != Level::Zero,
        SwitchKind::P => state[switch.gate as usize] != Level::One,
    }
}

/// Whether paths of a kind go through a switch.
#[inline(always)]
pub(crate) fn passes(kind: PathKind, state: &[Level], switch: &Switch) -> bool
    requires { switch.now.gate < length state.now }
    ensures { result ≡ goes_through state.now kind switch.now }
{
    match kind {
        PathKind::Definite => is_closed_now(state, switch),
        PathKind::FromOther(_) => may_conduct(state, switch),
    }
}

/// Whether paths of a kind may begin at a node.
#[inline(always)]
pub(crate) fn begins_at(kind: PathKind, state: &[Level], node: usize) -> bool
    requires { node < length state.now }
    ensures { IsTrue result ↔ BeginsAt state.now kind node }
{
    match kind {
        PathKind::Definite => true,
        PathKind::FromOther(level) => state[node] != level,
    }
}
