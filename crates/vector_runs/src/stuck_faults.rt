//! Faults of a network.
ghost use Rattle.std.specs.Prelude.{◌≡◌};
ghost use Rattle.vector_runs.specs.Watching.{is_left_out, is_of};

use switch_net::Level;
use vector_files::VecLine;

/// A node that is stuck: it is an input in this state from the start of a run on, and no line sets it, frees it or gives it a size.
#[derive(Clone, Copy, Debug, PartialEq, Eq)]
pub struct StuckFault {
    pub node: u32,
    pub value: Level,
}

// Whether a line would set the node, free it or give it a size.
fn is_of(node: u32, line: &VecLine) -> bool
    ensures { result ≡ is_of node line.now }
{
    match line {
        VecLine::Set(other, _) | VecLine::Free(other) | VecLine::Size(other, _) => *other == node,
        VecLine::Phase | VecLine::Show(_) => false,
    }
}

/// Whether a line does nothing where a node may be stuck.
pub fn is_left_out(stuck: Option<StuckFault>, line: &VecLine) -> bool
    ensures { result ≡ is_left_out stuck line.now }
{
    match stuck {
        Some(fault) => is_of(fault.node, line),
        None => false,
    }
}
