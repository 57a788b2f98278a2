//! The terminals of a switch.

ghost use Rattle.std.specs.Prelude.{◌≡◌};
ghost use Rattle.switch_net.specs.Terminals.{near_end, far_end, node_at};

use crate::switches::Switch;

/// From which of its two ends a switch is looked at.
#[derive(Clone, Copy, Debug, PartialEq, Eq)]
pub enum Side {
    Left,
    Right,
}

/// The gate of a switch, or one of its ends.
#[derive(Clone, Copy, Debug, PartialEq, Eq)]
pub enum Terminal {
    Gate,
    End(Side),
}

impl Switch {
    /// The node at the end on this side.
    #[inline(always)]
    pub fn near(&self, side: Side) -> u32
        ensures { result ≡ near_end side self.now }
    {
        match side {
            Side::Left => self.left,
            Side::Right => self.right,
        }
    }

    /// The node at the other end.
    #[inline(always)]
    pub fn far(&self, side: Side) -> u32
        ensures { result ≡ far_end side self.now }
    {
        match side {
            Side::Left => self.right,
            Side::Right => self.left,
        }
    }

    /// The node at a terminal.
    pub fn node(&self, terminal: Terminal) -> u32
        ensures { result ≡ node_at terminal self.now }
    {
        match terminal {
            Terminal::Gate => self.gate,
            Terminal::End(side) => self.near(side),
        }
    }
}
