//! Levels of nodes, and switches.

/// The state of a node: low, high, or not known to be either.
#[derive(Clone, Copy, Debug, PartialEq, Eq)]
pub enum Level {
    Zero,
    One,
    X,
}

/// What makes a switch conduct: `N` a gate at one, `P` a gate at zero, and `D` whatever its gate is
/// at.
#[derive(Clone, Copy, Debug, PartialEq, Eq)]
pub enum SwitchKind {
    N,
    P,
    D,
}

/// A transistor: the node of its gate, and the two nodes that it joins where it conducts.
#[derive(Clone, Copy, Debug, PartialEq, Eq)]
pub struct Switch {
    pub kind: SwitchKind,
    pub gate: u32,
    pub left: u32,
    pub right: u32,
}
