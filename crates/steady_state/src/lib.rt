//! Steps and phases of a network. The first step of a phase looks at the whole network, and every
//! later one at the vicinities of what changed: at the nodes that the step before changed, at both
//! ends of the switches that these gate, at what closed or unknown switches join to them through
//! nodes that store charge, and at the switches of all those. So a phase costs a walk over the
//! network once, and then what its changes cost. Where inputs alone were set since the network
//! rested, the first step looks at what they lead to, and the walk is spared. It takes no memory.
//! Where a phase has not settled within its budget, the nodes that would still change are forced to
//! X, in rounds; each but the first looks at the vicinities of what the one before took.
//!
//! # How the proof goes
//!
//! A step needs three strengths at each node: that of the strongest definite path, and those of the
//! strongest unblocked paths from roots in another state than one, and than zero (`Kinds`). They are
//! found vicinity by vicinity: what is listed while one is explored is closed, since no switch leads
//! from it to an earlier one (`Vicinity`). What paths begin with at a node, by itself and from inputs,
//! is gathered for all three kinds in one look at its switches (`Gathering`). Then a pass for each kind
//! takes away what is below the floors, the strengths of the definite paths, and lifts the nodes at the
//! far ends of switches until no switch brings more (`UnderWay`). Every switch brings no more, but those
//! of nodes that wait and of the node that is looked at; entries only rise, which also bounds the work.
//! A node need not wait where it is alone in its vicinity, or has no more than all have by themselves.
//! When none waits, each entry bounds all paths of its kind, by a recursion on the path, and is the
//! strength of one of them (`Within`, `Passes`). The two others say
//! the steady value: one where no unblocked path has a root in another state than one, and likewise
//! zero. A step of the marked vicinities is a step of the network where all other nodes are quiet
//! (`Collecting`, `Moving`), and after it the nodes are quiet that are in no vicinity of what changed.
//! Where a network rests and an input is set, the nodes are quiet that are in no vicinity of the ends
//! of switches at which the input stands (`Resting`). In the rounds each node rests that is not forced
//! and in no vicinity of what the last one took, and each forced node is X, so a node is taken once, and
//! there are at most as many rounds as nodes that store charge (`Rounds`).
#![tactic(auto)]

mod adjacent;
mod beginning;
mod changes;
mod exploring;
mod finding;
mod forcing;
mod kinds;
mod marking;
mod part;
mod settling;
mod spreading;
mod stepping;
mod wiring;

pub use settling::{Settled, settle, settle_from, step, step_near, step_within};
