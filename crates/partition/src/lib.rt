//! Classes of pairs: which of the numbers below a count are joined by chains of pairs.
//!
//! `Partition` takes the pairs one at a time and stores none; `classes` takes a slice of them.
//! Of n numbers each pair takes a number of steps of the order of the logarithm of n, on an
//! average over all pairs: a walk to the root of a class halves the way that it took.
//!
//! # How the proof goes
//!
//! Three facts carry the forest (`Ancestors`). No parent is greater than its number (`PointDown`), so that each walk
//! ends. A list of leaders leads the parents (`Leads`) if each number has its parent's leader and each root leads
//! itself: there is one such list, `leaders_of`. And a number may get another parent of its class, if only a root gets
//! itself: halving a way therefore changes no leader, and joining two roots changes just those of the greater one's
//! class. `Division` ties leaders to chains of pairs: one more pair makes one mark of two, and a chain that uses the
//! pair is taken apart where it does. `Numbering` shows that the labels, which count the roots before, are the leaders
//! under other names and in their order, and `Uniqueness` that nothing else is: at the first place where two numbered
//! lists differ both would have to be new.
#![tactic(auto)]

mod forest;
mod stream;

pub use stream::{Labelling, Partition, classes, labels_are_unique};
