//! What a CIF text says: layers, symbols of boxes and calls, and a top level; and which squares of which layers that means.
//!
//! A symbol calls symbols that are defined before it. A called symbol's items are moved by the steps of the call, from left to right; the
//! calls of a chain move them from the inmost outward. A square belongs to a layer where some chain of calls from the top level leads
//! to a box of the layer that covers it when it is so moved (`specs/Meanings.antt`).
#![tactic(auto)]

mod cifs;

pub use cifs::{Cif, CifItem, CifMove, CifSymbol};
