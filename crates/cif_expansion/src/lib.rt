//! Expands a CIF text: the strips of the squares of each of its layers, or the limit that it passes.
//!
//! What the text stands for is counted first, in one pass over its items, so a text that is past a limit is refused at once, however much it
//! stands for. Then the symbols are drawn one after another, the last first: a symbol is called by later ones and the top level alone, so by its
//! time all its instances are known. Each of its boxes is put into its layer once for each instance, and each of its calls makes one instance of
//! the called symbol for each. The steps of a call are taken together once. Where a symbol has been drawn, its instances are freed.
//!
//! # How the proof goes
//!
//! `sizes` computes the numbers of `cif_model`'s definition as far as the limits go: a number that is past its limit counts as one past it, and
//! such numbers add up as the true ones do. `ReachLaws` bounds how far transforms move: a call by fewer than 2^64 steps of less than 2^53, and a
//! chain by 64 calls, so 128 bits hold all that `placements` computes, and it computes the images and composed transforms of `geo_core`'s
//! definitions (`ViewLaws`). `AddedLaws` and `DrawnLaws` say what a symbol's items add to the lists of boxes and of waiting instances.
//! `ExpansionLaws` is the main part: the boxes that are drawn already and those that stand under the waiting instances are together those that
//! stand under some list of calls from the top level. It is so once the top level is drawn, and stays so with each symbol, since a box under a
//! list of calls is a box of the items or stands under the first call; in the end nothing waits. That a waiting instance is near is shown by the
//! depth of what it leads to, which falls with each call (`SizeLaws` of `cif_model`). The squares in the union of a layer's boxes are then those
//! that the text means, and a set has one list of strips.
#![tactic(auto)]

mod drawing;
mod expansion;
mod faults;
mod limits;
mod placements;
mod sizes;

pub use expansion::{LayerStrips, expand};
pub use faults::ExpansionFault;
pub use limits::{CifLimit, LONGEST_CHAIN, MOST_BOXES, MOST_INSTANCES};
