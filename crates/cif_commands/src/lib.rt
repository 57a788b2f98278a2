//! The commands on CIF texts: `cif`, once there is the cell, which stores the cell's text, and `cifstat`, which tells how many squares a text
//! gives to each of its layers. Both leave the session as it is.
//!
//! # How the proof goes
//!
//! The strips of a layer lie apart and cover exactly its squares, so the sum of their areas counts these (`proofs/StripTotals.antt`): each strip
//! has as many squares as its area says, and what two of them have together is the sum. That the sums fit comes from the range in which all
//! boxes of an expanded text lie (`proofs/NearStrips.antt`). What each command does is one effect: a cell has one text, a set one number of
//! squares, and a text is past at most one first limit (`proofs/OneEffects.antt`).
#![tactic(auto)]

mod command_cif;
mod command_cifstat;
mod laws;
mod layer_lines;
mod refusals;

pub use command_cif::cif;
pub use command_cifstat::cifstat;
pub use laws::cif_commands_mean_one_effect;
