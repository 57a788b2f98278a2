//! The laws that the meaning of records is held to: there is one flat circuit of given records, sim records can be made of it, and it can be
//! simulated. The functions here do nothing; their contracts are the laws, and each module tells how its proofs go.
#![tactic(auto)]

mod circuits;
mod networks;

pub use circuits::{
    circuits_are_unique, flat_transistor_has_letter_and_lengths,
    flat_transistors_have_letter_and_lengths,
};
pub use networks::{flat_circuits_have_letters, flat_networks_fit, flat_networks_have_the_nodes};
