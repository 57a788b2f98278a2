//! Steps and phases of networks, and grades of vectors, as worked out by hand, and phases of large networks.
#![tactic(auto)]

#[cfg(test)]
mod circuits;
#[cfg(test)]
mod grades;
#[cfg(test)]
mod large;
#[cfg(test)]
mod rows;
