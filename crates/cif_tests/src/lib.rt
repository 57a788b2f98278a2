//! Tests of the public calls on CIF texts: tables of texts, each with what it says or where it is refused, and what it expands to or which limit
//! it passes, as worked out by hand.
#![tactic(auto)]

#[cfg(test)]
mod expanded_texts;
#[cfg(test)]
mod faulty_texts;
#[cfg(test)]
mod large_texts;
#[cfg(test)]
mod read_texts;
