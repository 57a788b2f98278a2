//! Names and lists, which every layer hands to the next. Contracts see a name as the list of its bytes, and a list as the
//! list of its items, so that two of them are compared by what is in them alone.
#![tactic(auto)]

mod lists;
mod names;

pub use lists::List;
pub use names::Name;
