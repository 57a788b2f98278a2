//! The full names of the nodes of a tree of records: all names once, in name order, by numbers, and none written out before it is asked
//! for.
//!
//! A record's own names are sorted by their bytes once, however many elements it has (`own_names`). The global names come first, and are
//! found at the first element of each record (`reached`, `globals`). Any other full name is a place: an element and a name of its record
//! (`places`). It gets a key of five numbers, and keys are in the order of the names (`keys`), so that sorting them numbers the names
//! (`orders`). Before that the bytes of all names are counted (`byte_counts`).
//!
//! # How the proof goes
//!
//! Each step's loops have a file of laws: `OwnNameLaws`, `ReachedLaws`, `GlobalLaws`, `ByteLaws`, `PlaceLaws`, `KeyLaws`, `OrderLaws`, and
//! `TreeLaws` with `PathLaws` for paths that are written out; `RecordReads` and `Lookups` say what is read of lists, `SearchLaws` what a
//! binary search tells. They speak of what a tree has of its elements, and not of the elements.
//!
//! The rest ties that to the elements. `NameForms` has what the names of lawful records are like: a full name is the name alone where it is
//! global, else a path, two paths that are one have one element and one name, and global names stand before paths. `TreeNames` shows by
//! the numbers of elements that the names that lead to one have no slashes. `TextOrders` has that places in a record's names are in the
//! order of the bytes, and `KeyOrders`, the heart, that keys compare as the full names do: by the law of paths (`PathsCompareByParts`)
//! part by part, where elements as deep whose names tie are one element. `GlobalOriginLaws` goes from the first elements of records to all
//! elements. `NumberLaws` then has that global names and sorted places are the list of all full names, `ListOrders` that there is one such
//! list, and `NameBytes` that what is counted is the bytes of the names, each once, before any list is made. `NamesMade` puts this together
//! for the function that makes the names, and `QueryLaws`, `LocalReads` and `OriginLaws` for those that ask.
#![tactic(auto)]

mod byte_counts;
mod globals;
mod keys;
mod names;
mod orders;
mod own_names;
mod paths;
mod places;
mod reached;

pub use element_tree;
pub use names::{FullNames, Origin, Spot, full_names};
