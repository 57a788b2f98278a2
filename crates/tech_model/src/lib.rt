//! Technologies of layouts: planes, tile types, what connects to what, classes and transistors.
//!
//! # How the proof goes
//!
//! The definitions search lists; the code looks a name up in an index and a pair in a table. `LayerWordLaws` and
//! `PairTableLaws` say that both answer alike. The rules are searched in loops over types and over pairs of types:
//! `PairSearch` says that two loops find what one search of all pairs finds, and `RuleLaws` that what is found names
//! types, and that the rules hold where nothing is found.
//!
//! The laws of `laws` rest on sets of parts as numbers (`SetLaws`): on its plane a set names one type (`JoinedLaws`), what
//! is within what is an order (`TypeLaws`, `WithinLaws`), and the images of a contact have its mark, and nothing else, in
//! common, and without it the sets of their residues (`MarkLaws`). Paint and erasing leave a type of its plane on each
//! plane (`ColumnLaws`). Then each contact is looked at in turn: `WholeLaws` says that one that was looked at stands whole
//! from then on, and `LocalLaws` that what is left on a plane depends on that plane alone.
#![tactic(auto)]

mod columns;
mod faults;
mod index;
mod indexed;
mod laws;
mod layers;
mod limits;
mod pair_table;
mod raw;
mod rules;
mod tech;

pub use columns::Brush;
pub use faults::{LimitedList, Section, TechFault};
pub use index::LayerIndex;
pub use laws::{
    columns_are_local, columns_stay_whole, connects_both_ways, connects_types,
    fets_are_no_terminals, joined_has_set, layers_are_linked, marks_are_bits, rules_are_exact,
    sets_name_types, space_is_alone, within_is_an_order,
};
pub use layers::Layers;
pub use limits::{
    FIRST_MARK, LARGEST_MEASURE, LONGEST_LABEL, MOST_CLASSES, MOST_FETS, MOST_PLANES, MOST_TYPES,
    PART_BITS,
};
pub use raw::{ClassRec, FetRule, Label, LayerId, LayerRec, PartSet, RawTech, TypeId, TypeRec};
pub use tech::Tech;
