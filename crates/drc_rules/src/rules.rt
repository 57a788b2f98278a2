//! Design rules.

use names_lists::List;
use tech_model::TypeId;

/// What a rule asks of its lists. A box has sides of as many squares as the rule's distance.
#[derive(Clone, Copy, Debug, PartialEq, Eq)]
pub enum RuleKind {
    /// Wherever the first list is, a box fits inside it.
    Width,
    /// Wherever the first list is not, a box fits outside it.
    Spacing,
    /// No square of the first list has one of the second within so many columns and rows.
    Separation,
}

/// A rule: its lists of types, each with the plane that they stand on, and its distance.
///
/// A list has each type once, in the order in which its entries first mean them. A rule of width or spacing has one list: its second is
/// empty, and its second plane is the first.
#[derive(Debug, Drop)]
pub struct Rule {
    pub kind: RuleKind,
    pub first: List<TypeId>,
    pub first_plane: u8,
    pub second: List<TypeId>,
    pub second_plane: u8,
    /// From 1 to `LARGEST_DISTANCE`.
    pub d: i64,
}

/// The rules of a file, in its order.
#[derive(Debug, Drop)]
pub struct Rules {
    pub rules: List<Rule>,
}
