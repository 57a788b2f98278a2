//! Parts of a layout that meet in few squares: what the flat layout links and measures beyond its parts is found there alone.
//!
//! # How the proof goes
//!
//! At a place no part stands, or one alone, or two. Where one stands alone on both sides of an edge, the flat layout links and counts there
//! what that part does; else both squares are among those at which parts meet, or no part stands on the other side (`LinkLaws`,
//! `ExcessLaws`). Restricted parts are the same where they meet and nothing elsewhere, so that each place and each edge counts as much
//! beyond them as beyond the whole parts (`RestrictionLaws`), and with them area, perimeter and capacitance (`QuantityLaws`). A link of a
//! part is one of the flat layout by the law of what connects (`PartLinks`).
#![tactic(auto)]

ghost use Rattle.meeting_laws.specs.Laws.{LinksAreOfPartsOrWithin, MeetingsAreCounted, RestrictedLayoutIsTheSameWithin};
ghost use Rattle.meeting_laws.specs.Laws.{RestrictedLinksAreLinks, RestrictedNodesAreInNodes};

pub use hierarchy_model;
pub use hierarchy_model::offences;
use tech_model::Tech;
pub use tree_records::measures;

/// A link of the flat layout is a link of one part with the same two types, or both its squares are among those at which parts meet. It
/// does nothing.
pub fn links_are_of_parts_or_within(tech: &Tech)
    ensures { LinksAreOfPartsOrWithin tech.now }
{}

/// The area, perimeter and capacitance that the flat layout has beyond its parts are counted in the squares at which parts meet, of the parts
/// restricted to them. It does nothing.
pub fn meetings_are_counted(tech: &Tech)
    ensures { MeetingsAreCounted tech.now }
{}

/// The flat layout of restricted parts is the flat layout in the squares that they are restricted to, and space elsewhere. It does
/// nothing.
pub fn restricted_layout_is_the_same_within(tech: &Tech)
    ensures { RestrictedLayoutIsTheSameWithin tech.now }
{}

/// A link of a restricted part is one of the part, and where no place offends one of the restricted flat layout. It does nothing.
pub fn restricted_links_are_links(tech: &Tech)
    ensures { RestrictedLinksAreLinks tech.now }
{}

/// What links of a restricted part join, those of the part do, and where no place offends those of the restricted flat layout. It does
/// nothing.
pub fn restricted_nodes_are_in_nodes(tech: &Tech)
    ensures { RestrictedNodesAreInNodes tech.now }
{}
