//! Cells that use each other, their flat layouts, and what holds of those that are clean.
//!
//! # How the proof goes
//!
//! `KindLaws` has what is needed of types: the type of a set, and that no channel is of space. At a place no part stands, or
//! one alone, or two: `PartSearch` finds which, and where one stands alone, all parts together are that part. `CleanLaws`
//! and `RoleLaws` say what parts keep at a place that does not offend, and then what a clean cell keeps, by recursion over
//! what stands below it. `MeetingLaws` says that each place that offends is one where parts meet, and that parts which are
//! alike where they meet offend at the same places.
#![tactic(auto)]

ghost use Rattle.hierarchy_model.specs.Laws.{CleanCellsKeepWhatTheyHave};

pub use offences;
use tech_model::Tech;

/// Clean cells keep what they have: their flat type is defined everywhere, each own type is within it, each flat channel is the own
/// type of exactly one cell as it stands, and what is beside it has the roles that it has in that cell. It does nothing.
pub fn clean_cells_keep_what_they_have(tech: &Tech)
    ensures { CleanCellsKeepWhatTheyHave tech.now }
{}
