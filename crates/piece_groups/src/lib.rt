//! The groups of a clean cell with their adjustments, as they are found where its parts meet, and the merges of the groups that members with
//! one mark make.
//!
//! `specs/MemberLaws.antt` has the law of the members that stand in the pieces at which the parts of a clean cell meet: those that the
//! regions of these pieces join are groups of the cell.
//!
//! The merges are made in three steps. The members are sorted by their names once (`members`). A walk from the last to the first then links each with the next one that has its
//! mark, and keeps the first of each mark (`links`). A group begins where a member is the first of its mark, and the links lead from there to
//! the others in name order, so that merges come out group by group, in the name order of the groups (`merges`).
//!
//! # How the proof goes
//!
//! ## Groups and what they add
//!
//! The pieces lie in the squares at which parts meet and have all material there, so a member with a place in these squares is listed, and a
//! listed member has a place (`PiecePlaces`). The members of a mark are those of the group of this place, and the first of them gives the
//! group's name (`MarkedMembers`).
//!
//! A member has a total: a group of an element's cell by that cell's record, and a node of the own layout since its places are among the
//! finitely many of an area, and it is decided of each whether it is the node's (`ListedThings`, `OwnPlaces`, `RecordedTotals`). So what the
//! places of a group count where parts meet is what it adds to its members (`GroupAdjustments`). These places are those of the pieces of the
//! group's mark, which were summed up (`MarkedAdjustments`).
//!
//! A member that is not listed has no place where parts meet. So it is alone in its group, which has no such place either and adds nothing
//! (`UnlistedMembers`). Each place with material has a member, listed or not, and with it its group (`RecordedGroups`).
//!
//! ## Members and marks
//!
//! The restricted flat layout has material at each place of a piece, so all of a piece lies in squares at which parts meet, and each part
//! that has material at one of its places is listed in it (`PiecePlaces`). Hence a member with a place of a piece has a pair with the piece,
//! and so the mark of the piece's region (`MarkedGroups`).
//!
//! Members of one group are joined by members each of which meets the next in a region of the restricted flat layout. The two pieces at the
//! ends of that region have one number, so the two members have one mark, and the whole group has. And each piece has a member, since some
//! part stands in it, so a piece of the group has that mark too.
//!
//! The other way round, what has the mark of a listed member is joined with it by pairs. Each place of a piece is one of each member that has
//! a pair with it, all places of one member's name are of one group, and so are the places of one region: so each pair joins members and
//! regions of one group.
//!
//! ## Merges of marks
//!
//! `MemberLaws` has that the sorted members are those of the names and marks, no two with one name, so that each stands strictly before the
//! next. `LinkLaws` has the first place of a mark from a place on, and that the walk from the last member to the first keeps the links true:
//! a member is the first of its mark from its own place on, and changes nothing for other marks.
//!
//! `WalkLaws` ties places to names: from any place on, either no member has the mark, and no name is left, or the first that has it stands
//! where the link says, and the names that are left are its name and those behind it. So a loop along the links, whose merges with those of
//! the names that are left are always the same list, ends with all of them. `SumLaws` has the sum that adds nothing, and `GroupLaws` that
//! what is added for one first member are the merges of its group, alone or with others, and that the loop over all members adds them group
//! by group.
//!
//! `MarkLaws` shows that these groups are those of the marks. The names with a mark, from the first member on, are those that have the mark;
//! the first member of each mark begins them; each member has a mark and so is in the group of that mark's first member; and earlier places
//! have earlier names, which puts the members of a group and the groups in order.
#![tactic(auto)]

ghost use Rattle.piece_groups.specs.Laws.{MarkedGroupsAreRecorded};
ghost use Rattle.piece_groups.specs.MemberLaws.{ClassesAreGroups};

pub use meeting_sums;
use tech_model::Tech;

mod links;
mod members;
mod merges;

pub use merges::merges_of_marks;

/// The groups that are found in the marked pieces of a clean cell are those of its record. It does nothing.
pub fn marked_groups_are_recorded(tech: &Tech)
    ensures { MarkedGroupsAreRecorded tech.now }
{}

/// The marks of members and regions that stand together tell the groups of a clean cell. It does nothing.
pub fn classes_are_groups(tech: &Tech)
    ensures { ClassesAreGroups tech.now }
{}
