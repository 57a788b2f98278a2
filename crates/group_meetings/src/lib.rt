//! Groups of a clean cell, and the squares at which its parts meet: the members of a group are joined there.
//!
//! `specs/AdjustmentLaws.antt` has what a group of a clean cell adds to its members, counted where its parts meet.
//!
//! # How the proof goes
//!
//! ## Members that meet
//!
//! Where a member has a place its part has material (`PartMembers`, `MemberMaterial`). Along a link of its part, a node of the own layout or
//! a group of an element a member stays the same, and a part has one member at a place (`MemberSteps`). So each step of a group keeps the
//! member, or there are two parts, and these meet in squares that the restricted flat layout has (`RegionLaws`, `MeetingMembers`).
//!
//! ## What a group adds
//!
//! What a place counts for area, perimeter and capacitance goes along with a transform, since its neighbours do (`LocalQuantities`). So what
//! a member has in its own layout is its total over its places in its part, and a member's name tells the part (`MemberTotals`). Each place
//! of a group at which a part stands is one of one member there. So the members of a group have together what the parts count at the places
//! of the group (`PartSums`, `GroupSums`), and what is missing to the flat layout is counted where parts meet. These places are finitely many,
//! and so what is counted there is what the group adds (`PlacesOnce`, `FoundAdjustments`).
#![tactic(auto)]

ghost use Rattle.group_meetings.specs.AdjustmentLaws.{AdjustmentsAreCountedWithin, CountsWithinAreAdjustments};
ghost use Rattle.group_meetings.specs.Laws.{DifferentMembersMeetInRegions, MembersAreJoinedByRegions};
ghost use Rattle.group_meetings.specs.Laws.{MembersOfLargerGroupsAreWithin, RecordedPartsHaveMembers, RegionsAreInGroups};

use tech_model::Tech;
pub use tree_names::cell_nodes;

/// Two different members that share a place, or have places that the flat layout links, meet in one region of the restricted flat layout. It
/// does nothing.
pub fn different_members_meet_in_regions(tech: &Tech)
    ensures { DifferentMembersMeetInRegions tech.now }
{}

/// Two members of one group are joined by members each of which meets the next in a region of the restricted flat layout. It does nothing.
pub fn members_are_joined_by_regions(tech: &Tech)
    ensures { MembersAreJoinedByRegions tech.now }
{}

/// Where the nodes of the own layout and the cells of the elements have records, each part has members. It does nothing.
pub fn recorded_parts_have_members(tech: &Tech)
    ensures { RecordedPartsHaveMembers tech.now }
{}

/// What links of the restricted flat layout join is of one group. It does nothing.
pub fn regions_are_in_groups(tech: &Tech)
    ensures { RegionsAreInGroups tech.now }
{}

/// Each member of a group of two or more has a place of it in the squares at which parts meet. It does nothing.
pub fn members_of_larger_groups_are_within(tech: &Tech)
    ensures { MembersOfLargerGroupsAreWithin tech.now }
{}

/// What a group of a clean cell adds to its members is what its places count in the restricted flat layout beyond the restricted parts, in
/// the squares at which parts meet. It does nothing.
pub fn adjustments_are_counted_within(tech: &Tech)
    ensures { AdjustmentsAreCountedWithin tech.now }
{}

/// Where the members of a group of a clean cell have totals, what the places of the group in the squares at which parts meet count in the
/// restricted flat layout beyond the restricted parts is what the group adds to them. It does nothing.
pub fn counts_within_are_adjustments(tech: &Tech)
    ensures { CountsWithinAreAdjustments tech.now }
{}
