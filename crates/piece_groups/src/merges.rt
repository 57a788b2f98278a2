//! The merges of groups.
ghost use Rattle.std.specs.Prelude.{◌≡◌, ◌<◌, ◌≤◌, ◌&&◌, ◌∷◌, ◌++◌, [], ℕ, pos, List, All, IfOk, OnOk, length, slice_index};
ghost use Rattle.std.specs.List.{list_all};
ghost use Rattle.std.specs.Ordering.{int_eq};
ghost use Rattle.finite_sets.specs.Lists.{Distinct};
ghost use Rattle.group_meetings.specs.LayoutModel.Technologies.{rules_of};
ghost use Rattle.ext_model.specs.declared.records.MergeRec.{MergeRec};
ghost use Rattle.ext_model.specs.Rows.{AreRowsOf};
ghost use Rattle.merge_rows.specs.AddedMerges.{AddsToRows};
ghost use Rattle.meeting_sums.specs.TreeRecords.Merges.{is_zero_adjustment, merge_of, zero_adjustment};
ghost use Rattle.piece_groups.specs.steps.Groups.{merges_behind, mark_at, group_at, all_groups, AddsMerges};
ghost use Rattle.piece_groups.specs.steps.Links.{AreLinked};
ghost use Rattle.piece_groups.specs.MarkedGroups.{adjustment_of};
ghost use Rattle.piece_groups.specs.MarkMerges.{AreMergesOfMarks};

use crate::links::{LinkedMembers, link};
use crate::members::members_in_order;
use ext_model::{MergeRec, MergeRow};
use meeting_sums::MeetingSum;
use merge_rows::push_merge;
use names_lists::{List, Name};
use std::alloc::{AllocError, Global};
use tech_model::Tech;

// a merge of two members, to whose group the sum is added
fn merge(
    alloc: Global,
    first: &[u8],
    second: &[u8],
    sum: &MeetingSum,
) -> Result<MergeRec, AllocError>
    ensures { IfOk result (λ merge. merge ≡ merge_of first.now second.now (adjustment_of sum.now)) }
{
    Ok(MergeRec {
        first: Name::of(alloc, first)?,
        second: Name::of(alloc, second)?,
        cap: sum.cap,
        measures: List::of(Vec::from_slice(alloc, sum.measures.items())?),
    })
}

// whether all areas and perimeters are zero
fn are_zeros(measures: &[(i128, i128)]) -> bool
    ensures { result ≡ list_all (λ measure. int_eq measure.0 (pos 0) && int_eq measure.1 (pos 0)) measures.now }
{
    measures
        .iter()
        .all(|(area, perimeter)| *area == 0 && *perimeter == 0)
}

// whether the sum adds nothing
fn is_zero(sum: &MeetingSum) -> bool
    ensures { result ≡ is_zero_adjustment (adjustment_of sum.now) }
{
    sum.cap == 0 && are_zeros(sum.measures.items())
}

// the sum that adds nothing
fn nothing_added(alloc: Global, tech: &Tech) -> Result<MeetingSum, AllocError>
    ensures { IfOk result (λ sum. adjustment_of sum ≡ zero_adjustment (rules_of tech.now).classes) }
{
    let classes = tech.raw().classes.items().len();
    Ok(MeetingSum {
        cap: 0,
        measures: List::of(vec![in alloc; (0, 0); classes]?),
    })
}

// Adds a merge, which adds nothing, of the first member with each behind the second that has the second one's mark.
fn add_others(
    alloc: Global,
    linked: &LinkedMembers<'_>,
    first: usize,
    second: usize,
    nothing: &MeetingSum,
    merges: &mut Vec<MergeRow>,
) -> Result<(), AllocError>
    requires linked { AreLinked linked.now }
    requires first { first < length linked.now.members.items }
    requires second { second < length linked.now.members.items }
    ensures { OnOk result (AddsToRows (merges_behind linked.now.members.items (adjustment_of nothing.now) first second)
        merges.old.items merges.new.items) }
{
    let name = linked.members[first].name;
    let mut place = second;
    while let Some(other) = linked.nexts[place] {
        push_merge(
            alloc,
            merges,
            merge(alloc, name, linked.members[other].name, nothing)?,
        )?;
        place = other;
    }
    Ok(())
}

// Adds the merges of the group that begins with this member.
fn add_group(
    alloc: Global,
    linked: &LinkedMembers<'_>,
    sums: &[MeetingSum],
    nothing: &MeetingSum,
    first: usize,
    merges: &mut Vec<MergeRow>,
) -> Result<(), AllocError>
    requires linked { AreLinked linked.now }
    requires first { first < length linked.now.members.items }
    requires mark { mark_at linked.now.members.items first < length sums.now }
    ensures { OnOk result (AddsMerges nothing.now (group_at linked.now.members.items sums.now first ∷ []) merges.old.items merges.new.items) }
{
    let member = linked.members[first];
    let sum = &sums[member.mark];
    let Some(second) = linked.nexts[first] else {
        if !is_zero(sum) {
            push_merge(alloc, merges, merge(alloc, member.name, member.name, sum)?)?;
        }
        return Ok(());
    };
    push_merge(
        alloc,
        merges,
        merge(alloc, member.name, linked.members[second].name, sum)?,
    )?;
    add_others(alloc, linked, first, second, nothing, merges)
}

// The rows of the merges of all groups.
fn merges_of_groups(
    alloc: Global,
    linked: &LinkedMembers<'_>,
    sums: &[MeetingSum],
    nothing: &MeetingSum,
) -> Result<Vec<MergeRow>, AllocError>
    requires linked { AreLinked linked.now }
    requires as_many { length linked.now.firsts.items ≡ length sums.now }
    requires within { All (λ member. member.mark < length sums.now) linked.now.members.items }
    ensures { IfOk result (λ rows. AddsMerges nothing.now (all_groups linked.now.members.items sums.now) [] rows.items) }
{
    let mut rows = Vec::new(alloc);
    for place in 0..linked.members.len() {
        if linked.is_first(place) {
            add_group(alloc, linked, sums, nothing, place, &mut rows)?;
        }
    }
    Ok(rows)
}

/// The rows of the merges of the groups that members with one mark make.
///
/// Each member has its name at its number and its mark at the same number; marks of something else may follow. What is to be added to a
/// group stands at the number of its mark. A group of several members has a merge of the first in name order with each of the others, the
/// first of which has what is to be added and the others zeros; a group of one has a merge of it with itself, where what is to be added is
/// not all zero. Groups stand in the name order of their first members. It takes time for a sort of the names, and a step for each mark.
/// No list of the merges is held: each is pushed onto the rows. Want of memory refuses, and so does a row of 2^64 merges.
pub fn merges_of_marks(
    alloc: Global,
    tech: &Tech,
    names: &[Name],
    marks: &[usize],
    sums: &[MeetingSum],
) -> Result<Vec<MergeRow>, AllocError>
    requires distinct { Distinct names.now }
    requires marked { length names.now ≤ length marks.now }
    requires within { (number : ℕ) → number < length names.now → slice_index marks.now number < length sums.now }
    ensures { IfOk result (λ rows. (merges : List MergeRec) × AreMergesOfMarks tech.now names.now marks.now sums.now merges × AreRowsOf merges rows.items) }
{
    let members = members_in_order(alloc, names, marks)?;
    let linked = link(alloc, members, sums.len())?;
    let nothing = nothing_added(alloc, tech)?;
    merges_of_groups(alloc, &linked, sums, &nothing)
}
