//! Members in the order of their names.
ghost use Rattle.std.specs.Prelude.{◌≡◌, ◌≤◌, IfOk, IsPermutation, IsSorted, length};
ghost use Rattle.finite_sets.specs.Lists.{Distinct};
ghost use Rattle.ext_model.specs.NodeNames.{name_kind, slashes_in};
ghost use Rattle.piece_groups.specs.steps.Members.{member_cmp, AreMembers};

use ext_model::{NameKind, SLASH, kind_of_name};
use names_lists::Name;
use std::alloc::{AllocError, Global};
use std::cmp::Ordering;

/// A member by its name, with its mark, and what the name order asks of the name before its bytes.
#[derive(Clone, Copy, Debug)]
pub(crate) struct Member<'a> {
    pub name: &'a [u8],
    pub mark: usize,
    pub kind: NameKind,
    pub slashes: usize,
}

// How many slashes the name has.
fn slashes_in(name: &[u8]) -> usize
    ensures { result ≡ slashes_in name.now }
{
    name.iter().filter(|byte| **byte == SLASH).count()
}

// The member with this name and this mark.
fn member_of<'a>(name: &'a [u8], mark: usize) -> Member<'a>
    ensures name { result.name.now ≡ name.now }
    ensures mark { result.mark ≡ mark }
    ensures kind { result.kind ≡ name_kind name.now }
    ensures slashes { result.slashes ≡ slashes_in name.now }
{
    Member {
        name,
        mark,
        kind: kind_of_name(name),
        slashes: slashes_in(name),
    }
}

// The order of the names of two members.
fn compare_members(one: &Member<'_>, other: &Member<'_>) -> Ordering
    ensures { result ≡ member_cmp one.now other.now }
{
    let first = one.name;
    let second = other.name;
    one.kind
        .cmp(&other.kind)
        .then(one.slashes.cmp(&other.slashes))
        .then(first.len().cmp(&second.len()))
        .then_with(|| first.cmp(second))
}

// The members in the order of their names.
fn in_name_order<'a>(members: Vec<Member<'a>>) -> Vec<Member<'a>>
    ensures moved { IsPermutation members.entry.items result.items }
    ensures sorted { IsSorted member_cmp result.items }
{
    let mut sorted = members;
    sorted.sort_unstable_by(|one, other| compare_members(one, other));
    sorted
}

/// The members with these names and marks, in the order of their names. It takes time for a sort of them, and reads each name once before.
pub(crate) fn members_in_order<'a>(
    alloc: Global,
    names: &'a [Name],
    marks: &[usize],
) -> Result<Vec<Member<'a>>, AllocError>
    requires distinct { Distinct names.now }
    requires marked { length names.now ≤ length marks.now }
    ensures { IfOk result (λ members. AreMembers names.now marks.now members.items) }
{
    let mut members = Vec::with_capacity(alloc, names.len())?;
    for (number, name) in names.iter().enumerate() {
        members.push(member_of(name.bytes(), marks[number]))?;
    }
    Ok(in_name_order(members))
}
