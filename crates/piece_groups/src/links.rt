//! Which members have one mark.
ghost use Rattle.std.specs.Prelude.{◌≡◌, ◌<◌, All, IfOk, length};
ghost use Rattle.piece_groups.specs.steps.Groups.{is_first, mark_at};
ghost use Rattle.piece_groups.specs.steps.Links.{AreLinked};

use crate::members::Member;
use std::alloc::{AllocError, Global};

/// Members in the order of their names, linked by their marks.
#[derive(Drop)]
pub(crate) struct LinkedMembers<'a> {
    pub members: Vec<Member<'a>>,
    /// For each mark the place of the first member that has it, if one does.
    pub firsts: Vec<Option<usize>>,
    /// For each member the place of the next one with its mark, if there is one.
    pub nexts: Vec<Option<usize>>,
}

/// Links the members with one mark. It takes a step for each member and for each of so many marks.
pub(crate) fn link<'a>(
    alloc: Global,
    members: Vec<Member<'a>>,
    marks: usize,
) -> Result<LinkedMembers<'a>, AllocError>
    requires { All (λ member. member.mark < marks) members.items }
    ensures members { IfOk result (λ linked. linked.members.items ≡ members.entry.items) }
    ensures as_many { IfOk result (λ linked. length linked.firsts.items ≡ marks) }
    ensures linked { IfOk result AreLinked }
{
    let mut firsts = vec![in alloc; None; marks]?;
    let mut nexts = vec![in alloc; None; members.len()]?;
    for place in (0..members.len()).rev() {
        let mark = members[place].mark;
        nexts[place] = firsts[mark];
        firsts[mark] = Some(place);
    }
    Ok(LinkedMembers {
        members,
        firsts,
        nexts,
    })
}

impl LinkedMembers<'_> {
    /// Whether no member before this one has its mark.
    pub fn is_first(&self, place: usize) -> bool
        requires linked { AreLinked self.now }
        requires place { place < length self.now.members.items }
        requires mark { mark_at self.now.members.items place < length self.now.firsts.items }
        ensures { result ≡ is_first self.now.members.items place }
    {
        let mark = self.members[place].mark;
        self.firsts[mark] == Some(place)
    }
}
