//! Squares of channels beside which a role changes.
ghost use Rattle.std.specs.Prelude.{◌≡◌, ◌<◌, ◌++◌, All, length, IfOk, OnOk, pos, negsuc, ◌≤ℤ◌};
ghost use Rattle.geo_core.specs.Areas.{IsNear};
ghost use Rattle.offences.specs.steps.Pieces.{changes_role, moved_rect, sides_of, changed, changed_pieces};
ghost use Rattle.offences.specs.TypedStacks.{AreByPart, kind_in};

use crate::roles::role_of;
use crate::stacks::{PartKind, TypedStack};
use geo_core::Rect;
use rect_overlays::rect_contacts::Contact;
use std::alloc::{AllocError, Global};
use tech_model::{RawTech, TypeId};

/// The type of a part: space where it is not listed. It takes the logarithm of the length of the list.
fn kind_in(kinds: &[PartKind], part: usize) -> TypeId
    requires { AreByPart kinds.now }
    ensures { result.0 ≡ kind_in kinds.now part }
{
    let place = kinds.partition_point(|entry| entry.part < part);
    if place == kinds.len() {
        return TypeId(0);
    }
    let entry = kinds[place];
    if entry.part == part {
        entry.kind
    } else {
        TypeId(0)
    }
}

/// Whether beside a channel of the part the flat type has another role than what the part has.
fn changes_role(raw: &RawTech, owner: PartKind, beside: &TypedStack) -> bool
    requires { AreByPart beside.now.kinds }
    ensures { result ≡ changes_role raw.now owner beside.now }
{
    let own = kind_in(beside.kinds.items(), owner.part);
    role_of(raw, owner.kind, beside.flat) != role_of(raw, owner.kind, Some(own))
}

/// The rectangle, moved by one at most.
fn moved(area: &Rect, dx: i64, dy: i64) -> Rect
    requires near { IsNear area.now }
    requires right { (negsuc 0 ≤ℤ dx) × (dx ≤ℤ pos 1) }
    requires up { (negsuc 0 ≤ℤ dy) × (dy ≤ℤ pos 1) }
    ensures { result ≡ moved_rect area.now dx dy }
{
    Rect {
        xlo: area.xlo + dx,
        ylo: area.ylo + dy,
        xhi: area.xhi + dx,
        yhi: area.yhi + dy,
    }
}

/// Adds the squares of the first rectangle that share an edge with a square of the second.
fn push_sides(pieces: &mut Vec<Rect>, here: &Rect, beside: &Rect) -> Result<(), AllocError>
    requires { IsNear beside.now }
    ensures { OnOk result (pieces.new.items ≡ pieces.old.items ++ sides_of here.now beside.now) }
{
    let right = here.common(&moved(beside, 1, 0));
    let left = here.common(&moved(beside, -1, 0));
    let up = here.common(&moved(beside, 0, 1));
    let down = here.common(&moved(beside, 0, -1));
    pieces.extend_from_slice(&[right, left, up, down])
}

/// Adds the squares of the first piece that offend for what stands in the second.
fn push_changed(
    pieces: &mut Vec<Rect>,
    raw: &RawTech,
    here: &TypedStack,
    beside: &TypedStack,
) -> Result<(), AllocError>
    requires ordered { AreByPart beside.now.kinds }
    requires near { IsNear beside.now.area }
    ensures { OnOk result (pieces.new.items ≡ pieces.old.items ++ changed raw.now here.now beside.now) }
{
    if let Some(owner) = here.owner {
        if changes_role(raw, owner, beside) {
            push_sides(pieces, &here.area, &beside.area)?;
        }
    }
    Ok(())
}

/// The squares of channels beside which a role changes.
pub fn changed_pieces(
    alloc: Global,
    raw: &RawTech,
    typed_stacks: &[TypedStack],
    contacts: &[Contact],
) -> Result<Vec<Rect>, AllocError>
    requires ordered { All (λ typed_stack. AreByPart typed_stack.kinds) typed_stacks.now }
    requires near { All (λ typed_stack. IsNear typed_stack.area) typed_stacks.now }
    requires within { All (λ contact. (contact.first < length typed_stacks.now) × (contact.second < length typed_stacks.now)) contacts.now }
    ensures { IfOk result (λ pieces. pieces.items ≡ changed_pieces raw.now typed_stacks.now contacts.now) }
{
    let mut pieces = Vec::new(alloc);
    for contact in contacts {
        let first = &typed_stacks[contact.first];
        let second = &typed_stacks[contact.second];
        push_changed(&mut pieces, raw, first, second)?;
        push_changed(&mut pieces, raw, second, first)?;
    }
    Ok(pieces)
}
