//! What all groups count in one class.
ghost use Rattle.std.specs.Prelude.{◌≡◌, ◌<◌, ℕ, pos, ◌-ℤ◌, ◌≤ℤ◌, All, length, IfOk, OnOk, slice_index_or};
ghost use Rattle.finite_sets.specs.Lists.{In, Lists};
ghost use Rattle.meeting_laws.specs.FloodNodes.Stacking.{AreSpread};
ghost use Rattle.meeting_laws.specs.FloodNodes.TileShares.{IsTileContact};
ghost use Rattle.offences.specs.LayoutModel.Technologies.{class_of};
ghost use Rattle.offences.specs.TypedStacks.{AreByPart};
ghost use Rattle.meeting_sums.specs.steps.Counts.{area_beyond, alone_beyond, shared_beyond, perimeter_beyond, AddAmounts, AreColumns};
ghost use Rattle.meeting_sums.specs.StackTiles.{tiles_of};

use crate::amounts::{push_contact, push_stack};
use key_sums::{Amount, sums_by_key};
use meeting_laws::measures::{area_of, perimeter_of};
use offences::PlaneStack;
use rect_contacts::Contact;
use std::alloc::{AllocError, Global};
use tech_model::ClassRec;

/// The area and the perimeter of each group in a class, in the flat layout less what they are in the parts.
#[derive(Drop)]
pub struct Column {
    pub areas: Vec<i128>,
    pub perimeters: Vec<i128>,
}

/// Adds the areas that pieces count.
fn push_areas(
    amounts: &mut Vec<Amount>,
    class: &ClassRec,
    stacks: &[PlaneStack],
    groups: &[usize],
) -> Result<(), AllocError>
    requires spread { AreSpread (tiles_of stacks.now) }
    requires one_each { length groups.now ≡ length stacks.now }
    ensures { OnOk result (AddAmounts (λ key. In key groups.now) (area_beyond (class_of class.now).contains stacks.now groups.now)
        amounts.old.items amounts.new.items) }
{
    for (place, piece) in stacks.iter().enumerate() {
        let area = area_of(&piece.stack.area);
        push_stack(amounts, class, &piece.stack, groups[place], area)?;
    }
    Ok(())
}

/// Adds the perimeters that pieces count by themselves.
fn push_perimeters(
    amounts: &mut Vec<Amount>,
    class: &ClassRec,
    stacks: &[PlaneStack],
    groups: &[usize],
) -> Result<(), AllocError>
    requires spread { AreSpread (tiles_of stacks.now) }
    requires one_each { length groups.now ≡ length stacks.now }
    ensures { OnOk result (AddAmounts (λ key. In key groups.now) (alone_beyond (class_of class.now).contains stacks.now groups.now)
        amounts.old.items amounts.new.items) }
{
    for (place, piece) in stacks.iter().enumerate() {
        let perimeter = perimeter_of(&piece.stack.area);
        push_stack(amounts, class, &piece.stack, groups[place], perimeter)?;
    }
    Ok(())
}

/// Takes off what pieces share.
fn push_contacts(
    amounts: &mut Vec<Amount>,
    class: &ClassRec,
    stacks: &[PlaneStack],
    contacts: &[Contact],
    groups: &[usize],
) -> Result<(), AllocError>
    requires ordered { All (λ piece. AreByPart piece.stack.kinds) stacks.now }
    requires within { All (λ contact. (contact.first < length stacks.now) × (contact.second < length stacks.now)) contacts.now }
    requires some { All (λ contact. pos 0 ≤ℤ contact.length) contacts.now }
    requires one_each { length groups.now ≡ length stacks.now }
    ensures { OnOk result (AddAmounts (λ key. In key groups.now)
        (λ key. pos 0 -ℤ shared_beyond (class_of class.now).contains stacks.now contacts.now groups.now key)
        amounts.old.items amounts.new.items) }
{
    for contact in contacts {
        let Contact {
            first,
            second,
            length,
        } = *contact;
        push_contact(
            amounts,
            class,
            &stacks[first].stack,
            &stacks[second].stack,
            (groups[first], groups[second]),
            length,
        )?;
    }
    Ok(())
}

/// The areas of all groups.
fn areas_in(
    alloc: Global,
    class: &ClassRec,
    stacks: &[PlaneStack],
    groups: &[usize],
    count: usize,
) -> Result<Vec<i128>, AllocError>
    requires spread { AreSpread (tiles_of stacks.now) }
    requires one_each { length groups.now ≡ length stacks.now }
    requires counted { All (λ group. group < count) groups.now }
    ensures so_many { IfOk result (λ sums. length sums.items ≡ count) }
    ensures each { IfOk result (λ sums. (group : ℕ) → group < count
        → slice_index_or sums.items group (pos 0) ≡ area_beyond (class_of class.now).contains stacks.now groups.now group) }
{
    let mut amounts = Vec::with_capacity(alloc, stacks.len())?;
    push_areas(&mut amounts, class, stacks, groups)?;
    sums_by_key(alloc, count, amounts.as_slice())
}

/// The perimeters of all groups.
fn perimeters_in(
    alloc: Global,
    class: &ClassRec,
    stacks: &[PlaneStack],
    contacts: &[Contact],
    groups: &[usize],
    count: usize,
) -> Result<Vec<i128>, AllocError>
    requires spread { AreSpread (tiles_of stacks.now) }
    requires ordered { All (λ piece. AreByPart piece.stack.kinds) stacks.now }
    requires contacts { Lists (IsTileContact (tiles_of stacks.now)) contacts.now }
    requires one_each { length groups.now ≡ length stacks.now }
    requires counted { All (λ group. group < count) groups.now }
    ensures so_many { IfOk result (λ sums. length sums.items ≡ count) }
    ensures each { IfOk result (λ sums. (group : ℕ) → group < count
        → slice_index_or sums.items group (pos 0) ≡ perimeter_beyond (class_of class.now).contains stacks.now contacts.now groups.now group) }
{
    let mut amounts = Vec::with_capacity(alloc, stacks.len())?;
    push_perimeters(&mut amounts, class, stacks, groups)?;
    push_contacts(&mut amounts, class, stacks, contacts, groups)?;
    sums_by_key(alloc, count, amounts.as_slice())
}

/// The areas and perimeters of all groups in each class.
pub fn columns_of(
    alloc: Global,
    classes: &[ClassRec],
    stacks: &[PlaneStack],
    contacts: &[Contact],
    groups: &[usize],
    count: usize,
) -> Result<Vec<Column>, AllocError>
    requires spread { AreSpread (tiles_of stacks.now) }
    requires ordered { All (λ piece. AreByPart piece.stack.kinds) stacks.now }
    requires contacts { Lists (IsTileContact (tiles_of stacks.now)) contacts.now }
    requires one_each { length groups.now ≡ length stacks.now }
    requires counted { All (λ group. group < count) groups.now }
    ensures { IfOk result (λ columns. AreColumns classes.now stacks.now contacts.now groups.now count columns.items) }
{
    let mut columns = Vec::with_capacity(alloc, classes.len())?;
    for class in classes {
        columns.push(Column {
            areas: areas_in(alloc, class, stacks, groups, count)?,
            perimeters: perimeters_in(alloc, class, stacks, contacts, groups, count)?,
        })?;
    }
    Ok(columns)
}
