//! What pieces and contacts count in a class, as amounts of groups.
ghost use Rattle.std.specs.Prelude.{◌≡◌, ◌⊎◌, pos, ◌-ℤ◌, ◌≤ℤ◌, if◌then◌else◌, OnOk};
ghost use Rattle.offences.specs.LayoutModel.Technologies.{class_of};
ghost use Rattle.offences.specs.TypedStacks.{AreByPart};
ghost use Rattle.meeting_sums.specs.steps.Counts.{beyond, beyond_both, for_group, for_both, AddAmounts};

use crate::kinds::{are_flat_of, is_flat_of, is_of, is_shared};
use key_sums::Amount;
use offences::TypedStack;
use std::alloc::AllocError;
use tech_model::ClassRec;

/// Adds a value for a group, where it counts.
fn push_if(
    amounts: &mut Vec<Amount>,
    counts: bool,
    group: usize,
    value: i64,
) -> Result<(), AllocError>
    ensures { OnOk result (AddAmounts (λ key. group ≡ key) (λ key. for_group group key (if counts then value else pos 0)) amounts.old.items amounts.new.items) }
{
    if counts {
        amounts.push(Amount { key: group, value })?;
    }
    Ok(())
}

/// Adds for a group what the piece counts in the class, of a value that it counts where it is of the class.
pub fn push_stack(
    amounts: &mut Vec<Amount>,
    class: &ClassRec,
    stack: &TypedStack,
    group: usize,
    value: i64,
) -> Result<(), AllocError>
    requires { pos 0 ≤ℤ value }
    ensures { OnOk result (AddAmounts (λ key. group ≡ key) (λ key. for_group group key (beyond (class_of class.now).contains stack.now value))
        amounts.old.items amounts.new.items) }
{
    push_if(amounts, is_flat_of(class, stack), group, value)?;
    for entry in stack.kinds.items() {
        push_if(amounts, is_of(class, entry.kind), group, -value)?;
    }
    Ok(())
}

/// Adds a value for each of two groups, where it counts.
fn push_both_if(
    amounts: &mut Vec<Amount>,
    counts: bool,
    groups: (usize, usize),
    value: i64,
) -> Result<(), AllocError>
    ensures { OnOk result (AddAmounts (λ key. (groups.0 ≡ key) ⊎ (groups.1 ≡ key)) (λ key. for_both groups.0 groups.1 key (if counts then value else pos 0))
        amounts.old.items amounts.new.items) }
{
    push_if(amounts, counts, groups.0, value)?;
    push_if(amounts, counts, groups.1, value)?;
    Ok(())
}

/// Takes off for each of two groups what both pieces of a contact of this length count in the class.
pub fn push_contact(
    amounts: &mut Vec<Amount>,
    class: &ClassRec,
    first: &TypedStack,
    second: &TypedStack,
    groups: (usize, usize),
    length: i64,
) -> Result<(), AllocError>
    requires some { pos 0 ≤ℤ length }
    requires ordered { AreByPart second.now.kinds }
    ensures { OnOk result (AddAmounts (λ key. (groups.0 ≡ key) ⊎ (groups.1 ≡ key))
        (λ key. pos 0 -ℤ for_both groups.0 groups.1 key (beyond_both (class_of class.now).contains first.now second.now length))
        amounts.old.items amounts.new.items) }
{
    push_both_if(amounts, are_flat_of(class, first, second), groups, -length)?;
    for entry in first.kinds.items() {
        push_both_if(amounts, is_shared(class, *entry, second), groups, length)?;
    }
    Ok(())
}
