//! From the order of names to their numbers, and back.

ghost use Rattle.std.specs.Prelude.{◌≡◌, ◌<◌, map, length, All, IfOk};
ghost use Rattle.full_names.specs.Orders.{AreStandings};

use crate::keys::NameKey;
use std::alloc::{AllocError, Global};

/// The numbers of the names in the list of those of all elements, in the order of names.
pub(crate) fn slots_of(alloc: Global, keys: &[NameKey]) -> Result<Vec<usize>, AllocError>
    ensures { IfOk result (λ slots. slots.items ≡ map (λ key. key.slot) keys.now) }
{
    let mut slots = Vec::with_capacity(alloc, keys.len())?;
    for key in keys {
        slots.push(key.slot)?;
    }
    Ok(slots)
}

/// Where each number stands in the list.
pub(crate) fn standings(alloc: Global, slots: &[usize]) -> Result<Vec<usize>, AllocError>
    requires { All (λ slot. slot < length slots.now) slots.now }
    ensures { IfOk result (λ standings. AreStandings slots.now standings.items) }
{
    let mut numbers = vec![in alloc; 0; slots.len()]?;
    for (number, slot) in slots.iter().enumerate() {
        numbers[*slot] = number;
    }
    Ok(numbers)
}
