//! Uses in the order of their names.
ghost use Rattle.std.specs.Prelude.{◌≡◌, length, IfOk, IsPermutation};
ghost use Rattle.std.specs.List.{range_with_len};
ghost use Rattle.std.specs.List.Sorted.{IsSorted};
ghost use Rattle.ext_model.specs.NameParts.{element_cmp};
ghost use Rattle.element_tree.specs.steps.NameOrder.{id_at};

use ext_model::{SLASH, UseRec};
use std::alloc::{AllocError, Global};
use std::cmp::Ordering;

// The order of two names of elements within paths.
fn compare_ids(id: &[u8], other: &[u8]) -> Ordering
    ensures { result ≡ element_cmp id.now other.now }
{
    let slash = [SLASH];
    id.iter()
        .chain(slash.iter())
        .cmp(other.iter().chain(slash.iter()))
}

// The name of the element at a use, which is empty where there is no use.
#[tactic(auto, unfolding(crate::specs::steps::NameOrder::id_at))]
fn id_at<'a>(uses: &'a [UseRec], at: usize) -> &'a [u8]
    ensures { result.now ≡ id_at uses.now at }
{
    match uses.get(at) {
        Some(used) => used.id.bytes(),
        None => &[],
    }
}

// The numbers below a bound, in order.
fn numbers_below(alloc: Global, bound: usize) -> Result<Vec<usize>, AllocError>
    ensures { IfOk result (λ numbers. numbers.items ≡ range_with_len 0 bound) }
{
    let mut numbers = Vec::with_capacity(alloc, bound)?;
    for number in 0..bound {
        numbers.push(number)?;
    }
    Ok(numbers)
}

/// The numbers of the uses in the order of their names.
pub fn in_name_order(alloc: Global, uses: &[UseRec]) -> Result<Vec<usize>, AllocError>
    ensures moved { IfOk result (λ numbers. IsPermutation (range_with_len 0 (length uses.now)) numbers.items) }
    ensures sorted { IfOk result (λ numbers. IsSorted (λ a b. element_cmp (id_at uses.now a) (id_at uses.now b)) numbers.items) }
{
    let mut numbers = numbers_below(alloc, uses.len())?;
    numbers.sort_unstable_by(|one, other| compare_ids(id_at(uses, *one), id_at(uses, *other)));
    Ok(numbers)
}
