//! The terminals of a transistor by nodes: those whose regions are of one node are one terminal.
ghost use Rattle.std.specs.Prelude.{◌≡◌, ◌<◌, ◌^◌, ℕ, pos, ◌<ℤ◌, ◌≤ℤ◌, All, IfOk, length, unwrap_or};
ghost use Rattle.std.specs.BTreeMap.{get, IsOrdered};
ghost use Rattle.std.specs.Ordering.{nat_cmp};
ghost use Rattle.finite_sets.specs.Total.{sum_on};
ghost use Rattle.cell_records.specs.steps.Joined.{AreJoined, length_told};

use std::alloc::{AllocError, Global};
use std::collections::BTreeMap;

/// Lengths by the number of the node.
type Lengths = BTreeMap<usize, i128>;

/// The length to a node, and 0 where it has none.
fn length_at(lengths: &Lengths, number: usize) -> i128
    ensures { result ≡ unwrap_or (get nat_cmp lengths.now number) (pos 0) }
{
    match lengths.get(&number) {
        Some(length) => *length,
        None => 0,
    }
}

/// The sums of the lengths to each node.
fn lengths_of(
    alloc: Global,
    numbers: &[usize],
    terminals: &[(usize, i128)],
) -> Result<Lengths, AllocError>
    requires regions { All (λ terminal. terminal.0 < length numbers.now) terminals.now }
    requires some { All (λ terminal. pos 0 <ℤ terminal.1) terminals.now }
    requires small { sum_on (λ terminal. terminal.1) terminals.now ≤ℤ pos (2 ^ 63) }
    ensures { IfOk result (λ lengths. (number : ℕ) → get nat_cmp lengths number ≡ length_told numbers.now terminals.now number) }
{
    let mut lengths = BTreeMap::new(alloc);
    for terminal in terminals {
        let (region, length) = *terminal;
        let number = numbers[region];
        let before = length_at(&lengths, number);
        lengths.insert(number, before + length)?;
    }
    Ok(lengths)
}

/// The entries of a map of lengths, in order.
fn entries_of(alloc: Global, lengths: &Lengths) -> Result<Vec<(usize, i128)>, AllocError>
    ensures listed { IfOk result (λ listed. listed.items ≡ lengths.now.entries) }
    ensures ordered { IsOrdered nat_cmp lengths.now }
{
    lengths
        .iter()
        .map(|(number, length)| (*number, *length))
        .collect(alloc)
}

/// The terminals by nodes, in the order of their numbers. `numbers` has the number of each region's node.
pub fn joined(
    alloc: Global,
    numbers: &[usize],
    terminals: &[(usize, i128)],
) -> Result<Vec<(usize, i128)>, AllocError>
    requires regions { All (λ terminal. terminal.0 < length numbers.now) terminals.now }
    requires some { All (λ terminal. pos 0 <ℤ terminal.1) terminals.now }
    requires small { sum_on (λ terminal. terminal.1) terminals.now ≤ℤ pos (2 ^ 63) }
    ensures { IfOk result (λ joined. AreJoined numbers.now terminals.now joined.items) }
{
    let lengths = lengths_of(alloc, numbers, terminals)?;
    entries_of(alloc, &lengths)
}
