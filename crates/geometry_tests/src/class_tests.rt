//! Classes of pairs worked by hand, and the time of long chains.
ghost use Rattle.std.specs.Prelude.{◌≡◌, ◌<◌, IfOk, IsTrue, All, length};

use partition::{Labelling, Partition, classes};
use std::alloc::{AllocError, Global};
use std::test::Fail;

/// So many numbers and pairs of them, the label of each number and how many labels there are.
struct Row {
    numbers: usize,
    pairs: &'static [(usize, usize)],
    labels: &'static [usize],
    count: usize,
}

const ROWS: &[Row] = &[
    Row {
        numbers: 0,
        pairs: &[],
        labels: &[],
        count: 0,
    },
    Row {
        numbers: 3,
        pairs: &[],
        labels: &[0, 1, 2],
        count: 3,
    },
    // Labels follow least members.
    Row {
        numbers: 6,
        pairs: &[(4, 2), (5, 1), (2, 5)],
        labels: &[0, 1, 1, 2, 1, 1],
        count: 3,
    },
    // A pair of equal numbers and one twice.
    Row {
        numbers: 4,
        pairs: &[(3, 3), (3, 0), (0, 3)],
        labels: &[0, 1, 2, 0],
        count: 3,
    },
];

fn is_below(pair: &(usize, usize), count: usize) -> bool
    ensures { IsTrue result → (pair.now.0 < count) × (pair.now.1 < count) }
{
    pair.0 < count && pair.1 < count
}

fn are_below(pairs: &[(usize, usize)], count: usize) -> bool
    ensures { IsTrue result → All (λ pair. (pair.0 < count) × (pair.1 < count)) pairs.now }
{
    for pair in pairs {
        if !is_below(pair, count) {
            return false;
        }
    }
    true
}

/// The classes of pairs of numbers that are below the count.
fn classes_of(alloc: Global, row: &Row) -> Result<Option<Labelling>, AllocError> {
    if !are_below(row.pairs, row.numbers) {
        return Ok(None);
    }
    Ok(Some(classes(alloc, row.numbers, row.pairs)?))
}

fn is_labelled(alloc: Global, row: &Row) -> Result<bool, AllocError> {
    let Some(made) = classes_of(alloc, row)? else {
        return Ok(false);
    };
    Ok(made.labels.as_slice() == row.labels && made.count == row.count)
}

#[test]
fn numbers_get_their_labels(rt: HostRuntime) -> Result<(), Fail> {
    for row in ROWS {
        assert!(rt; is_labelled(rt.alloc(), row)?);
    }
    Ok(())
}

// Each pair names the deepest number: without shorter ways the walks would take size^2 / 2 steps.
fn joined_from_the_far_end(alloc: Global, size: usize) -> Result<Partition, AllocError>
    requires { 0 < size }
    ensures { IfOk result (λ partition. length partition ≡ size) }
{
    let mut partition = Partition::new(alloc, size)?;
    for number in (0..size - 1).rev() {
        partition.join(size - 1, number);
    }
    Ok(partition)
}

// The pairs make one branch of all the numbers.
fn joined_to_a_branch(alloc: Global, size: usize) -> Result<Partition, AllocError>
    requires { 0 < size }
    ensures { IfOk result (λ partition. length partition ≡ size) }
{
    let mut partition = Partition::new(alloc, size)?;
    for number in (0..size - 1).rev() {
        partition.join(number, number + 1);
    }
    Ok(partition)
}

// Whether 0 leads each number: each asks for its leader, the last one first.
fn is_led_by_zero(partition: &mut Partition, size: usize) -> bool
    requires { length partition.old ≡ size }
    ensures { length partition.new ≡ size }
{
    let mut led = true;
    for number in (0..size).rev() {
        led &= partition.leader(number) == 0;
    }
    led
}

#[test]
fn chains_from_the_far_end_end_soon(rt: HostRuntime) -> Result<(), Fail> {
    let far_end = joined_from_the_far_end(rt.alloc(), 1_000_000)?;
    assert_eq!(rt; far_end.into_labels().count, 1);
    Ok(())
}

#[test]
fn long_branches_end_soon(rt: HostRuntime) -> Result<(), Fail> {
    let mut branch = joined_to_a_branch(rt.alloc(), 1_000_000)?;
    assert!(rt; is_led_by_zero(&mut branch, 1_000_000));
    Ok(())
}
