//! A count of steps, as a caller has it.
ghost use Rattle.std.specs.Prelude.{◌≡◌, ◌+◌, ◌<◌};

use std::marker::Brand;
use std::mem::size_of;
use std::sync::ledger::{Blank, Ledger};
use std::test::Fail;
use step_count::Steps;

/// Sums the numbers below ten, each of which takes a step.
fn sum_of_ten<L: Ledger>(steps: &mut Steps<L>) -> u8
    ensures { steps.new ≡ steps.old + 10 }
{
    let mut sum = 0u8;
    for number in 0..10 {
        steps.tick();
        sum = sum.wrapping_add(number);
    }
    sum
}

/// What a caller that has no use for the count does: it makes a count of its own.
fn sum_in_a_new_ledger<L: Ledger>(blank: Blank) -> u8
    requires name { blank.name ≡ L.name }
    requires parts { blank.parts ≡ L.parts }
    requires some_part { 0 < blank.parts }
{
    let mut steps: Steps<L> = Steps::new(blank);
    sum_of_ten(&mut steps)
}

#[test]
fn a_caller_makes_its_own_count(rt: HostRuntime) -> Result<(), Fail> {
    assert_eq!(rt; sum_in_a_new_ledger::<Brand>(Blank::new(1)), 45);
    Ok(())
}

#[test]
fn a_count_takes_no_bytes(rt: HostRuntime) -> Result<(), Fail> {
    assert_eq!(rt; size_of::<Steps<Brand>>(), 0);
    Ok(())
}
