//! The forest of parents that keeps the classes.
//!
//! Each number has a parent, itself or a lesser number of its class. A number that is its own
//! parent is the root of its class, and so its least member. Each walk to a root halves the way
//! that it took, so that long branches soon get short.

ghost use Rattle.std.specs.Prelude.{◌≡◌, ◌<◌, length, slice_index, IfOk};
ghost use Rattle.partition.specs.Leaders.{numbers_below, joined_leaders, classes_below, labels_of};
ghost use Rattle.partition.specs.Parents.{PointDown, leaders_of};

use std::alloc::{AllocError, Global};

/// The numbers below the count, each its own parent.
pub fn each_alone(alloc: Global, count: usize) -> Result<Vec<usize>, AllocError>
    ensures { IfOk result (λ parents. parents.items ≡ numbers_below count) }
{
    (0..count).collect(alloc)
}

/// The root above a number. On the way each second number is set to its grandparent.
pub fn root_of(parents: &mut [usize], number: usize) -> usize
    requires down { PointDown parents.old }
    requires within { number < length parents.old }
    ensures within { result < length parents.new }
    ensures value { result ≡ slice_index (leaders_of parents.old) number }
    ensures leaders { leaders_of parents.new ≡ leaders_of parents.old }
    ensures stays_down { PointDown parents.new }
{
    let mut at = number;
    while parents[at] != at {
        let above = parents[parents[at]];
        parents[at] = above;
        at = above;
    }
    at
}

/// Makes one class of those of `a` and `b`: the greater root gets the lesser as its parent.
pub fn join_roots(parents: &mut [usize], a: usize, b: usize)
    requires down { PointDown parents.old }
    requires a_within { a < length parents.old }
    requires b_within { b < length parents.old }
    ensures leaders { leaders_of parents.new ≡ joined_leaders (leaders_of parents.old) a b }
    ensures stays_down { PointDown parents.new }
{
    let x = root_of(parents, a);
    let y = root_of(parents, b);
    if x < y {
        parents[y] = x;
    } else {
        parents[x] = y;
    }
}

/// Puts in the place of each parent the label of its number, and says how many labels there are.
pub fn number_classes(labels: &mut [usize]) -> usize
    requires { PointDown labels.old }
    ensures labels { labels.new ≡ labels_of (leaders_of labels.old) }
    ensures count { result ≡ classes_below (leaders_of labels.old) (length labels.old) }
{
    let mut count = 0;
    for number in 0..labels.len() {
        let parent = labels[number];
        if parent == number {
            labels[number] = count;
            count += 1;
        } else {
            labels[number] = labels[parent];
        }
    }
    count
}
