//! The classes of pairs that come one at a time.

ghost use Rattle.std.specs.Prelude.{◌≡◌, ◌↔◌, ◌≤◌, ◌<◌, [], length, slice_index, vec_len, All, IfOk, IsTrue};
ghost use Rattle.finite_sets.specs.Least.{IsLeast};
ghost use Rattle.partition.specs.Divides.{Divides, IsPair, AddsPair, KeepsPairs};
ghost use Rattle.partition.specs.Laws.{LabelsAreUnique};
ghost use Rattle.partition.specs.Leaders.{numbers_below, joined_leaders, classes_below, labels_of};
ghost use Rattle.partition.specs.Parents.{PointDown, leaders_of};
ghost use Rattle.partition.specs.Marks.{HasMark, SameClasses, IsNumbered};

use crate::forest::{each_alone, join_roots, number_classes, root_of};
use std::alloc::{AllocError, Global};
use std::marker::Model;

/// The numbers below a count, in classes. Contracts see the list of their leaders: at each number
/// the least member of its class. Pairs that are joined one after another are not kept; that
/// chains of them make the classes is what `divides` says.
#[derive(Drop)]
pub struct Partition {
    parents: Vec<usize>,
}

impl Model for Partition {
    ghost use Rattle.std.specs.Prelude.{ℕ, List};
    ghost use Rattle.partition.specs.Parents.{PointDown, leaders_of};

    ghost Value = { List ℕ };

    ghost view = { λ partition. leaders_of partition.parents.items };

    ghost invariant = { λ partition. PointDown partition.parents.items };
}

/// The label of each number: those of one class have one, and the labels are 0, 1, 2 .. in the
/// order of each class's least member.
#[derive(Drop)]
pub struct Labelling {
    pub labels: Vec<usize>,
    /// How many labels there are.
    pub count: usize,
}

impl Labelling {
    // Writes the labels over the parents.
    fn of_forest(mut parents: Vec<usize>) -> Labelling
        requires { PointDown parents.items }
        ensures labels { result.labels.items ≡ labels_of (leaders_of parents.items) }
        ensures count { result.count ≡ classes_below (leaders_of parents.items) (vec_len parents) }
    {
        let count = number_classes(&mut parents);
        Labelling {
            labels: parents,
            count,
        }
    }
}

impl Partition {
    /// The numbers below the count, each in a class of its own. Want of memory alone refuses.
    pub fn new(alloc: Global, count: usize) -> Result<Partition, AllocError>
        ensures len { IfOk result (λ partition. length partition ≡ count) }
        ensures leaders { IfOk result (λ partition. partition ≡ numbers_below count) }
        ensures divides { IfOk result (λ partition. Divides partition (IsPair [])) }
    {
        Ok(Partition {
            parents: each_alone(alloc, count)?,
        })
    }

    /// How many numbers there are.
    pub fn len(&self) -> usize
        ensures { result ≡ length self.now }
    {
        self.parents.len()
    }

    /// Whether there is no number.
    pub fn is_empty(&self) -> bool
        ensures { IsTrue result ↔ (length self.now ≡ 0) }
    {
        self.parents.is_empty()
    }

    /// The least member of the number's class. The classes stay; the way there gets shorter.
    pub fn leader(&mut self, number: usize) -> usize
        requires { number < length self.old }
        ensures value { result ≡ slice_index self.old number }
        ensures least { IsLeast ◌≤◌ (HasMark self.old result) result }
        ensures unchanged { self.new ≡ self.old }
    {
        root_of(&mut self.parents, number)
    }

    /// Makes one class of those of the two numbers. Takes no memory.
    pub fn join(&mut self, a: usize, b: usize)
        requires a_within { a < length self.old }
        requires b_within { b < length self.old }
        ensures len { length self.new ≡ length self.old }
        ensures leaders { self.new ≡ joined_leaders self.old a b }
        ensures divides { AddsPair self.old self.new a b }
    {
        join_roots(&mut self.parents, a, b);
    }

    /// The labels of the classes. Takes no memory.
    pub fn into_labels(self) -> Labelling
        ensures len { vec_len result.labels ≡ length self }
        ensures same { SameClasses self result.labels.items }
        ensures numbered { IsNumbered result.labels.items result.count }
        ensures divides { KeepsPairs self result.labels.items }
    {
        let Partition { parents } = self;
        Labelling::of_forest(parents)
    }
}

/// The classes of the numbers below the count that the pairs make. Want of memory alone refuses.
pub fn classes(
    alloc: Global,
    count: usize,
    pairs: &[(usize, usize)],
) -> Result<Labelling, AllocError>
    requires { All (λ pair. (pair.0 < count) × (pair.1 < count)) pairs.now }
    ensures len { IfOk result (λ made. vec_len made.labels ≡ count) }
    ensures divides { IfOk result (λ made. Divides made.labels.items (IsPair pairs.now)) }
    ensures numbered { IfOk result (λ made. IsNumbered made.labels.items made.count) }
{
    let mut partition = Partition::new(alloc, count)?;
    for &(a, b) in pairs {
        partition.join(a, b);
    }
    Ok(partition.into_labels())
}

/// The labels that `classes` and `into_labels` give are the only ones that their contracts allow.
pub fn labels_are_unique()
    ensures { LabelsAreUnique }
{}
