//! The forms in which the crates above speak of finite sets, of sums over them, of ways from one
//! thing to another and of the least of a set. The definitions stand in `specs/`, their laws in
//! `proofs/`, as `Rattle.finite_sets.proofs.Totals.{Total-unique}`. The functions here do nothing: the
//! contract of each is a law that the definitions have to keep to be worth believing.
//!
//! # How the proof goes
//!
//! All goes by recursion on lists. `Members` tells what stands in a list that is appended, mapped, filtered or put in
//! another order, and `Distincts` what stands there once; `Listings` puts the two together for the lists of a set.
//! `Sums` adds a weight along a list. Its main law is `sum_on-same_things`: two lists of the same things, each once,
//! have one sum, since the second can be cut at the first thing of the first. From it `Totals` has that a set has one
//! total, and how totals add, scale, split and go over to images. `Chains` appends, turns and carries over ways of a
//! relation, by recursion on the way. `Ranges` lists the integers of a range and the pairs of two lists. The others
//! stand apart, for the crates above: `Orders` has lexicographic order and sorted lists, `Pairs` facts of any two
//! things of a list, `InOrder` that in a strict order there is one list of the same things, `Searches` tests along a
//! list, `Firsts` what the first thing gives that gives something, `Places` what stands at a place, `Images` what
//! stands in an image, and stands there once, and `OneForOne` two lists whose things go along with each other.
#![tactic(auto)]

ghost use Rattle.finite_sets.specs.Chain.{Chain, EitherWay};
ghost use Rattle.finite_sets.specs.Laws.{TotalsAreUnique, TotalsAdd, IsReflexive, IsSymmetric, IsTransitive};

/// Any two sets of things, and any steps between these: what the laws are said of.
pub trait Things {
    ghost first: { Self → Type 0 };

    ghost second: { Self → Type 0 };

    ghost step: { Self → Self → Type 0 };
}

/// A set has one sum of a weight.
pub fn total_is_unique<T: Things>()
    ensures { TotalsAreUnique T.first }
{}

/// The sums of two sets with nothing in common add up to that of their union.
pub fn totals_add<T: Things>()
    ensures { TotalsAdd T.first T.second }
{}

/// To be joined by steps that may be taken either way is an equivalence.
pub fn chains_are_an_equivalence<T: Things>()
    ensures reflexive { IsReflexive (Chain (EitherWay T.step)) }
    ensures symmetric { IsSymmetric (Chain (EitherWay T.step)) }
    ensures transitive { IsTransitive (Chain (EitherWay T.step)) }
{}
