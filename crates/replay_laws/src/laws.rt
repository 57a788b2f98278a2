//! The law of two runs. The function here does nothing; its contract is the law.

ghost use Rattle.replay_laws.specs.Laws.{EachNodeFarFromDifferencesTakesTheSameStep};

/// A node that stores charge and is in no vicinity of a seed becomes in a step of one run what it becomes in the step of another. The two
/// networks have the same nodes and switches. Seeds are the nodes that have other states or, as roots, other strengths in the one run
/// than in the other, both ends of the switches whose gates have other states, and the far ends of the switches at an input that is not
/// alike in both. Vicinities are those of the one run, before its step.
pub fn replay_law()
    ensures { EachNodeFarFromDifferencesTakesTheSameStep }
{}
