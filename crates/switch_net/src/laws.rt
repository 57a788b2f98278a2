//! Laws of the definitions, as the contracts of calls that do nothing.

ghost use Rattle.switch_net.specs.Laws.{EachHasSimplePath, EachHasOneSteadyValue};
ghost use Rattle.switch_net.specs.Laws.{EachPhaseHasOneOutcome, EachQuietNodeKeepsItsValue};
ghost use Rattle.switch_net.specs.Laws.{EachForcingHasOneOutcome, EachUnsettledPhaseIsSteadyOrX};

/// Each rooted path has one without a repeated node: with the same root and end, no less strong,
/// definite and unblocked where the first was.
pub fn simple_path_law()
    ensures { EachHasSimplePath }
{}

/// No node has two steady values.
pub fn steady_value_law()
    ensures { EachHasOneSteadyValue }
{}

/// The rounds that follow states have one outcome: how many they are, and in which states they end.
pub fn forcing_law()
    ensures { EachForcingHasOneOutcome }
{}

/// No phase ends in two ways: whether it settles, after how many steps and how many rounds, and in
/// which states is determined by the network, the states before and the budget.
pub fn phase_law()
    ensures { EachPhaseHasOneOutcome }
{}

/// In the states of a phase that did not settle each node that stores charge has its steady value,
/// or is X.
pub fn unsettled_phase_law()
    ensures { EachUnsettledPhaseIsSteadyOrX }
{}

/// A node that stores charge keeps its value in the step after a step, where it is in no vicinity
/// of a seed. Seeds are the nodes that the first step changed, and both ends of the switches that
/// these gate. Vicinities are those by the states before the second step.
pub fn quiet_node_law()
    ensures { EachQuietNodeKeepsItsValue }
{}
