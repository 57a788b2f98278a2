//! Laws of runs. The functions here do nothing; their contracts are the laws.
ghost use Rattle.vector_runs.specs.Laws.{EachRunHasOneOutcome, EachWatchHasOneOutcome, PhasesKeepInputs, RunsAreSplit, RunsKeepSwitches, SettledRunsRest};

/// Each value that is shown after a settled phase, with no change of an input or a size since, is the steady value of its node, where
/// that stores charge, and the state before the phase, where it is an input; in the network as the lines before have changed it, which
/// has the switches that it began with.
pub fn shown_values_are_steady()
    ensures steady { SettledRunsRest }
    ensures inputs { PhasesKeepInputs }
    ensures switches { RunsKeepSwitches }
    ensures split { RunsAreSplit }
{}

/// The replies of vectors are determined by the network, its names and the budget.
pub fn runs_are_unique()
    ensures { EachRunHasOneOutcome }
{}

/// What vectors show is determined by the network, its names, the budget and the node that may be stuck.
pub fn watches_are_unique()
    ensures { EachWatchHasOneOutcome }
{}
