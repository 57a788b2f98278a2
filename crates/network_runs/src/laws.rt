//! The law of the values that a report shows. The function here does nothing; its contract is the law.
ghost use Rattle.network_runs.specs.Headline.{ShownLinesTellSteadyValues};

/// Each value that is told after a settled phase, with no set, free or size since, is the steady value of its node in that network, where
/// the node stores charge.
pub fn shown_lines_tell_steady_values()
    ensures { ShownLinesTellSteadyValues }
{}
