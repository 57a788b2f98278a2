//! The law of violations. The function here does nothing; its contract is the law.
ghost use Rattle.drc_check.specs.Violations.{ViolationsAreUnique};

/// The violations of rules in a cell are one list.
pub fn violations_are_unique()
    ensures { ViolationsAreUnique }
{}
