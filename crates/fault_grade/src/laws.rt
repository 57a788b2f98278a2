//! The law of grades. The function here does nothing; its contract is the law.
ghost use Rattle.fault_grade.specs.Laws.{GradesAreUnique};

/// The grades of vectors are determined by the network, its names and the budget.
pub fn grades_are_unique()
    ensures { GradesAreUnique }
{}
