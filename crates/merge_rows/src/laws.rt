//! Laws of rows. The functions here do nothing: the contract of each is a law that the definitions have to keep to be worth believing.
ghost use Rattle.merge_rows.specs.Laws.{RowsAreUnique};

/// Merges have their rows in one way.
pub fn rows_are_unique()
    ensures { RowsAreUnique }
{}
