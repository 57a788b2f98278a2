//! The laws of undo and redo. The functions here do nothing; their contracts are the laws.
ghost use Rattle.undo_log.specs.Laws.{CellsMayCome, EditsAreTakenBack, KeptVersionsAreUnique, NothingIsKept};

/// After an edit and `undo` each cell has its own paint at every place as it was, and its uses and its labels in their order. `redo` gives back
/// what `undo` took.
pub fn edits_are_taken_back()
    ensures { EditsAreTakenBack }
{}

/// A log keeps its versions of a library to which cells come that use no cell from before.
pub fn cells_may_come()
    ensures { CellsMayCome }
{}

/// The library and the inverses of a log give the versions that it keeps.
pub fn kept_versions_are_unique()
    ensures { KeptVersionsAreUnique }
{}

/// A log that is new or was forgotten keeps no versions, of whatever library.
pub fn nothing_is_kept()
    ensures { NothingIsKept }
{}
