//! The laws of records that agree with a library. The functions here do nothing; their contracts are the laws.
ghost use Rattle.ext_cache.specs.Laws.{AddedCellsKeepAgreement, EditsKeepAgreement, NewCellsKeepAgreement, NoRecordsAgree};

/// No records agree with each library.
pub fn no_records_agree()
    ensures { NoRecordsAgree }
{}

/// An edit of a cell keeps records in agreement with the library: the cell and those above it are dirty then, and the others as before.
pub fn edits_keep_agreement()
    ensures { EditsKeepAgreement }
{}

/// Cells that come, one or all at once, keep records in agreement with the library, and the same cells are dirty.
pub fn new_cells_keep_agreement()
    ensures one { NewCellsKeepAgreement }
    ensures all { AddedCellsKeepAgreement }
{}
