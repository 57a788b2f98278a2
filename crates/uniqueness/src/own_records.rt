//! A cell's own paint and labels determine its record: what is said of the texts of labels that name nothing, of nodes, of transistors and of
//! the record of a cell without uses, is said of one value. The functions here do nothing; their contracts are the laws.
//!
//! # How the proof goes
//!
//! Two lists in one strict order that have the same things are one. The indices of labels that name nothing are such lists (`SameTexts`), and
//! so are the least places of nodes: each is one of the other list, since it has material, and of the node that contains it there it is the
//! least place too. The names of a node are in one strict order, and its point, type, measures and capacitance follow from its least place
//! (`SameNodes`). The transistors have the same least places likewise. A terminal of the one has an edge, and what stands behind that edge is
//! of a terminal of the other, with the same name; so both have the same terminals, and these stand in one order (`SameTransistors`). A
//! channel has one rule, and so their records are one (`SameFets`). `SameOwnRecords` puts the record together.

ghost use Rattle.uniqueness.specs.OwnUniqueness.{FetRecordsAreUnique, NodeRecordsAreUnique};
ghost use Rattle.uniqueness.specs.OwnUniqueness.{OwnRecordsAreUnique, UnattachedTextsAreUnique};

/// A layout has one list of the texts of labels that name no place.
pub fn unattached_texts_are_unique()
    ensures { UnattachedTextsAreUnique }
{}

/// A layout with labels has one list of node records.
pub fn node_records_are_unique()
    ensures { NodeRecordsAreUnique }
{}

/// A layout with labels has one list of transistor records in a well-formed technology, in either order of terminals.
pub fn fet_records_are_unique()
    ensures { FetRecordsAreUnique }
{}

/// A cell without uses has one record in a well-formed technology.
pub fn own_records_are_unique()
    ensures { OwnRecordsAreUnique }
{}
