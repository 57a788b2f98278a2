//! The laws that the meaning of records is held to: there is one flat circuit of given records, and sim records can be made of it. The
//! functions here do nothing; their contracts are the laws.
//!
//! `specs/CircuitLaws.antt` has them, over `circuit_model`'s definition of what records mean.
//!
//! # How the proof goes
//!
//! Two lists of things that stand strictly in the name order of a name of theirs are one list where they have the same things
//! (`SameLists`). The names of a flat node are such a list, and so nodes that share a full name have the same names, whichever circuit
//! they are of; the names and the elements determine all else that a node has, and since each full name is some node's, the two
//! circuits have the same nodes (`SameNodes`). Then their transistors are the same one by one, terminals being such a list too
//! (`SameFets`). A flat transistor has the name of one of a record, and the length of each of its terminals is a sum of some of that
//! one's, which are bounded together (`Writable`).

ghost use Rattle.circuit_laws.specs.CircuitLaws.{CircuitsAreUnique, FlatTransistorHasLetterAndLengths, FlatTransistorsHaveLetterAndLengths};

/// Records mean one flat circuit at most at a root.
pub fn circuits_are_unique()
    ensures { CircuitsAreUnique }
{}

/// Sim records can be made of the flat circuit of lawful records.
pub fn flat_transistors_have_letter_and_lengths()
    ensures { FlatTransistorsHaveLetterAndLengths }
{}

/// Sim records can be made of each flat transistor of a lawful one.
pub fn flat_transistor_has_letter_and_lengths()
    ensures { FlatTransistorHasLetterAndLengths }
{}
