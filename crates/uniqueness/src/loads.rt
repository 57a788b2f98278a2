//! The law that `load` is held to: the files of a cell and of all below it give one library, or are refused for one fault. The function here
//! does nothing; its contract is the law.
//!
//! # How the proof goes
//!
//! The files are read to one end by the law of such trees. Of what was read the program makes bodies, of which it is told alone what they
//! show: their names, scales, labels and uses, and the layout of their paint. A library sees no more of them, so it is one (`OneLibrary`), and
//! so is what refuses its cells (`OneLoad`).

ghost use Rattle.uniqueness.specs.Loads.{LoadedCellsAreNotRefused, LoadedLibrariesAreUnique, RefusedLoadsAreUnique};

/// A load gives one library, or is refused for one fault, once one list of files was asked for.
pub fn loads_are_unique()
    ensures libraries { LoadedLibrariesAreUnique }
    ensures faults { RefusedLoadsAreUnique }
    ensures either { LoadedCellsAreNotRefused }
{}
