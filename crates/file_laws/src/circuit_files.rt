//! The laws of circuit files, beside their reader's steps. The functions here do nothing; their contracts are the laws.
//!
//! # How the proof goes
//!
//! What a line adds to what was read is told once for each kind of line (`LineGains`). By induction over the lines each list of the record then
//! has one item more exactly where a line says one (`SpelledFiles`); the version that a merge is read in is the file's, since no line behind
//! the header changes it. Where a file is refused is the law of all texts that are read line by line (`RefusedFiles`).
ghost use Rattle.std.specs.Prelude.{◌≡◌, ◌↔◌, ℕ, List, Ok, Err};
ghost use Rattle.text_form.specs.declared.reading.At.{At};
ghost use Rattle.ext_model.specs.declared.arrays.ArrayExt.{ArrayExt};
ghost use Rattle.ext_reading.specs.declared.faults.ExtReadFault.{ExtReadFault};
ghost use Rattle.ext_reading.specs.ExtTexts.{ext_in};
ghost use Rattle.file_laws.specs.CircuitFiles.{IsRefusedFile, IsSpelled};

/// A circuit file that is read spells the record that it gives, but for the other names of nodes.
pub fn circuit_files_are_read_as_what_they_spell()
    ensures { (cell text : List ℕ) (ext : ArrayExt) → ext_in cell text ≡ Ok ext → IsSpelled cell text ext }
{}

/// A circuit file is refused exactly at its first faulty line, with the first fault of that line, or at its last line where it has no
/// header.
pub fn circuit_files_are_refused_at_their_first_faulty_line()
    ensures { (cell text : List ℕ) (at : At ExtReadFault) → (ext_in cell text ≡ Err at) ↔ IsRefusedFile text at }
{}
