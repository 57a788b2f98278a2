//! The law of vector files. The function here does nothing; its contract is the law.
ghost use Rattle.std.specs.Prelude.{◌≡◌, ◌↔◌, ℕ, List, Err};
ghost use Rattle.text_form.specs.declared.reading.At.{At};
ghost use Rattle.vector_files.specs.declared.faults.VecFault.{VecFault};
ghost use Rattle.vector_files.specs.VectorFiles.{IsRefusedAt, vectors_in};

/// A vector file is refused exactly at its first faulty line, with the first fault of that line.
pub fn vector_files_are_refused_at_their_first_faulty_line()
    ensures { (names : List (List ℕ × ℕ)) (text : List ℕ) (at : At VecFault) → (vectors_in names text ≡ Err at) ↔ IsRefusedAt names text at }
{}
