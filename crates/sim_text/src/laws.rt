//! Laws of sim texts.
ghost use Rattle.std.specs.Prelude.{◌≡◌, ◌↔◌, ℕ, List, Ok, Err};
ghost use Rattle.text_scan.specs.Lines.{lines_of};
ghost use Rattle.text_form.specs.declared.reading.At.{At};
ghost use Rattle.sim_text.specs.declared.faults.SimFault.{SimFault};
ghost use Rattle.sim_text.specs.declared.files.SimFile.{SimFile as Circuit};
ghost use Rattle.sim_text.specs.SimTexts.{sim_in, IsSimText, IsRefusedText};
ghost use Rattle.sim_text.specs.WrittenTexts.{sim_text};
ghost use Rattle.sim_text.specs.Writable.{IsWritable};

/// A text is read as a circuit exactly where its lines are a sim text and spell that circuit.
pub fn texts_are_read_as_what_they_spell()
    ensures { (text : List ℕ) (sim : Circuit) → (sim_in text ≡ Ok sim) ↔ IsSimText (lines_of text) sim }
{}

/// A text is refused exactly at its first faulty line, with the fault that this line has by itself; or at line 1, where it has no line.
pub fn texts_are_refused_at_their_first_faulty_line()
    ensures { (text : List ℕ) (at : At SimFault) → (sim_in text ≡ Err at) ↔ IsRefusedText (lines_of text) at }
{}

/// A circuit that a text can spell is read from its text as the same.
pub fn written_circuits_are_read_back()
    ensures { (sim : Circuit) → IsWritable sim → sim_in (sim_text sim) ≡ Ok sim }
{}
