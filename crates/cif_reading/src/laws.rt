//! Laws of CIF texts. The functions here do nothing; their contracts are the laws.
ghost use Rattle.std.specs.Prelude.{◌≡◌, ◌↔◌, ◌⊎◌, ℕ, List, Ok, Err, true};
ghost use Rattle.text_form.specs.declared.reading.At.{At};
ghost use Rattle.cif_forms.specs.Cutting.{CommandText};
ghost use Rattle.cif_model.specs.Cifs.{CifParts, IsLawfulCif};
ghost use Rattle.cif_reading.specs.declared.faults.CifFault.{CifFault};
ghost use Rattle.cif_reading.specs.CifTexts.{cif_in, read_from};
ghost use Rattle.cif_reading.specs.Drafts.{Draft};
ghost use Rattle.cif_reading.specs.RefusedTexts.{HasNoEnd, IsFirstFaultyCommand, Says};

/// A CIF text is read exactly where all its commands up to an `E` are without fault: it says what they add up to. It is refused exactly at its
/// first faulty command, with the first fault of that command; or at its last line, where no command is faulty and none is an `E`.
pub fn cif_texts_are_refused_at_their_first_faulty_command()
    ensures read { (text : List ℕ) (cif : CifParts) → (cif_in text ≡ Ok cif) ↔ Says text cif }
    ensures refused { (text : List ℕ) (at : At CifFault) → (cif_in text ≡ Err at) ↔ (IsFirstFaultyCommand text at ⊎ HasNoEnd text at) }
{}

/// Nothing behind an `E` is read: whatever stands there, what was read stays.
pub fn nothing_behind_the_end_is_read()
    ensures { (draft : Draft) (commands : List CommandText) → draft.ended ≡ true → read_from draft commands ≡ Ok draft }
{}

/// What a text says is lawful: each layer stands once, calls lead to earlier symbols, and numbers are near.
pub fn what_is_read_is_lawful()
    ensures { (text : List ℕ) (cif : CifParts) → cif_in text ≡ Ok cif → IsLawfulCif cif }
{}
