//! The laws of texts of technologies. Each function here does nothing; its contract is the law.
ghost use Rattle.std.specs.Prelude.{◌≡◌, ◌↔◌, ℕ, List, Ok, Err};
ghost use Rattle.text_scan.specs.Lines.{lines_of};
ghost use Rattle.tech_model.specs.declared.raw.RawTech.{RawTech};
ghost use Rattle.tech_file.specs.declared.reading.TechAt.{TechAt};
ghost use Rattle.tech_file.specs.Reading.{technology_of};
ghost use Rattle.tech_file.specs.Texts.{IsTechnologyOf, IsRefusedAt};

/// A text gives a technology exactly where it is made of sections that are in order, none twice, and whose lines one after another say
/// the technology.
pub fn texts_are_sections()
    ensures { (text : List ℕ) (raw : RawTech) → (technology_of text ≡ Ok raw) ↔ IsTechnologyOf (lines_of text) raw }
{}

/// A text is refused exactly for its first fault: that of the first faulty line, or of the whole where no line is faulty.
pub fn texts_are_refused_for_their_first_fault()
    ensures { (text : List ℕ) (at : TechAt) → (technology_of text ≡ Err at) ↔ IsRefusedAt (lines_of text) at }
{}
