//! Laws of mag texts.
ghost use Rattle.std.specs.Prelude.{◌≡◌, ◌↔◌, ◌<◌, ℕ, List, length, flat_map, Ok, Err};
ghost use Rattle.text_scan.specs.Lines.{lines_of};
ghost use Rattle.text_form.specs.declared.reading.At.{At};
ghost use Rattle.tech_model.specs.declared.raw.RawTech.{RawTech as Lists};
ghost use Rattle.mag_text.specs.declared.faults.MagFault.{MagFault};
ghost use Rattle.mag_text.specs.Drafts.{Draft};
ghost use Rattle.mag_text.specs.MagTexts.{mag_in, IsRefusedText};
ghost use Rattle.mag_text.specs.declared.written.LayerStrips.{LayerStrips as Strips};
ghost use Rattle.mag_text.specs.declared.written.WrittenUse.{WrittenUse as OneUse};
ghost use Rattle.tech_model.specs.declared.raw.Label.{Label as OneLabel};
ghost use Rattle.mag_text.specs.WrittenTexts.{mag_text};
ghost use Rattle.cell_library.specs.LayoutModel.Layouts.{Layout as Kinds};
ghost use Rattle.mag_text.specs.WrittenTexts.{IsWrittenText};
ghost use Rattle.mag_text.specs.ReadBack.{FitsText, IsReadAs, IsWritable, draft_of};
ghost use Rattle.mag_text.specs.WrittenLaws.{SayWhatTheyWereWrittenFrom};
ghost use Rattle.tech_model.specs.WellFormed.{IsWellFormed};
ghost use Rattle.tech_model.specs.Rules.{KeepsRules};
ghost use Rattle.cell_library.specs.LayoutModel.Places.{Place};
ghost use Rattle.cell_library.specs.CellPaint.Paints.{IsSoundPaint};
ghost use Rattle.cell_library.specs.Libraries.{LibraryParts, IsLawfulLibrary, seen};
ghost use Rattle.cell_library.specs.Views.{view_at};
ghost use Rattle.mag_text.specs.CellTexts.{IsCellText};
ghost use Rattle.mag_text.specs.CellsAgain.{IsSoundLayout, IsReadBack};
ghost use Rattle.mag_text.specs.Drawings.{painted_all};
ghost use Rattle.mag_text.specs.ReadBack.{drawn_strips};
ghost use Rattle.mag_text.specs.WrittenTexts.{AreAllStrips};

/// A text is refused exactly at its first faulty line, with the first fault that this line has where it stands; or at its last line, where its
/// lines are without fault and none of them ends it.
pub fn texts_are_refused_at_their_first_faulty_line()
    ensures { (raw : Lists) (text : List ℕ) (at : At MagFault) → (mag_in raw text ≡ Err at) ↔ IsRefusedText raw (lines_of text) at }
{}

/// A line that is written says by itself what it was written from: a rectangle, the box of a use, a grid, the six numbers by which a use
/// stands, and a use's child and id.
pub fn written_lines_say_what_they_were_written_from()
    ensures { (raw : Lists) → SayWhatTheyWereWrittenFrom raw }
{}

/// A cell that can be written is read from its text as what it was written from: its strips, uses, labels and scale.
pub fn written_cells_are_read_back()
    ensures { (raw : Lists) (scale : ℕ × ℕ) (strips : List Strips) (uses : List OneUse) (labels : List OneLabel)
        → IsWritable raw scale strips uses labels → mag_in raw (mag_text raw scale strips uses labels) ≡ Ok (draft_of scale strips uses labels) }
{}

/// What is written of a cell whose parts are of their forms is read as the strips of its paint, its uses, its labels and its scale.
pub fn written_texts_are_read_back()
    ensures { (raw : Lists) (scale : ℕ × ℕ) (layout : Kinds) (uses : List OneUse) (labels : List OneLabel) (text : List ℕ)
        → FitsText raw scale layout uses labels → IsWrittenText raw scale layout uses labels text → IsReadAs raw scale layout uses labels text }
{}

/// The text of a cell of a lawful library is read as the strips of the cell's paint, its uses, its labels and its scale.
pub fn cell_texts_are_read_back()
    ensures { (library : LibraryParts) (cell : ℕ) (text : List ℕ) → IsLawfulLibrary library → cell < length library.contents
        → (is : IsCellText (seen library) cell text)
        → IsReadAs library.tech is.scale (view_at (seen library) cell).own is.uses (view_at (seen library) cell).labels text }
{}

/// Painting what is written of a sound layout, the strips of each layer's image on its own plane, gives the layout again.
pub fn painting_what_is_written_gives_the_paint_again()
    ensures { (raw : Lists) (layout : Kinds) (strips : List Strips) → IsWellFormed raw → KeepsRules raw → IsSoundLayout raw layout
        → AreAllStrips raw layout strips → (place : Place) → painted_all raw (flat_map drawn_strips strips) place ≡ layout place }
{}

/// A cell of a lawful library is read back from its text: what is read is its paint at each place, its uses, its labels and its scale.
pub fn cells_are_read_back()
    ensures { (library : LibraryParts) (cell : ℕ) (text : List ℕ) → IsLawfulLibrary library → cell < length library.contents
        → IsSoundPaint library.tech.types (view_at (seen library) cell).own → IsCellText (seen library) cell text
        → IsReadBack (seen library) cell text }
{}
