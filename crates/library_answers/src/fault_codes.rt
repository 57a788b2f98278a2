//! The words and codes of faults in files.
ghost use Rattle.std.specs.Prelude.{◌≡◌};
ghost use Rattle.library_answers.specs.Refusals.{library_limit_word, list_word, mag_code, section_word};

use cell_loading::mag_text::MagFault;
use hier_merge::cell_library::LibraryLimit;
use tech_model::{LimitedList, Section};

/// The code of a fault of a cell's file.
pub fn mag_code(fault: MagFault) -> &'static [u8]
    ensures { result.now ≡ mag_code fault }
{
    match fault {
        MagFault::Magic => b"M1",
        MagFault::BadLine => b"M2",
        MagFault::NoLayer => b"M3",
        MagFault::EmptyRect => b"M4",
        MagFault::Range => b"M5",
        MagFault::Transform => b"M6",
        MagFault::UseTwice => b"M7",
        MagFault::NoEnd => b"M8",
        MagFault::NotHere => b"M9",
        MagFault::Memory => b"",
    }
}

/// The name of a section.
pub fn section_word(section: Section) -> &'static [u8]
    ensures { result.now ≡ section_word section }
{
    match section {
        Section::Tech => b"tech",
        Section::Planes => b"planes",
        Section::Types => b"types",
        Section::Contact => b"contact",
        Section::Compose => b"compose",
        Section::Connect => b"connect",
        Section::Extract => b"extract",
    }
}

/// What a technology has too many of.
pub fn list_word(list: LimitedList) -> &'static [u8]
    ensures { result.now ≡ list_word list }
{
    match list {
        LimitedList::Planes => b"planes",
        LimitedList::Types => b"types",
        LimitedList::Classes => b"classes",
        LimitedList::Fets => b"fets",
    }
}

/// What a library has too many of.
pub fn library_limit_word(limit: LibraryLimit) -> &'static [u8]
    ensures { result.now ≡ library_limit_word limit }
{
    match limit {
        LibraryLimit::Cells => b"Cells",
        LibraryLimit::Uses => b"Uses",
        LibraryLimit::Depth => b"Depth",
        LibraryLimit::Elements => b"Elements",
        LibraryLimit::Tiles => b"Tiles",
        LibraryLimit::Edits => b"Edits",
    }
}
