//! The names of sections.
ghost use Rattle.std.specs.Prelude.{◌≡◌};
ghost use Rattle.tech_file.specs.Sections.{rank, section_named};

use tech_model::Section;

/// The sections that must be there beside `tech`, in their order.
pub const REQUIRED: [Section; 4] = [
    Section::Planes,
    Section::Types,
    Section::Connect,
    Section::Extract,
];

/// The section of a name, if it is one that means something.
pub fn section_named(word: &[u8]) -> Option<Section>
    ensures { result ≡ section_named word.now }
{
    if word == b"tech".as_slice() {
        return Some(Section::Tech);
    }
    if word == b"planes".as_slice() {
        return Some(Section::Planes);
    }
    if word == b"types".as_slice() {
        return Some(Section::Types);
    }
    if word == b"contact".as_slice() {
        return Some(Section::Contact);
    }
    if word == b"compose".as_slice() {
        return Some(Section::Compose);
    }
    if word == b"connect".as_slice() {
        return Some(Section::Connect);
    }
    if word == b"extract".as_slice() {
        return Some(Section::Extract);
    }
    None
}

/// The place of a section in the order of sections, from 0.
pub fn rank(section: Section) -> u8
    ensures { result ≡ rank section }
{
    match section {
        Section::Tech => 0,
        Section::Planes => 1,
        Section::Types => 2,
        Section::Contact => 3,
        Section::Compose => 4,
        Section::Connect => 5,
        Section::Extract => 6,
    }
}
