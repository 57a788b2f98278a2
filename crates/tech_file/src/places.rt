//! Where a line stands: between sections, or in one.
ghost use Rattle.std.specs.Prelude.{◌≡◌, ◌∷◌, [], ℕ, List, MatchOption, None};
ghost use Rattle.tech_file.specs.Places.{begins_with_hash, content_of, says_nothing, is_end, name_alone, opened, moved, after};

use crate::sections::section_named;
use tech_model::Section;
use text_scan::words;

/// Where a line stands.
#[derive(Clone, Copy, Debug, PartialEq, Eq)]
pub enum Place {
    /// Before, between or after sections.
    Between,
    /// In a section that means nothing.
    Skipped,
    /// In this section.
    Within(Section),
}

/// Whether a line has no word, or is a comment.
pub fn says_nothing(line: &[u8]) -> bool
    ensures { result ≡ says_nothing (content_of line.now) }
{
    match words(line).next() {
        None => true,
        Some(word) => begins_with_hash(word),
    }
}

fn begins_with_hash(word: &[u8]) -> bool
    ensures { result ≡ begins_with_hash word.now }
{
    match word {
        [byte, ..] => *byte == b'#',
        [] => false,
    }
}

// The one word that a line says.
fn lone_word(line: &[u8]) -> Option<&[u8]>
    ensures { MatchOption result
        ((word : List ℕ) → content_of line.now ≡ word ∷ [] → ⊥)
        (λ word. content_of line.now ≡ word.now ∷ []) }
{
    let mut rest = words(line);
    let word = rest.next()?;
    if begins_with_hash(word) || rest.next().is_some() {
        return None;
    }
    Some(word)
}

/// Whether a line says `end` alone, which ends a section.
pub fn is_end(line: &[u8]) -> bool
    ensures { result ≡ is_end (content_of line.now) }
{
    match lone_word(line) {
        Some(word) => word == b"end".as_slice(),
        None => false,
    }
}

/// The one word of a line other than `end`: between sections it names one.
pub fn name_alone(line: &[u8]) -> Option<&[u8]>
    ensures { MatchOption result
        (name_alone (content_of line.now) ≡ None)
        (λ word. name_alone (content_of line.now) ≡ Some word.now) }
{
    lone_word(line).filter(|word| *word != b"end".as_slice())
}

// Where the lines after a section's name stand.
fn opened(word: &[u8]) -> Place
    ensures { result ≡ opened word.now }
{
    match section_named(word) {
        Some(section) => Place::Within(section),
        None => Place::Skipped,
    }
}

/// Where the line after one that says something stands.
pub fn moved(place: Place, line: &[u8]) -> Place
    ensures { result ≡ moved place (content_of line.now) }
{
    match place {
        Place::Between => match name_alone(line) {
            Some(word) => opened(word),
            None => Place::Between,
        },
        Place::Skipped | Place::Within(_) => { if is_end(line) { Place::Between } else { place } }
    }
}

/// Where the line after this one stands.
pub fn after(place: Place, line: &[u8]) -> Place
    ensures { result ≡ after place (content_of line.now) }
{
    if says_nothing(line) {
        return place;
    }
    moved(place, line)
}
