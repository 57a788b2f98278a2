//! Which lines of the header have been read.
ghost use Rattle.std.specs.Prelude.{◌≡◌};
ghost use Rattle.ext_reading.specs.Drafts.{nothing_seen, is_incomplete, was_seen, with_seen, is_other_version};

use crate::lines::{HeaderLine, Seen, Version};

pub fn nothing_seen() -> Seen
    ensures { result ≡ nothing_seen }
{
    Seen {
        tech: false,
        timestamp: false,
        version: false,
        style: false,
        scale: false,
        classes: false,
    }
}

// Whether the header lacks a line that it needs.
pub fn is_incomplete(seen: Seen) -> bool
    ensures { result ≡ is_incomplete seen }
{
    !(seen.tech && seen.version && seen.classes)
}

pub fn was_seen(seen: Seen, header: &HeaderLine) -> bool
    ensures { result ≡ was_seen seen header.now }
{
    match header {
        HeaderLine::Tech(_) => seen.tech,
        HeaderLine::Timestamp => seen.timestamp,
        HeaderLine::Version(_) => seen.version,
        HeaderLine::Style => seen.style,
        HeaderLine::Scale => seen.scale,
        HeaderLine::Classes(_) => seen.classes,
    }
}

pub fn with_seen(seen: Seen, header: &HeaderLine) -> Seen
    ensures { result ≡ with_seen seen header.now }
{
    let mut seen = seen;
    match header {
        HeaderLine::Tech(_) => seen.tech = true,
        HeaderLine::Timestamp => seen.timestamp = true,
        HeaderLine::Version(_) => seen.version = true,
        HeaderLine::Style => seen.style = true,
        HeaderLine::Scale => seen.scale = true,
        HeaderLine::Classes(_) => seen.classes = true,
    }
    seen
}

pub fn is_other_version(header: &HeaderLine) -> bool
    ensures { result ≡ is_other_version header.now }
{
    matches!(header, HeaderLine::Version(Version::Other))
}
