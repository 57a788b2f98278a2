//! The comments of a CIF text.
ghost use Rattle.std.specs.Prelude.{◌≡◌, ◌<◌, ◌^◌, IfOk};
ghost use Rattle.cif_forms.specs.Comments.{at_start, behind, depth_behind, is_of_comment, opens_comment, place_behind, shown, without_comments};

use crate::bytes::{is_blank, is_semicolon};
use std::alloc::{AllocError, Global};

/// Where in its command a byte outside of comments stands.
#[derive(Clone, Copy)]
pub enum Place {
    /// Before the first byte of a command.
    Before,
    /// In a command that begins with a digit.
    ReadOver,
    /// In any other command.
    Within,
}

/// Where a text goes on: the place, and how many parentheses of a comment are open.
#[derive(Clone, Copy)]
pub struct Scan {
    pub place: Place,
    pub depth: usize,
}

fn opens_comment(place: Place, byte: u8) -> bool
    ensures { result ≡ opens_comment place byte }
{
    match place {
        Place::ReadOver => false,
        Place::Before | Place::Within => byte == b'(',
    }
}

fn place_behind(place: Place, byte: u8) -> Place
    ensures { result ≡ place_behind place byte }
{
    match place {
        Place::Before if is_blank(byte) => Place::Before,
        Place::Before if byte.is_ascii_digit() => Place::ReadOver,
        Place::Before => Place::Within,
        place => place,
    }
}

fn depth_behind(depth: usize, byte: u8) -> usize
    requires { depth < 2 ^ 63 }
    ensures value { result ≡ depth_behind depth byte }
{
    match byte {
        b'(' => depth + 1,
        b')' => depth.saturating_sub(1),
        _ => depth,
    }
}

impl Scan {
    fn is_of_comment(self, byte: u8) -> bool
        ensures { result ≡ is_of_comment self byte }
    {
        0 < self.depth || opens_comment(self.place, byte)
    }

    // What is read at a byte.
    fn shown(self, byte: u8) -> u8
        ensures { result ≡ shown self byte }
    {
        if !self.is_of_comment(byte) || byte == b'\n' {
            byte
        } else {
            b' '
        }
    }

    // Where the text goes on behind a byte.
    fn behind(self, byte: u8) -> Scan
        requires { self.depth < 2 ^ 63 }
        ensures { result ≡ behind self byte }
    {
        if self.is_of_comment(byte) {
            Scan {
                depth: depth_behind(self.depth, byte),
                ..self
            }
        } else if is_semicolon(byte) {
            Scan {
                place: Place::Before,
                ..self
            }
        } else {
            Scan {
                place: place_behind(self.place, byte),
                ..self
            }
        }
    }
}

/// The text with blanks in the place of its comments. Line feeds stay, and so does the count of bytes.
pub fn without_comments(alloc: Global, text: &[u8]) -> Result<Vec<u8>, AllocError>
    ensures { IfOk result (λ shown. shown.items ≡ without_comments text.now) }
{
    let mut scan = Scan {
        place: Place::Before,
        depth: 0,
    };
    let mut out = Vec::with_capacity(alloc, text.len())?;
    for &byte in text {
        out.push(scan.shown(byte))?;
        scan = scan.behind(byte);
    }
    Ok(out)
}
