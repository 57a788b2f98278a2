//! The words of a line that write levels and sizes, and the names of power and ground.
ghost use Rattle.std.specs.Prelude.{◌≡◌};
ghost use Rattle.vector_files.specs.LineForms.{level_of, level_in, size_of, size_in, is_rail_name};

use crate::faults::VecFault;
use switch_net::Level;

fn level_of(word: &[u8]) -> Option<Level>
    ensures { result ≡ level_of word.now }
{
    if word == b"0".as_slice() {
        Some(Level::Zero)
    } else if word == b"1".as_slice() {
        Some(Level::One)
    } else if word == b"X".as_slice() {
        Some(Level::X)
    } else {
        None
    }
}

/// The level that a word writes.
pub fn level_in(word: &[u8]) -> Result<Level, VecFault>
    ensures { result ≡ level_in word.now }
{
    level_of(word).ok_or(VecFault::Vector)
}

fn size_of(word: &[u8]) -> Option<u8>
    ensures { result ≡ size_of word.now }
{
    if word == b"1".as_slice() {
        Some(1)
    } else if word == b"2".as_slice() {
        Some(2)
    } else if word == b"3".as_slice() {
        Some(3)
    } else {
        None
    }
}

/// The size that a word writes.
pub fn size_in(word: &[u8]) -> Result<u8, VecFault>
    ensures { result ≡ size_in word.now }
{
    size_of(word).ok_or(VecFault::Vector)
}

/// Whether a name is that of power or of ground.
pub fn is_rail_name(name: &[u8]) -> bool
    ensures { result ≡ is_rail_name name.now }
{
    name == b"Vdd!".as_slice() || name == b"GND!".as_slice()
}
