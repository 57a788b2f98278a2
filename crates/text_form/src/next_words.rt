//! The words of a line, several at a time.
ghost use Rattle.std.specs.Prelude.{◌≡◌, ◌∷◌, ◌<◌, length, MatchOption};

use text_scan::Words;

/// The next three words of a line, which are then behind. `None` is for a line of fewer, of which some may then be behind.
pub fn next_three<'a>(words: &mut Words<'a>) -> Option<(&'a [u8], &'a [u8], &'a [u8])>
    ensures { MatchOption result (length words.old < 3)
        (λ found. words.old ≡ found.0.now ∷ found.1.now ∷ found.2.now ∷ words.new) }
{
    Some((words.next()?, words.next()?, words.next()?))
}
