//! The further words of a line, read from its front.
ghost use Rattle.std.specs.Prelude.{◌≡◌, ◌≢◌, ◌∷◌, [], true, false, map, take, drop, MatchOption, MatchResult, IfOk, IfErr, OnOk, Ok, Err};
ghost use Rattle.std.specs.Prelude.{replicate};
ghost use Rattle.std.specs.List.{list_all};
ghost use Rattle.cell_bodies.specs.Words.{is_use_id};
ghost use Rattle.text_scan.specs.PlainNames.{is_plain_name};
ghost use Rattle.text_scan.specs.Words.{words_of};
ghost use Rattle.script_lines.specs.declared.faults.LineFault.TheVariants.{BadForm};
ghost use Rattle.script_lines.specs.Arguments.{Plain, UseId, Number, Value, first_word, behind_word, behind, is_between, is_number, number_in, read_words};
ghost use Rattle.script_lines.specs.steps.NextWords.{begins_with, begins_with_numbers, fitting, is_fitting};

use crate::faults::LineFault;
use crate::limits::{GREATEST_NUMBER, LEAST_NUMBER};
use cell_bodies::is_use_id;
use text_scan::{NumFault, is_plain_name, number, split_word};

/// Takes the next word off a line.
pub(crate) fn next_word<'a>(rest: &mut &'a [u8]) -> Result<&'a [u8], LineFault>
    ensures words { MatchResult result (λ word. words_of rest.old.now ≡ word.now ∷ words_of rest.new.now)
        (λ fault. (fault ≡ BadForm) × (words_of rest.old.now ≡ [])) }
    ensures behind { OnOk result (rest.new.now ≡ behind_word rest.old.now) }
{
    let (word, behind) = split_word(rest).ok_or(LineFault::BadForm)?;
    *rest = behind;
    Ok(word)
}

/// Takes the next word off a line, which is to be the name of a cell or of a file.
pub(crate) fn next_plain<'a>(rest: &mut &'a [u8]) -> Result<&'a [u8], LineFault>
    ensures words { IfOk result (λ word. words_of rest.old.now ≡ word.now ∷ words_of rest.new.now) }
    ensures plain { IfOk result (λ word. is_plain_name word.now ≡ true) }
    ensures refused { IfErr result (λ fault.
        (fault ≡ BadForm) × (begins_with Plain (words_of rest.old.now) ≡ false)) }
{
    let word = next_word(rest)?;
    if !is_plain_name(word) {
        return Err(LineFault::BadForm);
    }
    Ok(word)
}

/// Takes the next word off a line, which is to be the id of a use.
pub(crate) fn next_use_id<'a>(rest: &mut &'a [u8]) -> Result<&'a [u8], LineFault>
    ensures words { IfOk result (λ word. words_of rest.old.now ≡ word.now ∷ words_of rest.new.now) }
    ensures id { IfOk result (λ word. is_use_id word.now ≡ true) }
    ensures refused { IfErr result (λ fault.
        (fault ≡ BadForm) × (begins_with UseId (words_of rest.old.now) ≡ false)) }
{
    let word = next_word(rest)?;
    if !is_use_id(word) {
        return Err(LineFault::BadForm);
    }
    Ok(word)
}

/// Refuses a line that has a further word.
pub(crate) fn no_more(rest: &[u8]) -> Result<(), LineFault>
    ensures none { OnOk result (words_of rest.now ≡ []) }
    ensures refused { IfErr result (λ fault. (fault ≡ BadForm) × (words_of rest.now ≢ [])) }
{
    match split_word(rest) {
        None => Ok(()),
        Some(_) => Err(LineFault::BadForm),
    }
}

/// Whether a number is no less than the first of these, and no greater than the second.
pub(crate) fn is_between(least: i64, greatest: i64, value: i64) -> bool
    ensures { result ≡ is_between least greatest value }
{
    least <= value && value <= greatest
}

// The number, if it is in the range that all numbers of a line have.
fn fitting(value: i64) -> Option<i64>
    ensures { result ≡ fitting value }
{
    is_between(LEAST_NUMBER, GREATEST_NUMBER, value).then_some(value)
}

// The number that a word writes: `None` where it is out of the range that all numbers of a line have.
fn number_in(word: &[u8]) -> Result<Option<i64>, LineFault>
    ensures formed { MatchResult result (λ _. is_number word.now ≡ true)
        (λ fault. (fault ≡ BadForm) × (is_number word.now ≡ false)) }
    ensures value { IfOk result (λ found. found ≡ fitting (number_in word.now)) }
{
    match number(word) {
        Ok(value) => Ok(fitting(value)),
        Err(NumFault::Range) => Ok(None),
        Err(NumFault::Empty) => Err(LineFault::BadForm),
        Err(NumFault::Digit) => Err(LineFault::BadForm),
    }
}

/// Takes the next `N` words off a line, which are to be numbers. `None` is for numbers one of which is out of the range that all
/// numbers of a line have: whatever else the line has is then to be looked at first.
pub(crate) fn next_numbers<const N: usize>(rest: &mut &[u8]) -> Result<Option<[i64; N]>, LineFault>
    ensures formed { MatchResult result (λ _. begins_with_numbers N (words_of rest.old.now) ≡ true)
        (λ fault. (fault ≡ BadForm) × (begins_with_numbers N (words_of rest.old.now) ≡ false)) }
    ensures behind { OnOk result (rest.new.now ≡ behind N rest.old.now) }
    ensures words { OnOk result (words_of rest.new.now ≡ drop N (words_of rest.old.now)) }
    ensures values { IfOk result (λ found. MatchOption found
        (list_all is_fitting (take N (words_of rest.old.now)) ≡ false)
        (λ values. values ≡ map number_in (take N (words_of rest.old.now)))) }
    ensures fitting { IfOk result (λ found. MatchOption found
        (list_all is_fitting (take N (words_of rest.old.now)) ≡ false)
        (λ values. list_all is_fitting (take N (words_of rest.old.now)) ≡ true)) }
{
    let mut values = [0; N];
    let mut fit = true;
    for place in &mut values {
        let word = next_word(rest)?;
        match number_in(word)? {
            Some(value) => *place = value,
            None => fit = false,
        }
    }
    Ok(fit.then_some(values))
}

/// The `N` numbers that a line consists of.
pub(crate) fn last_numbers<const N: usize>(line: &[u8]) -> Result<[i64; N], LineFault>
    ensures read { IfOk result (λ values.
        read_words (replicate N Number) (words_of line.now) ≡ Ok (map Value values)) }
    ensures refused { IfErr result (λ fault.
        read_words (replicate N Number) (words_of line.now) ≡ Err fault) }
{
    let mut rest = line;
    let values = next_numbers(&mut rest)?;
    no_more(rest)?;
    values.ok_or(LineFault::NumberRange)
}
