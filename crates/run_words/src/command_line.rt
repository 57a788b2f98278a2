//! The command line as `clap` reads it.
//!
//! `clap` takes more than the form: `--` as the end of the options, and any text behind `--budget=`. So words that no words of the
//! form have are refused before, and what is left to it is how they stand together: that an option comes once at most, with its number.
ghost use Rattle.std.specs.Prelude.{◌≡◌, Some, IfOk, true, false, codes, map, option_map, string_bytes};
ghost use Rattle.clap.specs.Words.{FailsBy, fault_of, first_of, found_of, matches_of, one_of, rows_of};
ghost use Rattle.run_words.specs.steps.ClapWords.{budget_told, command_line, digits_in, is_known, signed_budget};
ghost use Rattle.run_words.specs.RunWords.{budget_of};

use crate::limits::{DEFAULT_BUDGET, GREATEST_BUDGET};
use crate::words::RunWords;
use clap::{Arg, ArgAction, ArgMatches, Command, Error};
use std::alloc::Global;
use text_scan::number;

// The number as a budget, if it is one.
fn as_budget(value: i64) -> Option<u32>
    ensures { result ≡ signed_budget value }
{
    let budget = u32::try_from(value).ok()?;
    (1 <= budget && budget <= GREATEST_BUDGET).then_some(budget)
}

// The budget that a word of digits alone writes.
fn budget_of(digits: &[u8]) -> Option<u32>
    ensures { result ≡ budget_of digits.now }
{
    match number(digits) {
        Ok(value) => as_budget(value),
        Err(_) => None,
    }
}

// What follows `--budget=` in a word, or the word where it does not begin so.
fn digits_in(word: &[u8]) -> &[u8]
    ensures { result.now ≡ digits_in word.now }
{
    word.strip_prefix(b"--budget=").unwrap_or(word)
}

/// Whether a word stands in some words of the form.
pub(crate) fn is_known(word: &[u8]) -> bool
    ensures { result ≡ is_known word.now }
{
    word == b"--quiet".as_slice()
        || word == b"--budget".as_slice()
        || budget_of(digits_in(word)).is_some()
}

/// What `clap` makes of the words.
pub(crate) fn parse(alloc: Global, words: &[String]) -> Result<ArgMatches<'_>, Error>
    ensures rows { IfOk result (λ matches. rows_of (found_of matches) ≡ matches_of command_line (map string_bytes words.now)) }
    ensures faults { FailsBy (fault_of command_line (map string_bytes words.now)) result }
{
    let quiet = Arg::new(alloc, "quiet")
        .long("quiet")
        .action(ArgAction::SetTrue);
    let budget = Arg::new(alloc, "budget")
        .long("budget")
        .action(ArgAction::Set);
    let command = Command::new(alloc, "magex")
        .no_binary_name(true)
        .disable_help_flag(true)
        .arg(quiet)?
        .arg(budget)?;
    command.try_get_matches_from(words)
}

// The budget of a text, or the default where there is none.
fn budget_told(text: Option<&str>) -> u32
    ensures { result ≡ budget_told (option_map (λ text. text.now) text.entry) }
{
    text.and_then(|text| budget_of(text.as_bytes()))
        .unwrap_or(DEFAULT_BUDGET)
}

/// What the matches of `clap` say.
pub(crate) fn options_of(matches: &ArgMatches<'_>) -> RunWords
    ensures quiet { one_of (codes "quiet") (rows_of (found_of matches.now)) ≡ Some (codes "true") → result.quiet ≡ true }
    ensures heard { one_of (codes "quiet") (rows_of (found_of matches.now)) ≡ Some (codes "false") → result.quiet ≡ false }
    ensures budget { result.budget ≡ budget_told (first_of (codes "budget") (rows_of (found_of matches.now))) }
{
    RunWords {
        quiet: matches.get_flag("quiet"),
        budget: budget_told(matches.get_str("budget")),
    }
}
