//! What a line says by itself.
ghost use Rattle.std.specs.Prelude.{◌≡◌, ◌≢◌, Ok, Err, IfOk, IfErr};
ghost use Rattle.drc_rules.specs.declared.faults.DrcFault.TheVariants.{Memory as OutOfMemory};
ghost use Rattle.drc_rules.specs.RuleLines.{is_number, distance_in, one_list_rule, two_list_rule, one_list_line, two_list_line};
ghost use Rattle.drc_rules.specs.RuleLines.{rule_line, words_say, is_comment, line_says};

use crate::entries::is_list;
use crate::faults::DrcFault;
use crate::limits::LARGEST_DISTANCE;
use crate::lookups::{one_plane, types_in, unless_in_both};
use crate::rules::{Rule, RuleKind};
use names_lists::List;
use std::alloc::Global;
use tech_model::Tech;
use text_scan::{NumFault, Words, number, words};

// Whether a word is a number in decimal, of any size.
fn is_number(read: Result<i64, NumFault>) -> bool
    ensures { result ≡ is_number read }
{
    match read {
        Ok(_) | Err(NumFault::Range) => true,
        Err(NumFault::Empty | NumFault::Digit) => false,
    }
}

// The distance that a number is.
fn distance_in(read: Result<i64, NumFault>) -> Result<i64, DrcFault>
    ensures { result ≡ distance_in read }
{
    match read {
        Ok(d) if 1 <= d && d <= LARGEST_DISTANCE => Ok(d),
        _ => Err(DrcFault::Distance),
    }
}

// A rule of one list.
fn one_list_rule(
    alloc: Global,
    tech: &Tech,
    kind: RuleKind,
    list: &[u8],
    d: &[u8],
) -> Result<Rule, DrcFault>
    ensures read { IfOk result (λ rule. one_list_rule tech.now kind list.now d.now ≡ Ok rule) }
    ensures refused { IfErr result (λ fault. fault ≢ OutOfMemory → one_list_rule tech.now kind list.now d.now ≡ Err fault) }
{
    let read = number(d);
    if !(is_list(list) && is_number(read)) {
        return Err(DrcFault::Form);
    }
    let first = types_in(alloc, tech, list)?;
    let plane = one_plane(tech, first.items())?;
    let d = distance_in(read)?;
    Ok(Rule {
        kind,
        first,
        first_plane: plane,
        second: List::of(Vec::new(alloc)),
        second_plane: plane,
        d,
    })
}

// A rule of two lists.
fn two_list_rule(
    alloc: Global,
    tech: &Tech,
    first: &[u8],
    second: &[u8],
    d: &[u8],
) -> Result<Rule, DrcFault>
    ensures read { IfOk result (λ rule. two_list_rule tech.now first.now second.now d.now ≡ Ok rule) }
    ensures refused { IfErr result (λ fault. fault ≢ OutOfMemory → two_list_rule tech.now first.now second.now d.now ≡ Err fault) }
{
    let read = number(d);
    if !(is_list(first) && is_list(second) && is_number(read)) {
        return Err(DrcFault::Form);
    }
    let first = types_in(alloc, tech, first)?;
    let second = types_in(alloc, tech, second)?;
    let first_plane = one_plane(tech, first.items())?;
    let second_plane = one_plane(tech, second.items())?;
    let d = distance_in(read)?;
    unless_in_both(first.items(), second.items())?;
    Ok(Rule {
        kind: RuleKind::Separation,
        first,
        first_plane,
        second,
        second_plane,
        d,
    })
}

// A line of one list, behind its first word.
fn one_list_line(
    alloc: Global,
    tech: &Tech,
    kind: RuleKind,
    words: Words<'_>,
) -> Result<Rule, DrcFault>
    ensures read { IfOk result (λ rule. one_list_line tech.now kind words.entry ≡ Ok rule) }
    ensures refused { IfErr result (λ fault. fault ≢ OutOfMemory → one_list_line tech.now kind words.entry ≡ Err fault) }
{
    let mut words = words;
    match (words.next(), words.next(), words.next()) {
        (Some(list), Some(d), None) => one_list_rule(alloc, tech, kind, list, d),
        _ => Err(DrcFault::Form),
    }
}

// A line of two lists, behind its first word.
fn two_list_line(alloc: Global, tech: &Tech, words: Words<'_>) -> Result<Rule, DrcFault>
    ensures read { IfOk result (λ rule. two_list_line tech.now words.entry ≡ Ok rule) }
    ensures refused { IfErr result (λ fault. fault ≢ OutOfMemory → two_list_line tech.now words.entry ≡ Err fault) }
{
    let mut words = words;
    match (words.next(), words.next(), words.next(), words.next()) {
        (Some(first), Some(second), Some(d), None) => two_list_rule(alloc, tech, first, second, d),
        _ => Err(DrcFault::Form),
    }
}

fn rule_line(alloc: Global, tech: &Tech, key: &[u8], words: Words<'_>) -> Result<Rule, DrcFault>
    ensures read { IfOk result (λ rule. rule_line tech.now key.now words.entry ≡ Ok rule) }
    ensures refused { IfErr result (λ fault. fault ≢ OutOfMemory → rule_line tech.now key.now words.entry ≡ Err fault) }
{
    if key == b"width".as_slice() {
        one_list_line(alloc, tech, RuleKind::Width, words)
    } else if key == b"spacing".as_slice() {
        one_list_line(alloc, tech, RuleKind::Spacing, words)
    } else if key == b"separation".as_slice() {
        two_list_line(alloc, tech, words)
    } else {
        Err(DrcFault::Form)
    }
}

fn words_say(alloc: Global, tech: &Tech, words: Words<'_>) -> Result<Option<Rule>, DrcFault>
    ensures read { IfOk result (λ said. words_say tech.now words.entry ≡ Ok said) }
    ensures refused { IfErr result (λ fault. fault ≢ OutOfMemory → words_say tech.now words.entry ≡ Err fault) }
{
    let mut rest = words;
    let Some(key) = rest.next() else {
        return Ok(None);
    };
    let rule = rule_line(alloc, tech, key, rest)?;
    Ok(Some(rule))
}

fn is_comment(line: &[u8]) -> bool
    ensures { result ≡ is_comment line.now }
{
    match line {
        [byte, ..] => *byte == b'#',
        [] => false,
    }
}

/// The rule of a line, none where the line is read over; or the line's first fault.
pub fn line_says(alloc: Global, tech: &Tech, line: &[u8]) -> Result<Option<Rule>, DrcFault>
    ensures read { IfOk result (λ said. line_says tech.now line.now ≡ Ok said) }
    ensures refused { IfErr result (λ fault. fault ≢ OutOfMemory → line_says tech.now line.now ≡ Err fault) }
{
    if is_comment(line) {
        return Ok(None);
    }
    words_say(alloc, tech, words(line))
}
