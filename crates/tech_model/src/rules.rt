//! The rules of a technology, each with the first that breaks it.
ghost use Rattle.std.specs.Prelude.{◌≡◌, ◌≤◌, ◌<◌, IsTrue, IfSome, IfOk, OnOk, length, find, filter, map, ◌++◌};
ghost use Rattle.std.specs.Option.{option_map};
ghost use Rattle.geo_core.specs.FiniteSets.Range.{pairs_of};
ghost use Rattle.tech_model.specs.Forms.{is_fet_name};
ghost use Rattle.tech_model.specs.Rules.{types_of, have_one_set, same_set_fault, fet_terminals, is_bad_terminal, fet_terminal_fault};
ghost use Rattle.tech_model.specs.Rules.{fet_name_fault, are_within, widenings, breaks_law, monotone_fault, rule_fault, Reports};
ghost use Rattle.tech_model.specs.Types.{connects, is_type};

use crate::faults::TechFault;
use crate::indexed::Indexed;
use crate::raw::{FetRule, TypeId};
use std::alloc::{AllocError, Global};

/// Whether two types of one plane have one set.
fn have_one_set(tech: &Indexed, s: u8, t: u8) -> bool
    ensures { result ≡ have_one_set tech.now (s, t) }
{
    s < t
        && tech.plane(TypeId(s)) == tech.plane(TypeId(t))
        && tech.parts(TypeId(s)) == tech.parts(TypeId(t))
}

fn second_with_set(tech: &Indexed, s: u8) -> Option<u8>
    ensures { result ≡ find (λ t. have_one_set tech.now (s, t)) (types_of tech.now) }
{
    let count = tech.type_count();
    (1..count + 1).find(|&t| have_one_set(tech, s, t))
}

fn first_of_one_set(tech: &Indexed) -> Option<(u8, u8)>
    ensures { result ≡ find (have_one_set tech.now) (pairs_of (types_of tech.now) (types_of tech.now)) }
{
    let end = tech.type_count() + 1;
    for s in 1..end {
        if let Some(t) = second_with_set(tech, s) {
            return Some((s, t));
        }
    }
    None
}

/// No two types of one plane have one set.
fn check_sets(alloc: Global, tech: &Indexed) -> Result<(), TechFault>
    ensures { Reports (same_set_fault tech.now) result }
{
    match first_of_one_set(tech) {
        Some((s, t)) => Err(TechFault::SameSet(
            tech.type_name(alloc, TypeId(s))?,
            tech.type_name(alloc, TypeId(t))?,
        )),
        None => Ok(()),
    }
}

fn terminal_of(tech: &Indexed, fet: &FetRule) -> Option<TypeId>
    ensures { result ≡ find (λ t. connects tech.now fet.now.kind.0 t.0) fet.now.terminals }
{
    let terminals = fet.terminals.items();
    terminals
        .iter()
        .copied()
        .find(|&t| tech.connects(fet.kind, t))
}

fn first_terminal(tech: &Indexed) -> Option<(TypeId, TypeId)>
    ensures found { result ≡ find (is_bad_terminal tech.now) (fet_terminals tech.now) }
    ensures types { IfSome result (λ pair.
        IsTrue (is_type tech.now pair.0.0) × IsTrue (is_type tech.now pair.1.0)) }
{
    for fet in tech.raw().fets.items() {
        if let Some(t) = terminal_of(tech, fet) {
            return Some((fet.kind, t));
        }
    }
    None
}

/// No transistor's type connects to one of its terminals.
fn check_terminals(alloc: Global, tech: &Indexed) -> Result<(), TechFault>
    ensures { Reports (fet_terminal_fault tech.now) result }
{
    match first_terminal(tech) {
        Some((kind, t)) => Err(TechFault::FetTerminal(
            tech.type_name(alloc, kind)?,
            tech.type_name(alloc, t)?,
        )),
        None => Ok(()),
    }
}

fn is_fet_name(name: &[u8]) -> bool
    ensures { result ≡ is_fet_name name.now }
{
    match name {
        [b'e' | b'n' | b'p' | b'd', ..] => true,
        _ => false,
    }
}

/// Each transistor's name begins with e, n, p or d.
fn check_fet_names(alloc: Global, tech: &Indexed) -> Result<(), TechFault>
    ensures { Reports (fet_name_fault tech.now) result }
{
    for fet in tech.raw().fets.items() {
        if !is_fet_name(fet.name.bytes()) {
            return Err(TechFault::FetName(fet.name.copy(alloc)?));
        }
    }
    Ok(())
}

fn add_widenings(tech: &Indexed, s: u8, found: &mut Vec<(u8, u8)>) -> Result<(), AllocError>
    ensures { OnOk result (found.new.items ≡ found.old.items
        ++ filter (are_within tech.now) (map (λ t. (s, t)) (types_of tech.now))) }
{
    let end = tech.type_count() + 1;
    for t in 1..end {
        if tech.within(TypeId(s), TypeId(t)) {
            found.push((s, t))?;
        }
    }
    Ok(())
}

/// Each type with each type that it is within.
fn widenings(alloc: Global, tech: &Indexed) -> Result<Vec<(u8, u8)>, AllocError>
    ensures { IfOk result (λ found. found.items ≡ widenings tech.now) }
{
    let end = tech.type_count() + 1;
    let mut found = Vec::new(alloc);
    for s in 1..end {
        add_widenings(tech, s, &mut found)?;
    }
    Ok(found)
}

/// Whether two types connect, and what they are within does not.
fn breaks_law(tech: &Indexed, s: (u8, u8), t: (u8, u8)) -> bool
    ensures { result ≡ breaks_law tech.now (s, t) }
{
    tech.connects(TypeId(s.0), TypeId(t.0)) && !tech.connects(TypeId(s.1), TypeId(t.1))
}

fn second_break(tech: &Indexed, s: (u8, u8), widenings: &[(u8, u8)]) -> Option<(u8, u8)>
    ensures { result ≡ find (λ t. breaks_law tech.now (s, t)) widenings.now }
{
    widenings.iter().copied().find(|&t| breaks_law(tech, s, t))
}

fn first_break(tech: &Indexed, widenings: &[(u8, u8)]) -> Option<((u8, u8), (u8, u8))>
    ensures { result ≡ find (breaks_law tech.now) (pairs_of widenings.now widenings.now) }
{
    for &s in widenings {
        if let Some(t) = second_break(tech, s, widenings) {
            return Some((s, t));
        }
    }
    None
}

/// What connects goes on to connect when either side is widened.
fn check_law(alloc: Global, tech: &Indexed) -> Result<(), TechFault>
    ensures { Reports (monotone_fault tech.now) result }
{
    let found = widenings(alloc, tech)?;
    match first_break(tech, found.as_slice()) {
        Some(((s, wide_s), (t, wide_t))) => Err(TechFault::NotMonotone(
            tech.type_name(alloc, TypeId(s))?,
            tech.type_name(alloc, TypeId(t))?,
            tech.type_name(alloc, TypeId(wide_s))?,
            tech.type_name(alloc, TypeId(wide_t))?,
        )),
        None => Ok(()),
    }
}

/// All rules, in their order.
pub(crate) fn check(alloc: Global, tech: &Indexed) -> Result<(), TechFault>
    ensures { Reports (rule_fault tech.now) result }
{
    check_sets(alloc, tech)?;
    check_terminals(alloc, tech)?;
    check_fet_names(alloc, tech)?;
    check_law(alloc, tech)
}
