//! The records of transistors.
ghost use Rattle.std.specs.Prelude.{◌≡◌, ◌==◌, ◌<◌, find, option_copied, pos, ◌-ℤ◌, ◌≤ℤ◌, ◌<ℤ◌, ◌^◌, All, IfOk, IsTrue, length, map};
ghost use Rattle.finite_sets.specs.Lists.{In};
ghost use Rattle.finite_sets.specs.Total.{sum_on};
ghost use Rattle.tech_model.specs.ChannelRoles.{is_channel};
ghost use Rattle.cell_records.specs.steps.FetsOfRegions.{name_at, term_of, AreRecordsOfFets, IsRecordOfFet, IsSmallFet};

use crate::joining::joined;
use crate::node_names::name_at;
use ext_model::{FetRec, NodeRec, TermRec};
use fet_regions::Fet;
use names_lists::List;
use std::alloc::{AllocError, Global};
use tech_model::{FetRule, RawTech, TypeId};

/// The rule of the transistors whose channels are of this type, where there is one.
fn rule_for(raw: &RawTech, kind: TypeId) -> Option<&FetRule>
    ensures { option_copied result ≡ find (λ rule. rule.kind.0 == kind.0) raw.now.fets }
{
    raw.fets.items().iter().find(|rule| rule.kind == kind)
}

/// The same, where channels are of the type.
fn rule_of(raw: &RawTech, kind: TypeId) -> &FetRule
    requires { IsTrue (is_channel raw.now kind.0) }
    ensures listed { In result.now raw.now.fets }
    ensures channel { result.now.kind.0 ≡ kind.0 }
{
    match rule_for(raw, kind) {
        Some(rule) => rule,
        None => unreachable!(),
    }
}

/// What the terminals leave of the perimeter.
fn gate_length(fet: &Fet) -> i128
    requires some { All (λ terminal. pos 0 <ℤ terminal.1) fet.now.terminals }
    requires lengths { sum_on (λ terminal. terminal.1) fet.now.terminals ≤ℤ pos (2 ^ 63) }
    requires some_edges { pos 0 ≤ℤ fet.now.perimeter }
    requires most_edges { fet.now.perimeter ≤ℤ pos (2 ^ 63) }
    ensures { result ≡ fet.now.perimeter -ℤ sum_on (λ terminal. terminal.1) fet.now.terminals }
{
    let mut left = fet.perimeter;
    for terminal in fet.terminals.items() {
        left -= terminal.1;
    }
    left
}

/// The terminals with the names of their nodes.
fn terminals_of(
    alloc: Global,
    nodes: &[NodeRec],
    joined: &[(usize, i128)],
) -> Result<Vec<TermRec>, AllocError>
    requires { All (λ terminal. terminal.0 < length nodes.now) joined.now }
    ensures { IfOk result (λ made. made.items ≡ map (term_of nodes.now) joined.now) }
{
    let mut terminals = Vec::with_capacity(alloc, joined.len())?;
    for terminal in joined {
        let (number, length) = *terminal;
        let node = name_at(alloc, nodes, number)?;
        terminals.push(TermRec { node, length })?;
    }
    Ok(terminals)
}

/// The record of a transistor of regions, of which each has the number of its node.
fn fet_record(
    alloc: Global,
    raw: &RawTech,
    nodes: &[NodeRec],
    numbers: &[usize],
    fet: &Fet,
) -> Result<FetRec, AllocError>
    requires numbers { All (λ number. number < length nodes.now) numbers.now }
    requires small { IsSmallFet raw.now numbers.now fet.now }
    ensures { IfOk result (IsRecordOfFet raw.now nodes.now numbers.now fet.now) }
{
    let rule = rule_of(raw, fet.kind);
    let joined = joined(alloc, numbers, fet.terminals.items())?;
    let terminals = terminals_of(alloc, nodes, joined.as_slice())?;
    let gate = TermRec {
        node: name_at(alloc, nodes, numbers[fet.gate])?,
        length: gate_length(fet),
    };
    Ok(FetRec {
        kind: rule.name.copy(alloc)?,
        x: fet.point.x,
        y: fet.point.y,
        area: fet.area,
        perimeter: fet.perimeter,
        substrate: rule.substrate.copy(alloc)?,
        gate,
        terminals: List::of(terminals),
    })
}

/// The records of transistors of regions, of which each has the number of its node.
pub fn fet_records(
    alloc: Global,
    raw: &RawTech,
    nodes: &[NodeRec],
    numbers: &[usize],
    fets: &[Fet],
) -> Result<Vec<FetRec>, AllocError>
    requires numbers { All (λ number. number < length nodes.now) numbers.now }
    requires small { All (IsSmallFet raw.now numbers.now) fets.now }
    ensures { IfOk result (λ made. AreRecordsOfFets raw.now nodes.now numbers.now fets.now made.items) }
{
    let mut records = Vec::with_capacity(alloc, fets.len())?;
    for fet in fets {
        records.push(fet_record(alloc, raw, nodes, numbers, fet)?)?;
    }
    Ok(records)
}
