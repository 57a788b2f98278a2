//! The switches of transistors.
ghost use Rattle.std.specs.Prelude.{◌≡◌, ◌⊎◌, ◌≤◌, ◌<◌, ◌<ℤ◌, ◌≤ℤ◌, ◌≢◌, ◌∷◌, ◌++◌, [], ◌+ℤ◌, pos, neg_ℤ, ◌^◌, length, All, IfOk, OnOk, IfErr};
ghost use Rattle.std.specs.Int.RustNames.{unsigned_abs};
ghost use Rattle.ext_model.specs.declared.limits.TheConstants.{LENGTHS_EDGE};
ghost use Rattle.sim_text.specs.declared.faults.SimFault.TheVariants.{Memory as OutOfMemory, TooMany as TooManyOf};
ghost use Rattle.sim_text.specs.declared.limits.SimLimit.TheVariants.{Switches};
ghost use Rattle.sim_records.specs.declared.limits.TheConstants.{MOST_SWITCHES};
ghost use Rattle.sim_records.specs.Switches.{letter_of, width_of, length_of, switch_between, switches_from, switches_among, switches_of};

use crate::adding::add;
use crate::limits::MOST_SWITCHES;
use ext_model::{FetRec, TermRec};
use sim_text::{SimFault, SimFet, SimLimit};
use std::alloc::{AllocError, Global};

// the letter of a transistor
pub fn letter_of(kind: &[u8]) -> u8
    requires { kind.now ≢ [] }
    ensures { result ≡ letter_of kind.now }
{
    kind[0]
}

// the width of a switch between terminals whose lengths are together that
pub fn width_of(lengths: i128) -> i128
    ensures value { result ≡ width_of lengths }
    ensures positive { pos 1 ≤ℤ result }
{
    lengths.div_euclid(2).max(1)
}

// the length of a switch of that width
pub fn length_of(area: i128, width: i128) -> i128
    requires { pos 1 ≤ℤ width }
    ensures { result ≡ length_of area width }
{
    area.div_euclid(width).max(1)
}

// the lengths of two terminals together
pub fn together(source: &TermRec, drain: &TermRec) -> i128
    requires source { unsigned_abs source.now.length < LENGTHS_EDGE }
    requires drain { unsigned_abs drain.now.length < LENGTHS_EDGE }
    ensures { result ≡ source.now.length +ℤ drain.now.length }
{
    source.length + drain.length
}

// the switch between two terminals whose lengths are together that
fn switch_between(
    alloc: Global,
    fet: &FetRec,
    source: &TermRec,
    drain: &TermRec,
    lengths: i128,
) -> Result<SimFet, AllocError>
    requires { fet.now.kind ≢ [] }
    ensures { IfOk result (λ switch. switch ≡ switch_between fet.now source.now drain.now lengths) }
{
    let width = width_of(lengths);
    Ok(SimFet {
        letter: letter_of(fet.kind.bytes()),
        gate: fet.gate.node.copy(alloc)?,
        source: source.node.copy(alloc)?,
        drain: drain.node.copy(alloc)?,
        numbers: [
            length_of(fet.area, width),
            width,
            i128::from(fet.x),
            i128::from(fet.y),
        ],
    })
}

// the switch between two terminals
fn pair_switch(
    alloc: Global,
    fet: &FetRec,
    source: &TermRec,
    drain: &TermRec,
) -> Result<SimFet, AllocError>
    requires letter { fet.now.kind ≢ [] }
    requires source { unsigned_abs source.now.length < LENGTHS_EDGE }
    requires drain { unsigned_abs drain.now.length < LENGTHS_EDGE }
    ensures { IfOk result (λ switch. switch ≡ switch_between fet.now source.now drain.now (source.now.length +ℤ drain.now.length)) }
{
    switch_between(alloc, fet, source, drain, together(source, drain))
}

// Adds a switch. One more than there may be is refused.
fn push(switches: &mut Vec<SimFet>, switch: SimFet) -> Result<(), SimFault>
    requires { length switches.old.items ≤ MOST_SWITCHES }
    ensures added { OnOk result (switches.new.items ≡ switches.old.items ++ switch ∷ []) }
    ensures few { OnOk result (length switches.new.items ≤ MOST_SWITCHES) }
    ensures fault { IfErr result (λ fault. (fault ≡ OutOfMemory) ⊎ ((fault ≡ TooManyOf Switches)
        × (MOST_SWITCHES < length (switches.old.items ++ switch ∷ [])))) }
{
    if switches.len() == MOST_SWITCHES {
        return Err(SimFault::TooMany(SimLimit::Switches));
    }
    add(switches, switch)?;
    Ok(())
}

// Adds the switches from a terminal to each of some others.
fn add_from(
    alloc: Global,
    switches: &mut Vec<SimFet>,
    fet: &FetRec,
    source: &TermRec,
    others: &[TermRec],
) -> Result<(), SimFault>
    requires letter { fet.now.kind ≢ [] }
    requires source { unsigned_abs source.now.length < LENGTHS_EDGE }
    requires others { All (λ side. unsigned_abs side.length < LENGTHS_EDGE) others.now }
    requires few { length switches.old.items ≤ MOST_SWITCHES }
    ensures added { OnOk result (switches.new.items ≡ switches.old.items ++ switches_from fet.now source.now others.now) }
    ensures few { OnOk result (length switches.new.items ≤ MOST_SWITCHES) }
    ensures fault { IfErr result (λ fault. (fault ≡ OutOfMemory) ⊎ ((fault ≡ TooManyOf Switches)
        × (MOST_SWITCHES < length (switches.old.items ++ switches_from fet.now source.now others.now)))) }
{
    for drain in others {
        push(switches, pair_switch(alloc, fet, source, drain)?)?;
    }
    Ok(())
}

// Adds the switches between each two of the terminals.
fn add_among(
    alloc: Global,
    switches: &mut Vec<SimFet>,
    fet: &FetRec,
    terminals: &[TermRec],
) -> Result<(), SimFault>
    requires letter { fet.now.kind ≢ [] }
    requires terminals { All (λ side. unsigned_abs side.length < LENGTHS_EDGE) terminals.now }
    requires few { length switches.old.items ≤ MOST_SWITCHES }
    ensures added { OnOk result (switches.new.items ≡ switches.old.items ++ switches_among fet.now terminals.now) }
    ensures few { OnOk result (length switches.new.items ≤ MOST_SWITCHES) }
    ensures fault { IfErr result (λ fault. (fault ≡ OutOfMemory) ⊎ ((fault ≡ TooManyOf Switches)
        × (MOST_SWITCHES < length (switches.old.items ++ switches_among fet.now terminals.now)))) }
{
    for at in 0..terminals.len() {
        add_from(alloc, switches, fet, &terminals[at], &terminals[at + 1..])?;
    }
    Ok(())
}

/// Adds the switches of a transistor. `TooMany(Switches)` refuses where there would be more than there may be, and `Memory`.
pub fn add_switches(alloc: Global, switches: &mut Vec<SimFet>, fet: &FetRec) -> Result<(), SimFault>
    requires letter { fet.now.kind ≢ [] }
    requires terminals { All (λ side. unsigned_abs side.length < LENGTHS_EDGE) fet.now.terminals }
    requires few { length switches.old.items ≤ MOST_SWITCHES }
    ensures added { OnOk result (switches.new.items ≡ switches.old.items ++ switches_of fet.now) }
    ensures few { OnOk result (length switches.new.items ≤ MOST_SWITCHES) }
    ensures fault { IfErr result (λ fault. (fault ≡ OutOfMemory) ⊎ ((fault ≡ TooManyOf Switches)
        × (MOST_SWITCHES < length (switches.old.items ++ switches_of fet.now)))) }
{
    match fet.terminals.items() {
        [one] => push(switches, switch_between(alloc, fet, one, one, one.length)?),
        terminals => add_among(alloc, switches, fet, terminals),
    }
}
