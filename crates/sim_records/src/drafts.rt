//! Sim texts of circuits, written transistor by transistor.
ghost use Rattle.std.specs.Prelude.{◌≡◌, ◌⊎◌, ◌≢◌, ◌<◌, ◌≤◌, ◌+◌, ◌++◌, ◌∷◌, [], ◌+ℤ◌, length, map, All, IfOk, IfErr, OnOk, ℕ};
ghost use Rattle.std.specs.List.{flat_map};
ghost use Rattle.std.specs.Int.RustNames.{unsigned_abs};
ghost use Rattle.ext_model.specs.declared.limits.TheConstants.{LENGTHS_EDGE};
ghost use Rattle.ext_model.specs.declared.circuits.Circuit.{Circuit as FlatCircuit};
ghost use Rattle.sim_text.specs.declared.limits.TheConstants.{LONGEST_TEXT};
ghost use Rattle.sim_text.specs.declared.files.SimLine.TheVariants.{Fet};
ghost use Rattle.sim_text.specs.WrittenTexts.{IsTooLong, lines_saying, saying_alias, saying_cap, sim_text, whole_line_saying};
ghost use Rattle.sim_records.specs.declared.limits.TheConstants.{MOST_SWITCHES};
ghost use Rattle.sim_records.specs.Switches.{switch_between, switches_among, switches_from, switches_of};
ghost use Rattle.sim_records.specs.SimRecords.{HasLetterAndLengths, HasTooManySwitches, aliases_of, cap_of, sim_of};
ghost use Rattle.sim_records.specs.Drafts.{AddsSwitches, CountsAsFar, GoesOnBy, IsDraftOf, aliases_text, caps_text, node_aliases_text};

use crate::caps::cap_of;
use crate::limits::MOST_SWITCHES;
use crate::switches::{length_of, letter_of, together, width_of};
use ext_model::{FetRec, NodeRec, TermRec};
use names_lists::Name;
use sim_text::{
    LONGEST_TEXT, SimFault, SimLimit, append_alias, append_cap, append_fet, append_header,
};
use std::alloc::{AllocError, Global};

/// The sim text of a circuit, as far as its transistors were given. It takes no memory but that of the text.
#[derive(Debug, Drop)]
pub struct SimDraft {
    /// The text. It gets no longer once it is longer than a text may be.
    text: Vec<u8>,
    /// How many switches there are. They are counted no further once there are more than there may be.
    switches: usize,
}

/// A sim text, and how many switches it has.
#[derive(Debug, Drop)]
pub struct SimText {
    pub bytes: Vec<u8>,
    pub switches: usize,
}

// One more switch.
fn counted(switches: usize) -> usize
    ensures { (many : ℕ) → CountsAsFar many switches → CountsAsFar (many + 1) result }
{
    if switches > MOST_SWITCHES {
        switches
    } else {
        switches + 1
    }
}

// Writes the switch between two terminals whose lengths are together that, unless the text is too long.
fn write_switch(
    text: &mut Vec<u8>,
    fet: &FetRec,
    source: &TermRec,
    drain: &TermRec,
    lengths: i128,
) -> Result<(), AllocError>
    requires { fet.now.kind ≢ [] }
    ensures { OnOk result (GoesOnBy (whole_line_saying (Fet (switch_between fet.now source.now drain.now lengths))) text.old.items text.new.items) }
{
    if text.len() > LONGEST_TEXT {
        return Ok(());
    }
    let width = width_of(lengths);
    let numbers = [
        length_of(fet.area, width),
        width,
        i128::from(fet.x),
        i128::from(fet.y),
    ];
    let letter = letter_of(fet.kind.bytes());
    append_fet(
        text,
        letter,
        &fet.gate.node,
        &source.node,
        &drain.node,
        &numbers,
    )
}

// Writes the capacitance of a node, unless the text is too long.
fn write_cap(text: &mut Vec<u8>, node: &NodeRec) -> Result<(), AllocError>
    ensures { OnOk result (GoesOnBy (whole_line_saying (saying_cap (cap_of node.now))) text.old.items text.new.items) }
{
    if text.len() > LONGEST_TEXT {
        return Ok(());
    }
    append_cap(text, &node.name, cap_of(node))
}

// Writes the capacitance of each node, as far as the text goes.
fn write_caps(text: &mut Vec<u8>, nodes: &[NodeRec]) -> Result<(), AllocError>
    ensures { OnOk result (GoesOnBy (caps_text nodes.now) text.old.items text.new.items) }
{
    for node in nodes {
        write_cap(text, node)?;
    }
    Ok(())
}

// Writes another name of a node, unless the text is too long.
fn write_alias(text: &mut Vec<u8>, node: &Name, alias: &Name) -> Result<(), AllocError>
    ensures { OnOk result (GoesOnBy (whole_line_saying (saying_alias (node.now, alias.now))) text.old.items text.new.items) }
{
    if text.len() > LONGEST_TEXT {
        return Ok(());
    }
    append_alias(text, node, alias)
}

// Writes the other names of a node, as far as the text goes.
fn write_node_aliases(text: &mut Vec<u8>, node: &NodeRec) -> Result<(), AllocError>
    ensures { OnOk result (GoesOnBy (node_aliases_text node.now) text.old.items text.new.items) }
{
    for alias in node.aliases.items() {
        write_alias(text, &node.name, alias)?;
    }
    Ok(())
}

// Writes the other names of each node, as far as the text goes.
fn write_aliases(text: &mut Vec<u8>, nodes: &[NodeRec]) -> Result<(), AllocError>
    ensures { OnOk result (GoesOnBy (aliases_text nodes.now) text.old.items text.new.items) }
{
    for node in nodes {
        write_node_aliases(text, node)?;
    }
    Ok(())
}

// Adds the switch between two terminals whose lengths are together that.
fn add_switch(
    draft: &mut SimDraft,
    fet: &FetRec,
    source: &TermRec,
    drain: &TermRec,
    lengths: i128,
) -> Result<(), AllocError>
    requires { fet.now.kind ≢ [] }
    ensures { OnOk result (AddsSwitches (switch_between fet.now source.now drain.now lengths ∷ []) draft.old draft.new) }
{
    draft.switches = counted(draft.switches);
    write_switch(&mut draft.text, fet, source, drain, lengths)
}

// Adds the switches from a terminal to each of some others.
fn add_from(
    draft: &mut SimDraft,
    fet: &FetRec,
    source: &TermRec,
    others: &[TermRec],
) -> Result<(), AllocError>
    requires letter { fet.now.kind ≢ [] }
    requires source { unsigned_abs source.now.length < LENGTHS_EDGE }
    requires others { All (λ side. unsigned_abs side.length < LENGTHS_EDGE) others.now }
    ensures { OnOk result (AddsSwitches (switches_from fet.now source.now others.now) draft.old draft.new) }
{
    for drain in others {
        add_switch(draft, fet, source, drain, together(source, drain))?;
    }
    Ok(())
}

// Adds the switches between each two of the terminals.
fn add_among(draft: &mut SimDraft, fet: &FetRec, terminals: &[TermRec]) -> Result<(), AllocError>
    requires letter { fet.now.kind ≢ [] }
    requires terminals { All (λ side. unsigned_abs side.length < LENGTHS_EDGE) terminals.now }
    ensures { OnOk result (AddsSwitches (switches_among fet.now terminals.now) draft.old draft.new) }
{
    for at in 0..terminals.len() {
        add_from(draft, fet, &terminals[at], &terminals[at + 1..])?;
    }
    Ok(())
}

impl SimDraft {
    /// The draft of a circuit of which no transistor was given yet.
    pub fn new(alloc: Global, tech: &Name) -> Result<SimDraft, AllocError>
        ensures { IfOk result (IsDraftOf tech.now []) }
    {
        let mut text = Vec::new(alloc);
        append_header(&mut text, tech)?;
        Ok(SimDraft { text, switches: 0 })
    }

    /// Adds the switches of the next transistor: a line for each two of its terminals, and one from a lone terminal to itself. Want of
    /// memory alone refuses.
    pub fn add_fet(&mut self, fet: &FetRec) -> Result<(), AllocError>
        requires { HasLetterAndLengths fet.now }
        ensures { OnOk result (AddsSwitches (switches_of fet.now) self.old self.new) }
    {
        match fet.terminals.items() {
            [one] => add_switch(self, fet, one, one, one.length),
            terminals => add_among(self, fet, terminals),
        }
    }

    /// The sim text of the circuit that has these nodes and the transistors that were given.
    ///
    /// # Errors
    ///
    /// `TooMany(Switches)` where there are more than `MOST_SWITCHES`, `TooLong` where the text is longer than `LONGEST_TEXT` bytes, or
    /// want of memory.
    pub fn finish(self, nodes: &[NodeRec]) -> Result<SimText, SimFault>
        ensures text { (circuit : FlatCircuit) → circuit.nodes ≡ nodes.now → IsDraftOf circuit.tech (flat_map switches_of circuit.fets) self →
            IfOk result (λ text. (text.bytes.items ≡ sim_text (sim_of circuit)) × (text.switches ≡ length (sim_of circuit).fets)) }
        ensures few { IfOk result (λ text. text.switches ≤ MOST_SWITCHES) }
        ensures within { IfOk result (λ text. length text.bytes.items ≤ LONGEST_TEXT) }
        ensures fault { (circuit : FlatCircuit) → circuit.nodes ≡ nodes.now → IsDraftOf circuit.tech (flat_map switches_of circuit.fets) self →
            IfErr result (λ fault. (fault ≡ SimFault.Memory) ⊎ (HasTooManySwitches fault circuit
            ⊎ ((length (sim_of circuit).fets ≤ MOST_SWITCHES) × IsTooLong fault (sim_text (sim_of circuit))))) }
    {
        let SimDraft { mut text, switches } = self;
        if switches > MOST_SWITCHES {
            return Err(SimFault::TooMany(SimLimit::Switches));
        }
        write_caps(&mut text, nodes)?;
        write_aliases(&mut text, nodes)?;
        if text.len() > LONGEST_TEXT {
            return Err(SimFault::TooLong);
        }
        Ok(SimText {
            bytes: text,
            switches,
        })
    }
}
