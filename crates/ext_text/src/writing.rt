//! Writes circuit files.
ghost use Rattle.std.specs.Prelude.{◌≡◌, ◌≢◌, ◌≤◌, ◌++◌, map, length, All, IfOk, IfErr, OnOk};
ghost use Rattle.ext_model.specs.LawfulArrays.{IsMergeRow, IsLawfulArrayExt};
ghost use Rattle.ext_text.specs.declared.faults.ExtFault.TheVariants.{Memory as OutOfMemory};
ghost use Rattle.ext_text.specs.steps.Appended.{nodes_text};
ghost use Rattle.ext_text.specs.WrittenTexts.{use_words, node_lines, equiv_words, fet_words, merge_words, lines_text, ext_text, flat_text, IsTooLong};

use crate::faults::ExtFault;
use crate::limits::LONGEST_TEXT;
use crate::nodes::{write_alias, write_node};
use crate::records::{write_fet, write_header, write_merge, write_use};
use ext_model::{ArrayExt, ArrayUse, Circuit, FetRec, MergeRow, NodeRec};
use names_lists::Name;
use std::alloc::{AllocError, Global};

#[tactic(auto, unfolding(crate::specs::WrittenTexts::lines_text))]
fn write_uses(out: &mut Vec<u8>, uses: &[ArrayUse]) -> Result<(), AllocError>
    ensures { OnOk result (out.new.items ≡ out.old.items ++ lines_text (map use_words uses.now)) }
{
    for used in uses {
        write_use(out, used)?;
    }
    Ok(())
}

#[tactic(auto, unfolding(crate::specs::WrittenTexts::lines_text))]
fn write_aliases(out: &mut Vec<u8>, name: &Name, aliases: &[Name]) -> Result<(), AllocError>
    ensures { OnOk result (out.new.items ≡ out.old.items ++ lines_text (map (equiv_words name.now) aliases.now)) }
{
    for alias in aliases {
        write_alias(out, name, alias)?;
    }
    Ok(())
}

// The lines of a node and of its aliases.
#[tactic(auto, unfolding(crate::specs::WrittenTexts::lines_text))]
fn write_whole_node(out: &mut Vec<u8>, node: &NodeRec) -> Result<(), AllocError>
    ensures { OnOk result (out.new.items ≡ out.old.items ++ lines_text (node_lines node.now)) }
{
    write_node(out, node)?;
    write_aliases(out, &node.name, node.aliases.items())?;
    Ok(())
}

fn write_nodes(out: &mut Vec<u8>, nodes: &[NodeRec]) -> Result<(), AllocError>
    ensures { OnOk result (out.new.items ≡ out.old.items ++ nodes_text nodes.now) }
{
    for node in nodes {
        write_whole_node(out, node)?;
    }
    Ok(())
}

#[tactic(auto, unfolding(crate::specs::WrittenTexts::lines_text))]
fn write_fets(out: &mut Vec<u8>, fets: &[FetRec]) -> Result<(), AllocError>
    ensures { OnOk result (out.new.items ≡ out.old.items ++ lines_text (map fet_words fets.now)) }
{
    for fet in fets {
        write_fet(out, fet)?;
    }
    Ok(())
}

#[tactic(auto, unfolding(crate::specs::WrittenTexts::lines_text))]
fn write_merges(out: &mut Vec<u8>, merges: &[MergeRow]) -> Result<(), AllocError>
    requires { All IsMergeRow merges.now }
    ensures { OnOk result (out.new.items ≡ out.old.items ++ lines_text (map merge_words merges.now)) }
{
    for merge in merges {
        write_merge(out, merge)?;
    }
    Ok(())
}

/// The file of a cell's record, in version 2. Want of memory alone refuses.
pub fn write_ext(alloc: Global, ext: &ArrayExt) -> Result<Vec<u8>, ExtFault>
    requires { IsLawfulArrayExt ext.now }
    ensures written { IfOk result (λ text. text.items ≡ ext_text ext.now) }
    ensures refused { IfErr result (λ fault. fault ≡ OutOfMemory) }
{
    let mut out = Vec::new(alloc);
    write_header(&mut out, b"2", &ext.tech, ext.classes.items())?;
    write_uses(&mut out, ext.uses.items())?;
    write_nodes(&mut out, ext.nodes.items())?;
    write_fets(&mut out, ext.fets.items())?;
    write_merges(&mut out, ext.merges.items())?;
    Ok(out)
}

fn check_length(text: &[u8]) -> Result<(), ExtFault>
    ensures within { IfOk result (λ _. length text.now ≤ LONGEST_TEXT) }
    ensures refused { IfErr result (λ fault. IsTooLong fault text.now) }
{
    if text.len() > LONGEST_TEXT {
        return Err(ExtFault::TooLong);
    }
    Ok(())
}

// Writes the lines of aliases, as long as what is written is no longer than a text may be.
#[tactic(auto, unfolding(crate::specs::WrittenTexts::lines_text))]
fn write_aliases_within(out: &mut Vec<u8>, name: &Name, aliases: &[Name]) -> Result<(), ExtFault>
    ensures written { OnOk result (out.new.items ≡ out.old.items ++ lines_text (map (equiv_words name.now) aliases.now)) }
    ensures refused { IfErr result (λ fault. fault ≢ OutOfMemory
        → IsTooLong fault (out.old.items ++ lines_text (map (equiv_words name.now) aliases.now))) }
{
    for alias in aliases {
        check_length(out)?;
        write_alias(out, name, alias)?;
    }
    Ok(())
}

// The lines of a node and of its aliases, as long as what is written is no longer than a text may be.
#[tactic(auto, unfolding(crate::specs::WrittenTexts::lines_text))]
fn write_whole_node_within(out: &mut Vec<u8>, node: &NodeRec) -> Result<(), ExtFault>
    ensures written { OnOk result (out.new.items ≡ out.old.items ++ lines_text (node_lines node.now)) }
    ensures refused { IfErr result (λ fault. fault ≢ OutOfMemory
        → IsTooLong fault (out.old.items ++ lines_text (node_lines node.now))) }
{
    check_length(out)?;
    write_node(out, node)?;
    write_aliases_within(out, &node.name, node.aliases.items())
}

// Writes the lines of nodes, as long as what is written is no longer than a text may be.
fn write_nodes_within(out: &mut Vec<u8>, nodes: &[NodeRec]) -> Result<(), ExtFault>
    ensures written { OnOk result (out.new.items ≡ out.old.items ++ nodes_text nodes.now) }
    ensures refused { IfErr result (λ fault. fault ≢ OutOfMemory
        → IsTooLong fault (out.old.items ++ nodes_text nodes.now)) }
{
    for node in nodes {
        write_whole_node_within(out, node)?;
    }
    Ok(())
}

// Writes the lines of transistors, as long as what is written is no longer than a text may be.
#[tactic(auto, unfolding(crate::specs::WrittenTexts::lines_text))]
fn write_fets_within(out: &mut Vec<u8>, fets: &[FetRec]) -> Result<(), ExtFault>
    ensures written { OnOk result (out.new.items ≡ out.old.items ++ lines_text (map fet_words fets.now)) }
    ensures refused { IfErr result (λ fault. fault ≢ OutOfMemory
        → IsTooLong fault (out.old.items ++ lines_text (map fet_words fets.now))) }
{
    for fet in fets {
        check_length(out)?;
        write_fet(out, fet)?;
    }
    Ok(())
}

fn write_circuit(out: &mut Vec<u8>, circuit: &Circuit) -> Result<(), ExtFault>
    ensures written { OnOk result (out.new.items ≡ out.old.items ++ flat_text circuit.now) }
    ensures refused { IfErr result (λ fault. fault ≢ OutOfMemory
        → IsTooLong fault (out.old.items ++ flat_text circuit.now)) }
{
    write_header(out, b"1", &circuit.tech, circuit.classes.items())?;
    write_nodes_within(out, circuit.nodes.items())?;
    write_fets_within(out, circuit.fets.items())?;
    Ok(())
}

/// The file of a flat circuit.
///
/// # Errors
///
/// `TooLong` exactly where the text is longer than `LONGEST_TEXT` bytes, which is found before more memory is taken than that
/// and a line; or want of memory.
pub fn write_flat(alloc: Global, circuit: &Circuit) -> Result<Vec<u8>, ExtFault>
    ensures written { IfOk result (λ text. text.items ≡ flat_text circuit.now) }
    ensures within { IfOk result (λ text. length text.items ≤ LONGEST_TEXT) }
    ensures refused { IfErr result (λ fault. fault ≢ OutOfMemory → IsTooLong fault (flat_text circuit.now)) }
{
    let mut out = Vec::new(alloc);
    write_circuit(&mut out, circuit)?;
    check_length(&out)?;
    Ok(out)
}
