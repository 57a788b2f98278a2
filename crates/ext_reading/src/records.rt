//! The records that lines say, with their numbers within their ranges.
ghost use Rattle.std.specs.Prelude.{◌≡◌, ◌≢◌, [], Some, Ok, Err, OnOk, IfOk, IfErr};
ghost use Rattle.ext_reading.specs.declared.faults.ExtReadFault.TheVariants.{Memory as OutOfMemory};
ghost use Rattle.ext_reading.specs.Drafts.{node_from, named_too, with_alias_at, fet_from, second_of, count_of, merge_from};
ghost use Rattle.ext_reading.specs.Drafts.{IsElementRange};
ghost use Rattle.ext_reading.specs.declared.lines.ElementRange.{ElementRange as IsRange};

use crate::faults::ExtReadFault;
use crate::lines::{ElementRange, FetLine, MergeLine, NodeLine};
use crate::parts::put;
use crate::ranges::{measure_in, measures_in, point_in, short_in, term_in, terms_in};
use crate::use_names::first_path;
use ext_model::{FetRec, MergeRow, NodeRec};
use names_lists::{List, Name};
use std::alloc::{AllocError, Global};
use std::mem;

// A node that has no other name yet.
pub fn node_from(alloc: Global, line: NodeLine) -> Result<NodeRec, ExtReadFault>
    ensures read { IfOk result (λ node. node_from line ≡ Ok node) }
    ensures refused { IfErr result (λ fault. fault ≢ OutOfMemory → node_from line ≡ Err fault) }
{
    let cap = measure_in(line.cap)?;
    let x = short_in(line.x)?;
    let y = short_in(line.y)?;
    let measures = measures_in(alloc, line.measures.items())?;
    Ok(NodeRec {
        name: line.name,
        aliases: List::of(Vec::new(alloc)),
        cap,
        x,
        y,
        kind: line.kind,
        measures,
    })
}

// Puts another name behind those that a node has.
fn name_too(alloc: Global, node: &mut NodeRec, alias: Name) -> Result<(), AllocError>
    ensures { OnOk result (node.new ≡ named_too alias node.old) }
{
    let mut aliases = mem::replace(&mut node.aliases, List::of(Vec::new(alloc))).into_vec();
    put(&mut aliases, alias)?;
    node.aliases = List::of(aliases);
    Ok(())
}

// The same for the node of this number, if there is one.
pub fn name_node_too(
    alloc: Global,
    nodes: &mut [NodeRec],
    node: usize,
    alias: Name,
) -> Result<(), AllocError>
    ensures { OnOk result (nodes.new ≡ with_alias_at node nodes.old alias) }
{
    if node < nodes.len() {
        name_too(alloc, &mut nodes[node], alias)?;
    }
    Ok(())
}

// A transistor, whatever the nodes are that it names.
pub fn fet_from(alloc: Global, line: FetLine) -> Result<FetRec, ExtReadFault>
    ensures read { IfOk result (λ fet. fet_from line ≡ Ok fet) }
    ensures refused { IfErr result (λ fault. fault ≢ OutOfMemory → fet_from line ≡ Err fault) }
{
    let (x, y) = point_in(line.corners)?;
    let area = measure_in(line.area)?;
    let perimeter = measure_in(line.perimeter)?;
    let gate = term_in(line.gate)?;
    let terminals = terms_in(alloc, line.terminals)?;
    Ok(FetRec {
        kind: line.kind,
        x,
        y,
        area,
        perimeter,
        substrate: line.substrate,
        gate,
        terminals,
    })
}

// The second path of a merge, the first where it is a range.
fn second_of(alloc: Global, path: Name, range: &Option<ElementRange>) -> Result<Name, AllocError>
    ensures { IfOk result (λ second. second ≡ second_of path range.now) }
{
    match range {
        Some(range) => first_path(alloc, range),
        None => Ok(path),
    }
}

// How many merges a range stands for.
fn count_of(range: &Option<ElementRange>) -> u64
    requires { (one : IsRange) → range.now ≡ Some one → IsElementRange one }
    ensures { result ≡ count_of range.now }
{
    match range {
        Some(range) => range.lo.abs_diff(range.hi) + 1,
        None => 1,
    }
}

// A row of merges, wherever its paths lead.
pub fn merge_from(
    alloc: Global,
    line: MergeLine,
    range: &Option<ElementRange>,
) -> Result<MergeRow, ExtReadFault>
    requires { (one : IsRange) → range.now ≡ Some one → IsElementRange one }
    ensures read { IfOk result (λ row. merge_from line range.now ≡ Ok row) }
    ensures refused { IfErr result (λ fault. fault ≢ OutOfMemory → merge_from line range.now ≡ Err fault) }
{
    let cap = measure_in(line.cap)?;
    let measures = measures_in(alloc, line.measures.items())?;
    Ok(MergeRow {
        first: line.first,
        second: second_of(alloc, line.second, range)?,
        count: count_of(range),
        cap,
        measures,
    })
}
