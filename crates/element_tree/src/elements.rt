//! The elements, depth first.
ghost use Rattle.std.specs.Prelude.{◌≡◌, ◌<◌, ◌≤◌, ◌+◌, ◌++◌, suc, length, IfOk, IfErr, OnOk, slice_index_or};
ghost use Rattle.ext_model.specs.Lawful.{IsPlacement};
ghost use Rattle.ext_model.specs.declared.limits.TheConstants.{ELEMENT_EDGE};
ghost use Rattle.circuit_model.specs.Elements.{transform_of};
ghost use Rattle.element_tree.specs.steps.Links.{Link, flat_below, flats_below, links_of};
ghost use Rattle.element_tree.specs.steps.Rooms.{MovesByAtMost, HasRoom};

use crate::tree::{Branch, TreeElement};
use circuit_model::{FlatFault, LONGEST_CHAIN, MOST_FLAT_ELEMENTS};
use ext_model::{CellExt, UseRec};
use geo_core::Transform;
use names_lists::List;

// The transform of a use.
fn transform_of(used: &UseRec) -> Transform
    requires placed { IsPlacement ELEMENT_EDGE used.now.six }
    ensures value { result ≡ transform_of used.now.six }
    ensures moves { MovesByAtMost 1 result }
{
    match Transform::of_six(used.six) {
        Some(transform) => transform,
        None => unreachable!(),
    }
}

// How many bytes a path has with one more name and the slash behind it.
fn bytes_with(bytes: usize, id: &[u8]) -> Result<usize, FlatFault>
    ensures sum { IfOk result (λ sum. sum ≡ bytes + suc (length id.now)) }
    ensures fault { IfErr result (λ fault. fault ≡ FlatFault.Memory) }
{
    match bytes.checked_add(id.len() + 1) {
        Some(sum) => Ok(sum),
        None => Err(FlatFault::Memory),
    }
}

// The element at a use of another, which has this number.
fn element_below(
    number: usize,
    element: &TreeElement,
    at: usize,
    used: &UseRec,
    branch: &Branch,
) -> Result<TreeElement, FlatFault>
    requires placed { IsPlacement ELEMENT_EDGE used.now.six }
    requires ranks { element.now.rank + branch.now.rank_step ≤ MOST_FLAT_ELEMENTS }
    requires deep { element.now.depth < LONGEST_CHAIN }
    requires moves { MovesByAtMost element.now.depth element.now.to_root }
    ensures below { IfOk result (λ below. below ≡ flat_below number element.now (record { at = at; used = used.now; branch = branch.now })) }
    ensures fault { IfErr result (λ fault. fault ≡ FlatFault.Memory) }
{
    Ok(TreeElement {
        cell: branch.child,
        parent: number,
        at,
        depth: element.depth + 1,
        bytes: bytes_with(element.bytes, used.id.bytes())?,
        rank: element.rank + branch.rank_step,
        to_root: transform_of(used).then(&element.to_root),
    })
}

/// Appends an element, which has this number, and all below it, through at most so many records.
pub fn add_elements(
    levels: usize,
    elements: &mut Vec<TreeElement>,
    exts: &[CellExt],
    branches: &[List<Branch>],
    number: usize,
    element: &TreeElement,
) -> Result<(), FlatFault>
    requires room { HasRoom exts.now branches.now levels number element.now }
    ensures added { OnOk result (elements.new.items ≡ elements.old.items ++ flats_below levels (links_of exts.now branches.now) number element.now) }
    ensures fault { IfErr result (λ fault. fault ≡ FlatFault.Memory) }
{
    if levels == 0 {
        return Ok(());
    }
    elements.push(*element)?;
    let uses = exts[element.cell].uses.items();
    let row = branches[element.cell].items();
    for (at, branch) in row.iter().enumerate() {
        let below = element_below(number, element, at, &uses[at], branch)?;
        let step = number + branch.step;
        add_elements(levels - 1, elements, exts, branches, step, &below)?;
    }
    Ok(())
}
