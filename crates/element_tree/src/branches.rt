//! The branches of each record.
ghost use Rattle.std.specs.Prelude.{◌≡◌, ◌<◌, ◌≤◌, ◌+◌, suc, length, map, take, All, sum, sum_by, IfOk, IsPermutation, slice_index_or};
ghost use Rattle.std.specs.List.{range_with_len};
ghost use Rattle.name_index.specs.FiniteSets.Lists.{Distinct};
ghost use Rattle.circuit_model.specs.Elements.{AreRecords};
ghost use Rattle.element_tree.specs.Sizes.{IsSomeGraph, value_at, size_from, AreMeasuredIn};
ghost use Rattle.element_tree.specs.steps.Forests.{AreSteps, AreBranchesOf, AreBranches};
ghost use Rattle.element_tree.specs.steps.RankSteps.{HaveRankSteps};

use crate::graph::RecordGraph;
use crate::name_order::in_name_order;
use crate::tree::Branch;
use circuit_model::MOST_FLAT_ELEMENTS;
use ext_model::{CellExt, UseRec};
use names_lists::List;
use std::alloc::{AllocError, Global};

// The branches that lead to the children, without their steps in rank.
fn with_steps(alloc: Global, children: &[usize], sizes: &[usize]) -> Result<Vec<Branch>, AllocError>
    requires within { All (λ child. child < length sizes.now) children.now }
    requires few { sum_by (value_at sizes.now) children.now < MOST_FLAT_ELEMENTS }
    ensures { IfOk result (λ branches. AreSteps (value_at sizes.now) 1 children.now branches.items) }
{
    let mut branches = Vec::with_capacity(alloc, children.len())?;
    let mut step = 1;
    for child in children {
        branches.push(Branch {
            child: *child,
            step,
            rank_step: 0,
        })?;
        step += sizes[*child];
    }
    Ok(branches)
}

// The branches with their steps in rank. The numbers are those of the branches in the order of
// their names.
fn with_rank_steps(
    mut branches: Vec<Branch>,
    numbers: &[usize],
    children: &[usize],
    sizes: &[usize],
) -> Vec<Branch>
    requires within { All (λ child. child < length sizes.now) children.now }
    requires steps { AreSteps (value_at sizes.now) 1 children.now branches.items }
    requires few { sum_by (value_at sizes.now) children.now < MOST_FLAT_ELEMENTS }
    requires numbers { IsPermutation (range_with_len 0 (length children.now)) numbers.now }
    ensures steps { AreSteps (value_at sizes.now) 1 children.now result.items }
    ensures ranks { HaveRankSteps (value_at sizes.now) children.now numbers.now (length children.now) result.items }
{
    let mut rank_step = 1;
    for number in numbers {
        branches[*number].rank_step = rank_step;
        rank_step += sizes[children[*number]];
    }
    branches
}

// The branches of the uses, which lead to the children. A record with too many elements is in no
// tree, and gets none.
fn branches_of(
    alloc: Global,
    uses: &[UseRec],
    children: &[usize],
    sizes: &[usize],
    size: usize,
) -> Result<List<Branch>, AllocError>
    requires long { length children.now ≡ length uses.now }
    requires names { Distinct (map (λ used. used.id) uses.now) }
    requires within { All (λ child. child < length sizes.now) children.now }
    requires size { size ≡ size_from (map (value_at sizes.now) children.now) }
    ensures { IfOk result (λ branches. size ≤ MOST_FLAT_ELEMENTS → AreBranchesOf (value_at sizes.now) uses.now children.now branches) }
{
    if size > MOST_FLAT_ELEMENTS {
        return Ok(List::of(Vec::new(alloc)));
    }
    let branches = with_steps(alloc, children, sizes)?;
    let numbers = in_name_order(alloc, uses)?;
    let branches = with_rank_steps(branches, numbers.as_slice(), children, sizes);
    Ok(List::of(branches))
}

// Empty lists, so many.
fn empty_lists(alloc: Global, count: usize) -> Result<Vec<List<Branch>>, AllocError>
    ensures { IfOk result (λ lists. length lists.items ≡ count) }
{
    let mut lists = Vec::with_capacity(alloc, count)?;
    for _ in 0..count {
        lists.push(List::of(Vec::new(alloc)))?;
    }
    Ok(lists)
}

/// The branches of each record that fits.
pub fn all_branches(
    alloc: Global,
    exts: &[CellExt],
    graph: &RecordGraph,
    sizes: &[usize],
) -> Result<Vec<List<Branch>>, AllocError>
    requires records { AreRecords exts.now }
    requires graph { IsSomeGraph exts.now graph.now }
    requires sizes { AreMeasuredIn size_from graph.now sizes.now }
    ensures { IfOk result (λ branches. AreBranches exts.now graph.now.children graph.now.order sizes.now branches.items) }
{
    let mut branches = empty_lists(alloc, exts.len())?;
    for cell in graph.order.items() {
        let uses = exts[*cell].uses.items();
        let children = graph.children.items()[*cell].items();
        branches[*cell] = branches_of(alloc, uses, children, sizes, sizes[*cell])?;
    }
    Ok(branches)
}
