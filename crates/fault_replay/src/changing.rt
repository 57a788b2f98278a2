//! Changes of states.

ghost use Rattle.std.specs.Prelude.{◌≡◌, ◌<◌, ℕ, All, IfOk, false, filter, length, slice_index};
ghost use Rattle.switch_net.specs.Path.{state_of};
ghost use Rattle.switch_net.specs.Sets.{IsInside};
ghost use Rattle.fault_replay.specs.Changes.{IsTold, changed, is_copied as is_copied_node, taken_from};

use std::alloc::{AllocError, Global};
use switch_net::{Level, NodeSet};

/// Makes changes.
pub fn make_changes(changes: &[(u32, Level)], states: &mut [Level])
    requires { All (λ change. change.0 < length states.old) changes.now }
    ensures { states.new ≡ changed changes.now states.old }
{
    for (node, level) in changes {
        states[*node as usize] = *level;
    }
}

// Whether a node is neither marked nor held.
fn is_copied(marks: &NodeSet, held: u32, node: u32) -> bool
    requires { node < length marks.now.inside }
    ensures { result ≡ is_copied_node marks.now.inside held node }
{
    node != held && !marks.has(node)
}

/// Makes those changes whose nodes are neither marked nor held.
pub fn copy_changes(changes: &[(u32, Level)], marks: &NodeSet, held: u32, states: &mut [Level])
    requires changes { All (λ change. change.0 < length states.old) changes.now }
    requires marks { length marks.now.inside ≡ length states.old }
    ensures { states.new ≡ changed (filter (λ change. is_copied_node marks.now.inside held change.0) changes.now) states.old }
{
    for (node, level) in changes {
        if is_copied(marks, held, *node) {
            states[*node as usize] = *level;
        }
    }
}

/// Gives nodes these new states.
pub fn take_states(nodes: &[u32], next: &[Level], states: &mut [Level])
    requires nodes { All (λ v. v < length states.old) nodes.now }
    requires next { length next.now ≡ length states.old }
    ensures { states.new ≡ changed (taken_from next.now nodes.now) states.old }
{
    for node in nodes {
        states[*node as usize] = next[*node as usize];
    }
}

// Whether a node has another state in the one list than in the other.
fn differs_at(node: u32, one: &[Level], other: &[Level]) -> bool
    requires node { node < length one.now }
    requires other { length other.now ≡ length one.now }
    ensures { result ≡ false → state_of one.now node ≡ state_of other.now node }
{
    one[node as usize] != other[node as usize]
}

/// Whether some of the nodes have other states in the one list than in the other.
pub fn differ_at(nodes: &[u32], one: &[Level], other: &[Level]) -> bool
    requires nodes { All (λ v. v < length one.now) nodes.now }
    requires other { length other.now ≡ length one.now }
    ensures { result ≡ false → (i : ℕ) → i < length nodes.now
        → state_of one.now (slice_index nodes.now i) ≡ state_of other.now (slice_index nodes.now i) }
{
    for node in nodes {
        if differs_at(*node, one, other) {
            return true;
        }
    }
    false
}

/// Adds a node where its states differ.
pub fn tell_at(node: u32, one: &[Level], other: &[Level], told: &mut NodeSet)
    requires node { node < length one.now }
    requires other { length other.now ≡ length one.now }
    requires fits { length told.old.inside ≡ length one.now }
    ensures fits { length told.new.inside ≡ length told.old.inside }
    ensures grown { (v : ℕ) → IsInside told.old.inside v → IsInside told.new.inside v }
    ensures here { IsTold one.now other.now told.new.inside node }
{
    if differs_at(node, one, other) {
        told.add(node);
    }
}

/// Adds those of the nodes whose states differ.
pub fn tell_all_at(nodes: &[u32], one: &[Level], other: &[Level], told: &mut NodeSet)
    requires nodes { All (λ v. v < length one.now) nodes.now }
    requires other { length other.now ≡ length one.now }
    requires fits { length told.old.inside ≡ length one.now }
    ensures fits { length told.new.inside ≡ length told.old.inside }
    ensures grown { (v : ℕ) → IsInside told.old.inside v → IsInside told.new.inside v }
    ensures all { (i : ℕ) → i < length nodes.now → IsTold one.now other.now told.new.inside (slice_index nodes.now i) }
{
    for node in nodes {
        tell_at(*node, one, other, told);
    }
}

/// Tells all nodes whose states differ, and no others.
pub fn tell_all(nodes: u32, one: &[Level], other: &[Level], told: &mut NodeSet)
    requires one { length one.now ≡ nodes }
    requires other { length other.now ≡ nodes }
    requires fits { length told.old.inside ≡ nodes }
    ensures fits { length told.new.inside ≡ nodes }
    ensures all { (v : ℕ) → IsTold one.now other.now told.new.inside v }
{
    told.clear();
    for node in 0..nodes {
        tell_at(node, one, other, told);
    }
}

/// The changes of these nodes from the old states to the new ones.
pub fn changes_between(
    alloc: Global,
    nodes: &[u32],
    old: &[Level],
    new: &[Level],
) -> Result<Vec<(u32, Level)>, AllocError>
    requires nodes { All (λ v. v < length old.now) nodes.now }
    requires new { length new.now ≡ length old.now }
    ensures same { IfOk result (λ changes. changed changes.items old.now ≡ changed (taken_from new.now nodes.now) old.now) }
    ensures within { IfOk result (λ changes. All (λ change. change.0 < length old.now) changes.items) }
{
    let mut changes = Vec::new(alloc);
    for node in nodes {
        if differs_at(*node, old, new) {
            changes.push((*node, new[*node as usize]))?;
        }
    }
    Ok(changes)
}
