//! Sets of nodes.

ghost use Rattle.std.specs.Prelude.{◌≡◌, ◌<◌, ◌≤◌, ◌+◌, ◌⊎◌, ◌↔◌, ℕ, IfOk, IsTrue, false, length, take};
ghost use Rattle.std.specs.Prelude.{slice_index, slice_index_or};
ghost use Rattle.std.proofs.Props.{props};
ghost use Rattle.switch_net.specs.Sets.{IsInside, AreListed};

use names_lists::List;
use std::alloc::{AllocError, Global};

/// A set of the nodes of a network: whether each node is in it, and the list of those that are, in
/// the order in which they were added, with their count. The list has room for every node.
#[derive(Debug, Drop)]
pub struct NodeSet {
    pub inside: List<bool>,
    pub order: List<u32>,
    pub count: usize,
    pub ghost listed: { AreListed inside order count } by { Prim.hlevel props },
}

impl NodeSet {
    /// The empty set, for so many nodes.
    pub fn build(alloc: Global, nodes: usize) -> Result<NodeSet, AllocError>
        ensures fits { IfOk result (λ set. length set.inside ≡ nodes) }
        ensures empty { IfOk result (λ set. set.count ≡ 0) }
    {
        Ok(NodeSet {
            inside: List::of(vec![in alloc; false; nodes]?),
            order: List::of(vec![in alloc; 0; nodes]?),
            count: 0,
        })
    }

    /// Whether a node is in the set.
    #[inline(always)]
    pub fn has(&self, node: u32) -> bool
        requires { node < length self.now.inside }
        ensures { IsTrue result ↔ IsInside self.now.inside node }
    {
        self.inside.items()[node as usize]
    }

    /// The nodes of the set, in the order in which they were added.
    #[inline(always)]
    pub fn nodes(&self) -> &[u32]
        ensures { result.now ≡ take self.now.count self.now.order }
    {
        &self.order.items()[..self.count]
    }

    /// Adds a node, behind the others, where it is not in the set.
    #[inline(always)]
    pub fn add(&mut self, node: u32)
        requires { node < length self.old.inside }
        ensures fits { length self.new.inside ≡ length self.old.inside }
        ensures here { IsInside self.new.inside node }
        ensures grown { (v : ℕ) → IsInside self.old.inside v → IsInside self.new.inside v }
        ensures others { (v : ℕ) → IsInside self.new.inside v
            → IsInside self.old.inside v ⊎ (v ≡ node) }
        ensures order { (i : ℕ) → i < self.old.count
            → slice_index self.new.order i ≡ slice_index self.old.order i }
        ensures more { self.old.count ≤ self.new.count }
        ensures few { self.new.count ≤ self.old.count + 1 }
    {
        if !self.inside.items()[node as usize] {
            self.inside.items_mut()[node as usize] = true;
            self.order.items_mut()[self.count] = node;
            self.count += 1;
        }
    }

    /// Takes off the node that was added last.
    #[inline(always)]
    pub fn take_last(&mut self) -> u32
        requires { 0 < self.old.count }
        ensures fits { length self.new.inside ≡ length self.old.inside }
        ensures was { IsInside self.old.inside result }
        ensures gone { slice_index_or self.new.inside result false ≡ false }
        ensures left { (v : ℕ) → IsInside self.new.inside v → IsInside self.old.inside v }
        ensures kept { (v : ℕ) → IsInside self.old.inside v
            → (v ≡ result) ⊎ IsInside self.new.inside v }
        ensures count { self.new.count + 1 ≡ self.old.count }
    {
        self.count -= 1;
        let node = self.order.items()[self.count];
        self.inside.items_mut()[node as usize] = false;
        node
    }

    /// Takes all nodes off. It takes as long as these are many.
    pub fn clear(&mut self)
        ensures fits { length self.new.inside ≡ length self.old.inside }
        ensures empty { self.new.count ≡ 0 }
    {
        while self.count > 0 {
            self.take_last();
        }
    }
}
