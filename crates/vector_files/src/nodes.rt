//! The nodes of a network, found by their names.
ghost use Rattle.std.specs.Prelude.{◌≡◌, ◌∷◌, ◌++◌, [], ℕ, List, IfOk, OnOk};
ghost use Rattle.std.specs.List.{zip};
ghost use Rattle.switch_net.specs.Names.{NameOneNodeEach};
ghost use Rattle.vector_files.specs.LineForms.{node_named, is_rail};
ghost use Rattle.vector_files.specs.NodeLookup.{is_node, IsIndexOf, IsLikeNamed};

use name_index::NameIndex;
use names_lists::Name;
use std::alloc::{AllocError, Global};
use std::marker::Model;

/// The names of a network's nodes, each once, with its node. Contracts see them as a list of such pairs. A name is found in a constant
/// number of steps on an average, and a node is known as power or ground at once.
#[derive(Drop)]
pub struct NodeNames {
    names: NameIndex,
    nodes: Vec<u32>,
    power: Option<u32>,
    ground: Option<u32>,
}

impl Model for NodeNames {
    ghost use Rattle.std.specs.Prelude.{◌≡◌, ℕ, List};
    ghost use Rattle.std.specs.List.{zip};
    ghost use Rattle.vector_files.specs.LineForms.{is_rail};
    ghost use Rattle.vector_files.specs.NodeLookup.{is_either_node};

    ghost Value = { List (List ℕ × ℕ) };

    ghost view = { λ known. zip known.names known.nodes.items };

    ghost invariant = { λ known. (v : ℕ) → is_rail (zip known.names known.nodes.items) v ≡ is_either_node known.power known.ground v };
}

fn is_node(found: Option<u32>, node: u32) -> bool
    ensures { result ≡ is_node found node }
{
    match found {
        Some(other) => other == node,
        None => false,
    }
}

// The node at the place of a name.
fn node_at(names: &NameIndex, nodes: &[u32], name: &[u8]) -> Option<u32>
    ensures { result ≡ node_named (zip names.now nodes.now) name.now }
{
    match names.find(name) {
        Some(place) => nodes.get(place).copied(),
        None => None,
    }
}

// Adds a name with its node, where the name is not there yet.
fn add_node(
    names: &mut NameIndex,
    nodes: &mut Vec<u32>,
    name: &[u8],
    node: u32,
) -> Result<(), AllocError>
    ensures { OnOk result ((named : List (List ℕ × ℕ)) → IsIndexOf names.old nodes.old.items named
        → IsIndexOf names.new nodes.new.items (named ++ (name.now, node) ∷ [])) }
{
    if names.insert(name)? {
        nodes.push(node)?;
    }
    Ok(())
}

// The names of these pairs, each once, and their nodes.
fn each_name_once(alloc: Global, named: &[(Name, u32)]) -> Result<(NameIndex, Vec<u32>), AllocError>
    ensures { IfOk result (λ index. IsIndexOf index.0 index.1.items named.now) }
{
    let mut names = NameIndex::new(alloc);
    let mut nodes = Vec::new(alloc);
    for (name, node) in named {
        add_node(&mut names, &mut nodes, name.bytes(), *node)?;
    }
    Ok((names, nodes))
}

impl NodeNames {
    /// The names of these pairs, no two of which give a name two nodes. It takes time linear in them on an average.
    pub fn of(alloc: Global, named: &[(Name, u32)]) -> Result<NodeNames, AllocError>
        requires { NameOneNodeEach named.now }
        ensures { IfOk result (λ known. IsLikeNamed known named.now) }
    {
        let (names, nodes) = each_name_once(alloc, named)?;
        let power = node_at(&names, &nodes, b"Vdd!");
        let ground = node_at(&names, &nodes, b"GND!");
        Ok(NodeNames {
            names,
            nodes,
            power,
            ground,
        })
    }

    /// The node of a name.
    pub fn find(&self, name: &[u8]) -> Option<u32>
        ensures { result ≡ node_named self.now name.now }
    {
        node_at(&self.names, &self.nodes, name)
    }

    /// Whether the node is power or ground.
    pub fn is_rail(&self, node: u32) -> bool
        ensures { result ≡ is_rail self.now node }
    {
        is_node(self.power, node) || is_node(self.ground, node)
    }
}
