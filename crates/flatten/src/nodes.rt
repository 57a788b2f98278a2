//! Nodes out of full names in order.
ghost use Rattle.std.specs.Prelude.{◌≡◌, ◌<◌, ◌∷◌, [], IfOk, OnOk};
ghost use Rattle.ext_model.specs.RecordNames.{names_of};
ghost use Rattle.name_classes.specs.FullNames.Names.{AreNames};
ghost use Rattle.flatten.specs.steps.Spots.{AreLabelsOf, AreNamedOf};
ghost use Rattle.flatten.specs.steps.Named.{HasText, IsPlacedAt, HasAlias, ArePlaced};

use element_tree::ElementTree;
use ext_model::{CellExt, NodeRec};
use geo_core::Square;
use name_classes::full_names::FullNames;
use names_lists::{List, Name};
use std::alloc::{AllocError, Global};
use std::mem;

// the full name of this number; the text is scratch space
fn name_at(
    alloc: Global,
    names: &FullNames<'_>,
    number: usize,
    text: &mut Vec<u8>,
) -> Result<Name, AllocError>
    requires names { AreNames names.now }
    requires number { number < names.now.count }
    ensures { IfOk result (λ name. HasText names.now number name) }
{
    text.clear();
    names.append(number, text)?;
    Name::of(alloc, text.as_slice())
}

// a node whose preferred name is the full name of this number, and which has nothing yet
fn placed_node(
    alloc: Global,
    exts: &[CellExt],
    tree: &ElementTree,
    names: &FullNames<'_>,
    number: usize,
    name: Name,
) -> Result<NodeRec, AllocError>
    requires names { AreNames names.now }
    requires exts { exts.now ≡ names.now.exts.now }
    requires tree { tree.now ≡ names.now.tree.now }
    requires number { number < names.now.count }
    requires name { HasText names.now number name }
    ensures name { IfOk result (λ node. names_of node ≡ name ∷ []) }
    ensures place { IfOk result (λ node. IsPlacedAt names.now number node) }
{
    let origin = names.origin(number);
    let element = tree.elements.items()[origin.element];
    let node = &exts[element.cell].nodes.items()[origin.node];
    let place = element.to_root.square(Square {
        x: node.x,
        y: node.y,
    });
    Ok(NodeRec {
        name,
        aliases: List::of(Vec::new(alloc)),
        cap: 0,
        x: place.x,
        y: place.y,
        kind: node.kind.copy(alloc)?,
        measures: List::of(Vec::new(alloc)),
    })
}

// one more name of the node
fn add_alias(alloc: Global, node: &mut NodeRec, name: Name) -> Result<(), AllocError>
    ensures { OnOk result (HasAlias node.old name node.new) }
{
    let aliases = mem::replace(&mut node.aliases, List::of(Vec::new(alloc)));
    let mut aliases = aliases.into_vec();
    aliases.push(name)?;
    node.aliases = List::of(aliases);
    Ok(())
}

/// The nodes of all full names in the order of their labels, each with its names, its place and nothing else yet. It takes time for each
/// byte of a name. Want of memory alone refuses.
pub fn named_nodes(
    alloc: Global,
    exts: &[CellExt],
    tree: &ElementTree,
    names: &FullNames<'_>,
    labels: &[usize],
    count: usize,
) -> Result<Vec<NodeRec>, AllocError>
    requires names { AreNames names.now }
    requires exts { exts.now ≡ names.now.exts.now }
    requires tree { tree.now ≡ names.now.tree.now }
    requires labels { AreLabelsOf names.now labels.now count }
    ensures named { IfOk result (λ nodes. AreNamedOf names.now labels.now count nodes.items) }
    ensures placed { IfOk result (λ nodes. ArePlaced names.now nodes.items) }
{
    let mut nodes: Vec<NodeRec> = Vec::with_capacity(alloc, count)?;
    let mut text = Vec::new(alloc);
    for (number, label) in labels.iter().enumerate() {
        let name = name_at(alloc, names, number, &mut text)?;
        if *label < nodes.len() {
            add_alias(alloc, &mut nodes[*label], name)?;
        } else {
            nodes.push(placed_node(alloc, exts, tree, names, number, name)?)?;
        }
    }
    Ok(nodes)
}
