//! Full names in classes.
ghost use Rattle.std.specs.Prelude.{◌≡◌, ◌⊎◌, IfOk, IfErr};
ghost use Rattle.full_names.specs.Names.{AreNames};
ghost use Rattle.name_classes.specs.Classes.{AreClasses, HasNoPathFault, IsPathFaultOf};
ghost use Rattle.name_classes.specs.steps.Links.{AreAllLinks};

use crate::joining::joined;
use crate::links::{RecordLinks, all_firsts, all_links};
use crate::paths::Resolver;
use circuit_model::FlatFault;
use ext_model::CellExt;
use full_names::element_tree::ElementTree;
use full_names::{FullNames, Spot};
use names_lists::List;
use partition::Labelling;
use std::alloc::Global;

/// Where a path of a merge leads from an element of its cell.
#[derive(Clone, Copy, Debug, PartialEq, Eq)]
pub struct MergeEnd {
    /// How far the number of the element that it leads to is above that of the element it starts from.
    pub step: usize,
    /// Which name it has there.
    pub spot: Spot,
}

/// The classes of the full names of a tree: each is the names of one node.
#[derive(Debug, Drop)]
pub struct NameClasses {
    /// At the number of each full name, the number of its node; nodes are numbered by their least names.
    pub labels: List<usize>,
    /// How many nodes there are.
    pub count: usize,
    /// For each record, where the first path of each of its merges leads.
    pub firsts: List<List<MergeEnd>>,
}

// The links of the records of the elements. The tables by which paths are taken are let go.
fn tree_links(
    alloc: Global,
    exts: &[CellExt],
    tree: &ElementTree,
    names: &FullNames<'_>,
) -> Result<Vec<RecordLinks>, FlatFault>
    requires names { AreNames names.now }
    requires exts { exts.now ≡ names.now.exts.now }
    requires tree { tree.now ≡ names.now.tree.now }
    ensures ok { IfOk result (λ all. AreAllLinks names.now all.items) }
    ensures err { IfErr result (λ fault. (fault ≡ FlatFault.Memory) ⊎ IsPathFaultOf names.now fault) }
{
    let resolver = Resolver::new(alloc, exts, tree, names)?;
    all_links(alloc, &resolver)
}

/// The classes of the full names of a tree, whose records and elements are those of the names. It takes time near-linear in the uses of
/// the records and the names and merges of all elements.
///
/// The first path, by element and merge and the first of a merge before the second, that leads to no node is told as `NoPath` with its
/// record's cell and the path; beside that `Memory` alone refuses.
pub fn name_classes(
    alloc: Global,
    exts: &[CellExt],
    tree: &ElementTree,
    names: &FullNames<'_>,
) -> Result<NameClasses, FlatFault>
    requires names { AreNames names.now }
    requires exts { exts.now ≡ names.now.exts.now }
    requires tree { tree.now ≡ names.now.tree.now }
    ensures sound { IfOk result (λ classes. HasNoPathFault names.now) }
    ensures classes { IfOk result (λ classes. AreClasses names.now classes) }
    ensures fault { IfErr result (λ fault. (fault ≡ FlatFault.Memory) ⊎ IsPathFaultOf names.now fault) }
{
    let all = tree_links(alloc, exts, tree, names)?;
    let Labelling { labels, count } = joined(alloc, names, tree.elements.items(), all.as_slice())?;
    Ok(NameClasses {
        labels: List::of(labels),
        count,
        firsts: all_firsts(alloc, all.as_slice())?,
    })
}
