//! Where the paths of records lead.
ghost use Rattle.std.specs.Prelude.{◌≡◌, ◌<◌, ◌==◌, length, position, IfOk, IfSome, IfNone};
ghost use Rattle.ext_model.specs.NodeNames.{slashes_in};
ghost use Rattle.full_names.specs.Names.{AreNames, IsReached};
ghost use Rattle.name_classes.specs.steps.Paths.{IsSplit, IsResolver, IsNameOf, IsBranchOf, LacksUse, IsEndFrom, LeadsNowhere};

use crate::classes::MergeEnd;
use crate::tables::{UseTable, use_tables};
use ext_model::{CellExt, SLASH};
use full_names::FullNames;
use full_names::element_tree::{Branch, ElementTree};
use std::alloc::{AllocError, Global};

/// A tree of records with its full names, and tables by which paths are taken down the tree.
#[derive(Drop)]
pub struct Resolver<'a> {
    pub exts: &'a [CellExt],
    pub tree: &'a ElementTree,
    pub names: &'a FullNames<'a>,
    tables: Vec<UseTable<'a>>,
}

// where the first slash of a path stands
fn first_slash(path: &[u8]) -> Option<usize>
    ensures { result ≡ position (λ byte. byte == SLASH) path.now }
{
    path.iter().position(|byte| *byte == SLASH)
}

// The first name of a path and what stands behind its slash, where it has one.
fn split_path(path: &[u8]) -> Option<(&[u8], &[u8])>
    ensures some { IfSome result (λ parts. IsSplit path.now parts.0.now parts.1.now) }
    ensures none { IfNone result (slashes_in path.now ≡ 0) }
{
    match first_slash(path) {
        Some(at) => Some((&path[..at], &path[at + 1..])),
        None => None,
    }
}

impl<'a> Resolver<'a> {
    /// Paths of these records. It takes time near-linear in the uses of all records.
    pub fn new(
        alloc: Global,
        exts: &'a [CellExt],
        tree: &'a ElementTree,
        names: &'a FullNames<'a>,
    ) -> Result<Resolver<'a>, AllocError>
        requires names { AreNames names.now }
        requires exts { exts.now ≡ names.now.exts.now }
        requires tree { tree.now ≡ names.now.tree.now }
        ensures resolver { IfOk result IsResolver }
        ensures names { IfOk result (λ resolver. resolver.names.now ≡ names.now) }
    {
        let tables = use_tables(alloc, exts)?;
        Ok(Resolver {
            exts,
            tree,
            names,
            tables,
        })
    }

    // The branch along the use of a record whose element has this name.
    fn branch(&self, cell: usize, id: &'a [u8]) -> Option<Branch>
        requires resolver { IsResolver self.now }
        requires reached { IsReached self.now.names.now cell }
        ensures some { IfSome result (IsBranchOf self.now.names.now cell id.now) }
        ensures none { IfNone result (LacksUse self.now.names.now cell id.now) }
    {
        let number = self.tables[cell].find(id)?;
        Some(self.tree.branches.items()[cell].items()[number])
    }

    /// Where a path leads from the record of the element with this number: `None` where it leads to no node.
    pub fn end_of(&self, number: usize, path: &'a [u8]) -> Option<MergeEnd>
        requires resolver { IsResolver self.now }
        requires within { number < length self.now.tree.now.elements }
        ensures some { IfSome result (IsEndFrom self.now.names.now number path.now) }
        ensures none { IfNone result (LeadsNowhere self.now.names.now number path.now) }
    {
        let elements = self.tree.elements.items();
        let mut at = number;
        let mut rest = path;
        while let Some((id, behind)) = split_path(rest) {
            at += self.branch(elements[at].cell, id)?.step;
            rest = behind;
        }
        let spot = self.names.spot(elements[at].cell, rest)?;
        Some(MergeEnd {
            step: at - number,
            spot,
        })
    }

    /// The name of a node of the record of the element with this number.
    pub fn end_here(&self, number: usize, name: &[u8]) -> MergeEnd
        requires resolver { IsResolver self.now }
        requires named { IsNameOf self.now.names.now number name.now }
        ensures { IsEndFrom self.now.names.now number name.now result }
    {
        match self
            .names
            .spot(self.tree.elements.items()[number].cell, name)
        {
            Some(spot) => MergeEnd { step: 0, spot },
            None => unreachable!(),
        }
    }
}
