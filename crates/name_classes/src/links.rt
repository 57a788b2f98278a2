//! Which names the elements of a record make one node of.
ghost use Rattle.std.specs.Prelude.{◌≡◌, ◌⊎◌, ◌↔◌, ◌<◌, [], length, map, slice_set, true, IsTrue, IfOk, IfErr, IfSome, OnOk};
ghost use Rattle.partition.specs.FiniteSets.Lists.{In};
ghost use Rattle.ext_model.specs.declared.names.NameKind.TheVariants.{Global as GlobalKind};
ghost use Rattle.ext_model.specs.NodeNames.{name_kind};
ghost use Rattle.name_classes.specs.steps.Paths.{IsResolver, IsEndFrom};
ghost use Rattle.name_classes.specs.steps.Links.{HasRecord, AddsAlias, AddsNode, AreNodeLinks, AreMergeLinks, AreLinksOf, AreAllLinks, IsPathFault};
ghost use Rattle.name_classes.specs.steps.Links.{IsMergeFault, AreFirsts};
ghost use Rattle.name_classes.specs.Classes.{IsPathFaultOf};

use crate::classes::MergeEnd;
use crate::paths::Resolver;
use circuit_model::FlatFault;
use ext_model::{CellExt, NameKind, NodeRec, kind_of_name};
use names_lists::{List, Name};
use std::alloc::{AllocError, Global};

/// Two names at or below an element that are of one node.
#[derive(Clone, Copy)]
pub struct Link {
    pub first: MergeEnd,
    pub second: MergeEnd,
}

/// Links of the names of the nodes of a record.
#[derive(Drop)]
pub struct NodeLinks {
    /// Those that each element of the record has.
    pub each: Vec<Link>,
    /// Those between global names, which are the same in all of them.
    pub once: Vec<Link>,
}

/// What the elements of a record make one node of.
#[derive(Drop)]
pub struct RecordLinks {
    /// The number of the first element.
    pub element: usize,
    pub nodes: NodeLinks,
    pub merges: Vec<Link>,
}

// whether the name of a node is global
fn is_global(name: &[u8]) -> bool
    ensures { IsTrue result ↔ (name_kind name.now ≡ GlobalKind) }
{
    kind_of_name(name) == NameKind::Global
}

impl NodeLinks {
    // Links an alias with the preferred name of its node, by way of the first global name where both are global. It tells the first
    // global name from then on.
    fn add_alias(
        &mut self,
        preferred: MergeEnd,
        global: Option<MergeEnd>,
        alias: MergeEnd,
        is_global: bool,
    ) -> Result<Option<MergeEnd>, AllocError>
        ensures { IfOk result (AddsAlias preferred global alias is_global self.old self.new) }
    {
        match global {
            Some(first) if is_global => {
                self.once.push(Link {
                    first,
                    second: alias,
                })?;
                Ok(global)
            }
            _ => {
                self.each.push(Link {
                    first: preferred,
                    second: alias,
                })?;
                Ok(if is_global { Some(alias) } else { global })
            }
        }
    }

    // Links the names of a node of the record of the element with this number.
    fn add_node(
        &mut self,
        resolver: &Resolver<'_>,
        number: usize,
        ext: &CellExt,
        node: &NodeRec,
    ) -> Result<(), AllocError>
        requires resolver { IsResolver resolver.now }
        requires at { HasRecord resolver.now.names.now number ext.now }
        requires node { In node.now ext.now.nodes }
        ensures { OnOk result (AddsNode resolver.now.names.now number node.now node.now.aliases self.old self.new) }
    {
        let preferred = resolver.end_here(number, node.name.bytes());
        let mut global = is_global(node.name.bytes()).then_some(preferred);
        for alias in node.aliases.items() {
            let end = resolver.end_here(number, alias.bytes());
            global = self.add_alias(preferred, global, end, is_global(alias.bytes()))?;
        }
        Ok(())
    }
}

// the links of the names of the nodes of an element's record
fn node_links(
    alloc: Global,
    resolver: &Resolver<'_>,
    number: usize,
    ext: &CellExt,
) -> Result<NodeLinks, AllocError>
    requires resolver { IsResolver resolver.now }
    requires at { HasRecord resolver.now.names.now number ext.now }
    ensures { IfOk result (AreNodeLinks resolver.now.names.now number ext.now.nodes) }
{
    let mut links = NodeLinks {
        each: Vec::new(alloc),
        once: Vec::new(alloc),
    };
    for node in ext.nodes.items() {
        links.add_node(resolver, number, ext, node)?;
    }
    Ok(links)
}

// where a path of a merge of an element's record leads
fn merge_end<'a>(
    alloc: Global,
    resolver: &Resolver<'a>,
    number: usize,
    ext: &CellExt,
    path: &'a Name,
) -> Result<MergeEnd, FlatFault>
    requires resolver { IsResolver resolver.now }
    requires at { HasRecord resolver.now.names.now number ext.now }
    ensures ok { IfOk result (IsEndFrom resolver.now.names.now number path.now) }
    ensures err { IfErr result (λ fault. (fault ≡ FlatFault.Memory) ⊎ IsPathFault resolver.now.names.now number path.now fault) }
{
    match resolver.end_of(number, path.bytes()) {
        Some(end) => Ok(end),
        None => Err(FlatFault::NoPath(ext.cell.copy(alloc)?, path.copy(alloc)?)),
    }
}

// the links of the merges of an element's record
fn merge_links<'a>(
    alloc: Global,
    resolver: &Resolver<'a>,
    number: usize,
    ext: &'a CellExt,
) -> Result<Vec<Link>, FlatFault>
    requires resolver { IsResolver resolver.now }
    requires at { HasRecord resolver.now.names.now number ext.now }
    ensures ok { IfOk result (λ links. AreMergeLinks resolver.now.names.now number ext.now.merges links.items) }
    ensures err { IfErr result (λ fault. (fault ≡ FlatFault.Memory) ⊎ IsMergeFault resolver.now.names.now number fault) }
{
    let mut links = Vec::with_capacity(alloc, ext.merges.items().len())?;
    for merge in ext.merges.items() {
        links.push(Link {
            first: merge_end(alloc, resolver, number, ext, &merge.first)?,
            second: merge_end(alloc, resolver, number, ext, &merge.second)?,
        })?;
    }
    Ok(links)
}

// the links of the record of the element with this number
fn record_links(
    alloc: Global,
    resolver: &Resolver<'_>,
    number: usize,
) -> Result<RecordLinks, FlatFault>
    requires resolver { IsResolver resolver.now }
    requires within { number < length resolver.now.tree.now.elements }
    ensures element { IfOk result (λ links. links.element ≡ number) }
    ensures links { IfOk result (AreLinksOf resolver.now.names.now) }
    ensures err { IfErr result (λ fault. (fault ≡ FlatFault.Memory) ⊎ IsMergeFault resolver.now.names.now number fault) }
{
    let ext = &resolver.exts[resolver.tree.elements.items()[number].cell];
    Ok(RecordLinks {
        element: number,
        merges: merge_links(alloc, resolver, number, ext)?,
        nodes: node_links(alloc, resolver, number, ext)?,
    })
}

// so many records without links
fn no_links(alloc: Global, count: usize) -> Result<Vec<RecordLinks>, AllocError>
    ensures { IfOk result (λ all. length all.items ≡ count) }
{
    let mut all = Vec::with_capacity(alloc, count)?;
    for _ in 0..count {
        all.push(RecordLinks {
            element: 0,
            nodes: NodeLinks {
                each: Vec::new(alloc),
                once: Vec::new(alloc),
            },
            merges: Vec::new(alloc),
        })?;
    }
    Ok(all)
}

// puts the links of a record in their place
fn put_links(seen: &mut [bool], all: &mut [RecordLinks], cell: usize, links: RecordLinks)
    requires seen { cell < length seen.old }
    requires all { cell < length all.old }
    ensures seen { seen.new ≡ slice_set seen.old cell true }
    ensures all { all.new ≡ slice_set all.old cell links }
{
    seen[cell] = true;
    all[cell] = links;
}

/// The links of each record that is an element's, and none of the others.
pub fn all_links(alloc: Global, resolver: &Resolver<'_>) -> Result<Vec<RecordLinks>, FlatFault>
    requires { IsResolver resolver.now }
    ensures ok { IfOk result (λ all. AreAllLinks resolver.now.names.now all.items) }
    ensures err { IfErr result (λ fault. (fault ≡ FlatFault.Memory) ⊎ IsPathFaultOf resolver.now.names.now fault) }
{
    let mut seen = vec![in alloc; false; resolver.exts.len()]?;
    let mut all = no_links(alloc, resolver.exts.len())?;
    for (number, element) in resolver.tree.elements.items().iter().enumerate() {
        let cell = element.cell;
        if !seen[cell] {
            let links = record_links(alloc, resolver, number)?;
            put_links(&mut seen, &mut all, cell, links);
        }
    }
    Ok(all)
}

// where the first paths of the merges lead
fn firsts(alloc: Global, links: &[Link]) -> Result<Vec<MergeEnd>, AllocError>
    ensures { IfOk result (λ ends. ends.items ≡ map (λ link. link.first) links.now) }
{
    links.iter().map(|link| link.first).collect(alloc)
}

/// For each record, where the first path of each of its merges leads.
pub fn all_firsts(alloc: Global, all: &[RecordLinks]) -> Result<List<List<MergeEnd>>, AllocError>
    ensures { IfOk result (AreFirsts all.now) }
{
    let mut ends = Vec::with_capacity(alloc, all.len())?;
    for links in all {
        ends.push(List::of(firsts(alloc, links.merges.as_slice())?))?;
    }
    Ok(List::of(ends))
}
