//! The nodes of a cell's own paint with their names.
ghost use Rattle.std.specs.Prelude.{◌≡◌, ◌<◌, ℕ, All, IfOk, IsTrue, length, IfSome, Vec as OneVec};
ghost use Rattle.tech_model.specs.Types.{connects, is_type};
ghost use Rattle.layout_model.specs.Layouts.{Layout as OneLayout};
ghost use Rattle.layout_model.specs.RegionTiles.{AreRegions};
ghost use Rattle.names.specs.Attachments.{AreUnattached, AreTextsOf};
ghost use Rattle.names.specs.steps.CountedLabels.{AreCountedOn};
ghost use Rattle.names.specs.steps.FirstTiles.{class_of};
ghost use Rattle.names.specs.steps.Groups.{AreGroups, AreNodesOf, AreNodesOn, IsNodeOn, key_at};
ghost use Rattle.names.specs.Labels.{IsLabelOf};
ghost use Rattle.names.specs.NamedNodes.{AreNamedNodes};

use crate::attaching::{attachments, lists_fit};
use crate::blocks::{blocks, by_kind};
use crate::counting::{Counted, count_labels};
use crate::first_tiles::first_tiles;
use crate::groups::{label_groups, region_groups};
use crate::naming::node_names;
use flood_nodes::Regions;
use geo_core::Square;
use layout_model::RegionTile;
use names_lists::{List, Name};
use partition::{Labelling, classes};
use std::alloc::{AllocError, Global};
use tech_model::{Label, Tech, TypeId};

/// A node: its regions, in order, its names in name order, the first of which it goes by, and its least place in the order
/// of planes, rows and columns, with the type there.
#[derive(Debug, Drop)]
pub struct NamedNode {
    pub regions: List<usize>,
    pub names: List<Name>,
    pub plane: u8,
    pub least: Square,
    pub kind: TypeId,
}

/// The nodes by their least places, and the texts of the labels that name none of them, in the order of the labels.
#[derive(Debug, Drop)]
pub struct Named {
    pub nodes: List<NamedNode>,
    pub unattached: List<Name>,
}

/// Which labels name regions of the tiles, and which regions global names join.
fn counted_on(
    alloc: Global,
    tech: &Tech,
    tiles: &[RegionTile],
    labels: &[Label],
) -> Result<Counted, AllocError>
    requires { All (IsLabelOf tech.now) labels.now }
    ensures { IfOk result (AreCountedOn tech.now tiles.now labels.now) }
{
    let sorted = by_kind(alloc, tiles)?;
    let blocks = blocks(alloc, sorted.as_slice())?;
    let found = attachments(alloc, tech, labels, sorted.as_slice(), blocks.as_slice())?;
    count_labels(alloc, labels, found.as_slice())
}

/// The texts of the labels that name no region.
fn unattached(
    alloc: Global,
    labels: &[Label],
    named: &[Option<usize>],
) -> Result<Vec<Name>, AllocError>
    requires { length named.now ≡ length labels.now }
    ensures { IfOk result (λ texts. AreTextsOf labels.now (λ index. (index < length labels.now) × (key_at named.now index ≡ None)) texts.items) }
{
    let mut texts = Vec::new(alloc);
    for (index, label) in labels.iter().enumerate() {
        if named[index].is_none() {
            texts.push(label.text.copy(alloc)?)?;
        }
    }
    Ok(texts)
}

/// The node with this first tile and these regions, which the labels at the indices name.
fn node_on(
    alloc: Global,
    tech: &Tech,
    labels: &[Label],
    tile: &RegionTile,
    regions: &[usize],
    indices: &[usize],
) -> Result<NamedNode, AllocError>
    requires kind { IsTrue (is_type tech.now tile.now.kind.0) }
    requires within { All (λ index. index < length labels.now) indices.now }
    ensures { IfOk result (λ node. IsNodeOn tech.now labels.now tile.now regions.now indices.now node) }
{
    let names = node_names(alloc, tech, labels, tile, indices)?;
    let regions = Vec::from_slice(alloc, regions)?;
    Ok(NamedNode {
        regions: List::of(regions),
        names: List::of(names),
        plane: tile.plane,
        least: tile.area.corner(),
        kind: tile.kind,
    })
}

/// A node for each first tile, with the regions and the labels of its class.
fn nodes_on(
    alloc: Global,
    tech: &Tech,
    labels: &[Label],
    firsts: &[RegionTile],
    classes: &[usize],
    regions: &[Vec<usize>],
    indices: &[Vec<usize>],
) -> Result<Vec<NamedNode>, AllocError>
    requires kinds { All (λ tile. IsTrue (is_type tech.now tile.kind.0)) firsts.now }
    requires region_in { All (λ tile. tile.region < length classes.now) firsts.now }
    requires class_in { All (λ class. class < length regions.now) classes.now }
    requires so_many { length indices.now ≡ length regions.now }
    requires within { All (λ group. All (λ index. index < length labels.now) group.items) indices.now }
    ensures { IfOk result (λ nodes. AreNodesOn tech.now labels.now firsts.now classes.now regions.now indices.now nodes.items) }
{
    let mut nodes = Vec::with_capacity(alloc, firsts.len())?;
    for tile in firsts {
        let class = classes[tile.region];
        let regions = regions[class].as_slice();
        let indices = indices[class].as_slice();
        nodes.push(node_on(alloc, tech, labels, tile, regions, indices)?)?;
    }
    Ok(nodes)
}

/// The nodes of the classes of regions that labels name.
fn nodes_of(
    alloc: Global,
    tech: &Tech,
    labels: &[Label],
    firsts: &[RegionTile],
    labelling: &Labelling,
    named: &[Option<usize>],
) -> Result<Vec<NamedNode>, AllocError>
    requires kinds { All (λ tile. IsTrue (is_type tech.now tile.kind.0)) firsts.now }
    requires region_in { All (λ tile. tile.region < length labelling.now.labels.items) firsts.now }
    requires class_in { All (λ class. class < labelling.now.count) labelling.now.labels.items }
    requires named_in { All (λ region. IfSome region (λ r. r < length labelling.now.labels.items)) named.now }
    requires so_many { length named.now ≡ length labels.now }
    ensures { IfOk result (λ nodes. AreNodesOf tech.now labels.now labelling.now.labels.items named.now firsts.now nodes.items) }
{
    let classes = labelling.labels.as_slice();
    let regions = region_groups(alloc, classes, labelling.count)?;
    let indices = label_groups(alloc, classes, named, labelling.count)?;
    nodes_on(
        alloc,
        tech,
        labels,
        firsts,
        classes,
        regions.as_slice(),
        indices.as_slice(),
    )
}

/// The nodes of a cell's own paint and their names: regions that labels of one global name attach to are one node.
///
/// A label attaches to the least place that it touches whose type its layer's image is within, if its text has the form of a
/// name. Of several labels with one text that isn't global the first that attaches counts, and the others, like those that
/// attach nowhere, are left over. A node without a label has a name made of its type and its least place.
///
/// The types of the tiles are the technology's, and so are the labels' layers; the bounds of the labels are below 2^28 in
/// absolute value. Want of memory alone refuses. It takes time for sorts of the tiles and of the names, and for each label a
/// search in a tree of rectangles.
pub fn name_nodes(
    alloc: Global,
    tech: &Tech,
    regions: &Regions,
    labels: &[Label],
) -> Result<Named, AllocError>
    requires kinds { All (λ tile. IsTrue (is_type tech.now tile.kind.0)) regions.now.tiles }
    requires labels { All (IsLabelOf tech.now) labels.now }
    ensures nodes { IfOk result (λ named. (layout : OneLayout) → AreRegions (connects tech.now) layout regions.now.tiles regions.now.count
        → AreNamedNodes tech.now layout labels.now regions.now.tiles named.nodes) }
    ensures unattached { IfOk result (λ named. (layout : OneLayout) → AreRegions (connects tech.now) layout regions.now.tiles regions.now.count
        → AreUnattached tech.now layout labels.now named.unattached) }
{
    lists_fit(tech);
    let tiles = regions.tiles.items();
    let counted = counted_on(alloc, tech, tiles, labels)?;
    let labelling = classes(alloc, regions.count, counted.pairs.as_slice())?;
    let firsts = first_tiles(alloc, tiles, labelling.labels.as_slice(), labelling.count)?;
    let nodes = nodes_of(
        alloc,
        tech,
        labels,
        firsts.as_slice(),
        &labelling,
        counted.named.as_slice(),
    )?;
    let unattached = unattached(alloc, labels, counted.named.as_slice())?;
    Ok(Named {
        nodes: List::of(nodes),
        unattached: List::of(unattached),
    })
}
