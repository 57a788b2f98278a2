//! Where labels attach.
ghost use Rattle.std.specs.Prelude.{◌≡◌, ◌<◌, ◌≤◌, All, IfOk, true, length, if◌then◌else◌, take};
ghost use Rattle.geo_core.specs.FiniteSets.Lists.{In};
ghost use Rattle.geo_core.specs.Areas.{IsNear, IsSmall};
ghost use Rattle.geo_core.specs.Areas.{common_rect};
ghost use Rattle.tech_model.specs.WellFormed.{IsWellFormed};
ghost use Rattle.names.specs.Attachments.{touched_along, touched};
ghost use Rattle.names.specs.steps.Blocks.{AreBlocks, IsBlockBeaten};
ghost use Rattle.names.specs.Labels.{IsLayerOf, IsLabelOf};
ghost use Rattle.names.specs.steps.TakenLabels.{suits_kind, takes, attachment_on, stands_earlier, earlier, IsLeastTaken, IsAttachment, AreAttachments};

use crate::blocks::Block;
use crate::texts::is_naming_text;
use geo_core::{Rect, Square};
use layout_model::RegionTile;
use std::alloc::{AllocError, Global};
use tech_model::{Label, LayerId, Tech, TypeId};

/// Where a label attaches: its place, and the region there.
#[derive(Clone, Copy, Debug, PartialEq, Eq)]
pub struct Attachment {
    pub plane: u8,
    pub square: Square,
    pub region: usize,
}

impl Attachment {
    /// Whether its place comes before another's.
    fn stands_earlier(&self, other: &Attachment) -> bool
        ensures { result ≡ stands_earlier self.now other.now }
    {
        if self.plane == other.plane {
            if self.square.y == other.square.y {
                self.square.x < other.square.x
            } else {
                self.square.y < other.square.y
            }
        } else {
            self.plane < other.plane
        }
    }
}

/// From where on, and before where, a label with these bounds touches squares along an axis.
fn touched_along(lo: i64, hi: i64) -> (i64, i64)
    requires lo { IsSmall lo }
    requires hi { IsSmall hi }
    ensures { result ≡ touched_along lo hi }
{
    if lo == hi { (lo - 1, hi + 1) } else { (lo, hi) }
}

/// The squares that a label touches.
fn touched(area: &Rect) -> Rect
    requires { IsNear area.now }
    ensures { result ≡ touched area.now }
{
    let (xlo, xhi) = touched_along(area.xlo, area.xhi);
    let (ylo, yhi) = touched_along(area.ylo, area.yhi);
    Rect { xlo, ylo, xhi, yhi }
}

/// Whether the layer has an image on the plane that is within the type.
fn suits_kind(tech: &Tech, layer: Option<LayerId>, plane: u8, kind: TypeId) -> bool
    requires { IsLayerOf tech.now layer }
    ensures { result ≡ suits_kind tech.now layer plane kind.0 }
{
    match layer {
        None => false,
        Some(layer) => match tech.image(layer, plane) {
            None => false,
            Some(image) => tech.within(image, kind),
        },
    }
}

/// Where the label attaches on the tile, if it suits places there.
fn attachment_on(tech: &Tech, label: &Label, tile: &RegionTile) -> Option<Attachment>
    requires { IsLabelOf tech.now label.now }
    ensures { result ≡ (if takes tech.now label.now tile.now then Some (attachment_on label.now tile.now) else None) }
{
    let common = touched(&label.area).common(&tile.area);
    if suits_kind(tech, label.layer, tile.plane, tile.kind) && common.has_square() {
        Some(Attachment {
            plane: tile.plane,
            square: common.corner(),
            region: tile.region,
        })
    } else {
        None
    }
}

/// The earlier of two attachments, if there is one.
fn earlier(found: Option<Attachment>, other: Option<Attachment>) -> Option<Attachment>
    ensures { result ≡ earlier found other }
{
    match (found, other) {
        (None, _) => other,
        (Some(_), None) => found,
        (Some(first), Some(second)) => {
            if second.stands_earlier(&first) {
                other
            } else {
                found
            }
        }
    }
}

/// Whether the label takes no tile of the block at an earlier place than what was found.
fn is_beaten(tech: &Tech, label: &Label, block: &Block, found: Option<Attachment>) -> bool
    requires { IsLabelOf tech.now label.now }
    ensures { result ≡ true → IsBlockBeaten tech.now label.now block.now found }
{
    let common = touched(&label.area).common(&block.area);
    if !common.has_square() {
        return true;
    }
    if !block.uniform {
        return false;
    }
    if !suits_kind(tech, label.layer, block.plane, block.kind) {
        return true;
    }
    let first = Attachment {
        plane: block.plane,
        square: common.corner(),
        region: 0,
    };
    match found {
        None => false,
        Some(found) => !first.stands_earlier(&found),
    }
}

/// The least place of the tiles that the label suits.
fn least_taken(
    tech: &Tech,
    label: &Label,
    tiles: &[RegionTile],
    blocks: &[Block],
) -> Option<Attachment>
    requires label { IsLabelOf tech.now label.now }
    requires blocks { AreBlocks tiles.now blocks.now }
    ensures { IsLeastTaken tech.now label.now (λ tile. In tile tiles.now) result }
{
    let mut found = None;
    let mut at = 0;
    while at < tiles.len() {
        let block = blocks[at];
        if is_beaten(tech, label, &block, found) {
            at = block.end;
        } else {
            found = earlier(found, attachment_on(tech, label, &tiles[at]));
            at += 1;
        }
    }
    found
}

/// Where a label attaches, if its text names.
fn attachment_of(
    tech: &Tech,
    label: &Label,
    tiles: &[RegionTile],
    blocks: &[Block],
) -> Option<Attachment>
    requires label { IsLabelOf tech.now label.now }
    requires blocks { AreBlocks tiles.now blocks.now }
    ensures { IsAttachment tech.now tiles.now label.now result }
{
    if is_naming_text(label.text.bytes()) {
        least_taken(tech, label, tiles, blocks)
    } else {
        None
    }
}

/// The lists of a technology fit together: so each image that a layer has is a type. It does nothing.
pub fn lists_fit(tech: &Tech)
    ensures { IsWellFormed tech.now }
{
    let _ = tech.raw();
}

/// Where each of the labels attaches. For each label a search among the blocks.
pub fn attachments(
    alloc: Global,
    tech: &Tech,
    labels: &[Label],
    tiles: &[RegionTile],
    blocks: &[Block],
) -> Result<Vec<Option<Attachment>>, AllocError>
    requires labels { All (IsLabelOf tech.now) labels.now }
    requires blocks { AreBlocks tiles.now blocks.now }
    ensures { IfOk result (λ found. AreAttachments tech.now tiles.now labels.now found.items) }
{
    let mut found = Vec::with_capacity(alloc, labels.len())?;
    for label in labels {
        found.push(attachment_of(tech, label, tiles, blocks))?;
    }
    Ok(found)
}
