//! Labels of tiles: those of one edge-connected set of one type have one.
ghost use Rattle.std.specs.Prelude.{◌≡◌, ◌<◌, length, vec_len, All, IfOk};
ghost use Rattle.partition.specs.Divides.{Divides, IsPair};
ghost use Rattle.fet_regions.specs.steps.Channels.{alike_pairs};

use layout_model::RegionTile;
use partition::{Labelling, classes};
use rect_contacts::Contact;
use std::alloc::{AllocError, Global};

/// The places of the tiles of each contact between two tiles of one type.
fn alike_pairs(
    alloc: Global,
    tiles: &[RegionTile],
    contacts: &[Contact],
) -> Result<Vec<(usize, usize)>, AllocError>
    requires { All (λ contact. (contact.first < length tiles.now) × (contact.second < length tiles.now)) contacts.now }
    ensures { IfOk result (λ pairs. pairs.items ≡ alike_pairs tiles.now contacts.now) }
{
    let mut pairs = Vec::new(alloc);
    for contact in contacts {
        if tiles[contact.first].kind == tiles[contact.second].kind {
            pairs.push((contact.first, contact.second))?;
        }
    }
    Ok(pairs)
}

/// The labels of the tiles when those of each contact between tiles of one type are in one class.
pub fn label_alike(
    alloc: Global,
    tiles: &[RegionTile],
    contacts: &[Contact],
) -> Result<Labelling, AllocError>
    requires { All (λ contact. (contact.first < length tiles.now) × (contact.second < length tiles.now)) contacts.now }
    ensures len { IfOk result (λ made. vec_len made.labels ≡ length tiles.now) }
    ensures divides { IfOk result (λ made. Divides made.labels.items (IsPair (alike_pairs tiles.now contacts.now))) }
    ensures below { IfOk result (λ made. All (λ label. label < made.count) made.labels.items) }
{
    let pairs = alike_pairs(alloc, tiles, contacts)?;
    classes(alloc, tiles.len(), pairs.as_slice())
}
