//! The strips of each layer of a text.
ghost use Rattle.std.specs.Prelude.{◌≡◌, ℕ, length, map, slice_get, Some, IfOk, MatchResult};
ghost use Rattle.geo_core.specs.Strips.{IsInUnion, IsStrips};
ghost use Rattle.cif_expansion.specs.declared.expansion.LayerStrips.{LayerStrips as OneLayer};
ghost use Rattle.cif_expansion.specs.steps.Drawings.{list_at};
ghost use Rattle.cif_expansion.specs.Expansions.{IsExpanded, IsRefused};

use crate::drawing::boxes_of;
use crate::faults::ExpansionFault;
use crate::sizes::limit_of;
use cif_model::Cif;
use geo_core::Rect;
use geo_strips::strips;
use names_lists::{List, Name};
use std::alloc::{AllocError, Global};
use std::mem;

/// A layer of a text, and the strips of the squares that the text gives to it.
#[derive(Debug, Drop)]
pub struct LayerStrips {
    pub name: Name,
    pub strips: List<Rect>,
}

// The strips of the boxes of each layer. The boxes of a layer are freed before the next.
fn strips_of_layers(
    alloc: Global,
    names: &[Name],
    mut boxes: Vec<List<Rect>>,
) -> Result<Vec<LayerStrips>, AllocError>
    requires { length boxes.items ≡ length names.now }
    ensures names { IfOk result (λ layers. map (λ layer. layer.name) layers.items ≡ names.now) }
    ensures strips { IfOk result (λ layers. (place : ℕ) (layer : OneLayer) → slice_get layers.items place ≡ Some layer
        → IsStrips (IsInUnion (list_at boxes.items place)) layer.strips) }
{
    let mut layers = Vec::with_capacity(alloc, names.len())?;
    for (place, name) in names.iter().enumerate() {
        let own = mem::replace(&mut boxes[place], List::of(Vec::new(alloc)));
        layers.push(layer_of(alloc, name, &own)?)?;
    }
    Ok(layers)
}

// A layer of this name, and the strips of its boxes.
fn layer_of(alloc: Global, name: &Name, boxes: &List<Rect>) -> Result<LayerStrips, AllocError>
    ensures name { IfOk result (λ layer. layer.name ≡ name.now) }
    ensures strips { IfOk result (λ layer. IsStrips (IsInUnion boxes.now) layer.strips) }
{
    Ok(LayerStrips {
        name: name.copy(alloc)?,
        strips: List::of(strips(alloc, boxes.items())?),
    })
}

/// Expands a text: the strips of each of its layers, in the order of the layers. A layer none of whose boxes is reached has no strips.
///
/// # Errors
///
/// `TooMany` where the text is past a limit: only what the top level reaches counts. `OutOfRange` where it is past none, and a box of some
/// instance has a coordinate that is more than `PAINT_EDGE` in absolute value. Else only want of memory.
pub fn expand(alloc: Global, cif: &Cif) -> Result<Vec<LayerStrips>, ExpansionFault>
    ensures { MatchResult result (λ layers. IsExpanded cif.now layers.items) (IsRefused cif.now) }
{
    if let Some(limit) = limit_of(alloc, cif)? {
        return Err(ExpansionFault::TooMany(limit));
    }
    let boxes = boxes_of(alloc, cif)?;
    Ok(strips_of_layers(alloc, cif.layers(), boxes)?)
}
