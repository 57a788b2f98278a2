//! Pieces that offend for what stands in them.
ghost use Rattle.std.specs.Prelude.{◌≡◌, IfOk};
ghost use Rattle.std.specs.List.{list_any};
ghost use Rattle.offences.specs.steps.Pieces.{is_hidden, is_shared, is_lost, is_spoiled, spoiled_areas};

use crate::stacks::{PartKind, TypedStack};
use geo_core::Rect;
use std::alloc::{AllocError, Global};
use tech_model::{RawTech, Tech, TypeId};

/// Whether some part has a type that is not within the flat type.
fn hides_part(tech: &Tech, flat: TypeId, kinds: &[PartKind]) -> bool
    ensures { result ≡ list_any (is_hidden tech.now flat.0) kinds.now }
{
    kinds.iter().any(|entry| !tech.within(entry.kind, flat))
}

/// Whether the flat type is a channel's and not exactly one part has it.
fn shares_channel(raw: &RawTech, flat: TypeId, kinds: &[PartKind]) -> bool
    ensures { result ≡ is_shared raw.now flat.0 kinds.now }
{
    raw.is_channel(flat) && kinds.iter().filter(|entry| entry.kind.0 == flat.0).count() != 1
}

/// Whether some part has a channel's type that is not the flat type.
fn loses_channel(raw: &RawTech, flat: TypeId, kinds: &[PartKind]) -> bool
    ensures { result ≡ list_any (is_lost raw.now flat.0) kinds.now }
{
    kinds.iter().any(|entry| raw.is_channel(entry.kind) && entry.kind.0 != flat.0)
}

/// Whether each square of the piece offends, whatever stands beside it.
fn is_spoiled(tech: &Tech, typed_stack: &TypedStack) -> bool
    ensures { result ≡ is_spoiled tech.now typed_stack.now }
{
    let kinds = typed_stack.kinds.items();
    match typed_stack.flat {
        None => true,
        Some(flat) => {
            hides_part(tech, flat, kinds)
                || shares_channel(tech.raw(), flat, kinds)
                || loses_channel(tech.raw(), flat, kinds)
        }
    }
}

/// The areas of the pieces that offend whole, whatever stands beside them.
pub fn spoiled_areas(
    alloc: Global,
    tech: &Tech,
    typed_stacks: &[TypedStack],
) -> Result<Vec<Rect>, AllocError>
    ensures { IfOk result (λ areas. areas.items ≡ spoiled_areas tech.now typed_stacks.now) }
{
    typed_stacks
        .iter()
        .filter(|typed_stack| is_spoiled(tech, typed_stack))
        .map(|typed_stack| typed_stack.area)
        .collect(alloc)
}
