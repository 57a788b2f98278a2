//! What the entries of a list mean.
ghost use Rattle.std.specs.Prelude.{◌≡◌, ◌≢◌, fold, Ok, Err, IfOk, IfErr, OnOk};
ghost use Rattle.std.specs.List.{list_all, list_any};
ghost use Rattle.tech_model.specs.Types.{plane_of, images_of, is_on};
ghost use Rattle.tech_draft.specs.Lookups.{plane_named, named_types, first_on, entry_types, has_type, with_type_once};
ghost use Rattle.drc_rules.specs.declared.faults.DrcFault.TheVariants.{Memory as OutOfMemory};
ghost use Rattle.drc_rules.specs.RuleLines.{types_in, one_plane, unless_in_both};

use crate::entries::{each_entry, has_slash, parts_of_entry};
use crate::faults::DrcFault;
use names_lists::List;
use std::alloc::{AllocError, Global};
use tech_model::{LayerId, Tech, TypeId};

// Whether the type is one of these.
fn has_type(types: &[TypeId], kind: TypeId) -> bool
    ensures { result ≡ has_type types.now kind }
{
    types.iter().any(|other| other.0 == kind.0)
}

// Puts a type at the end, unless it is there.
fn push_once(types: &mut Vec<TypeId>, kind: TypeId) -> Result<(), AllocError>
    ensures { OnOk result (types.new.items ≡ with_type_once types.old.items kind) }
{
    if !has_type(types, kind) {
        types.push(kind)?;
    }
    Ok(())
}

// Puts each of these types at the end that is not there. A technology has at most `MOST_TYPES`, so each takes a bounded time.
fn push_each_once(types: &mut Vec<TypeId>, more: &[TypeId]) -> Result<(), AllocError>
    ensures { OnOk result (types.new.items ≡ fold with_type_once types.old.items more.now) }
{
    for &kind in more {
        push_once(types, kind)?;
    }
    Ok(())
}

// The number of the plane with this name.
fn plane_named(tech: &Tech, word: &[u8]) -> Option<usize>
    ensures { result ≡ plane_named tech.now word.now }
{
    let planes = tech.raw().planes.items();
    planes.iter().position(|plane| word == plane.bytes())
}

fn plane_of(tech: &Tech, kind: TypeId) -> u8
    ensures { result ≡ plane_of tech.now kind.0 }
{
    let place = usize::from(kind.0).saturating_sub(1);
    match tech.raw().types.items().get(place) {
        Some(record) => record.plane,
        None => 0,
    }
}

fn images_of(tech: &Tech, layer: LayerId) -> &[TypeId]
    ensures { result.now ≡ images_of tech.now layer.0 }
{
    match tech.raw().layers.items().get(usize::from(layer.0)) {
        Some(record) => record.images.items(),
        None => &[],
    }
}

// The images of the layer that the word names, none where it names no layer.
fn named_types<'a>(tech: &'a Tech, word: &[u8]) -> &'a [TypeId]
    ensures { result.now ≡ named_types tech.now word.now }
{
    match tech.layer(word) {
        Some(layer) => images_of(tech, layer),
        None => &[],
    }
}

// The first of the types that stands on the plane, alone.
fn first_on<'a>(tech: &Tech, plane: usize, types: &'a [TypeId]) -> &'a [TypeId]
    ensures { result.now ≡ first_on tech.now plane types.now }
{
    let mut rest = types;
    while let [kind, others @ ..] = rest {
        if usize::from(plane_of(tech, *kind)) == plane {
            return &rest[..1];
        }
        rest = others;
    }
    &[]
}

// The types that an entry means: with a plane the image on that plane, and else all images.
fn entry_types<'a>(tech: &'a Tech, entry: &[u8]) -> &'a [TypeId]
    ensures { result.now ≡ entry_types tech.now entry.now }
{
    if !has_slash(entry) {
        return named_types(tech, entry);
    }
    let (name, plane) = parts_of_entry(entry);
    match plane_named(tech, plane) {
        Some(plane) => first_on(tech, plane, named_types(tech, name)),
        None => &[],
    }
}

/// The types of a list, each of whose entries means one or more.
pub fn types_in(alloc: Global, tech: &Tech, list: &[u8]) -> Result<List<TypeId>, DrcFault>
    ensures read { IfOk result (λ types. types_in tech.now list.now ≡ Ok types) }
    ensures refused { IfErr result (λ fault. fault ≢ OutOfMemory → types_in tech.now list.now ≡ Err fault) }
{
    let mut types = Vec::new(alloc);
    for entry in each_entry(list) {
        let meant = entry_types(tech, entry);
        if meant.is_empty() {
            return Err(DrcFault::NoLayer);
        }
        push_each_once(&mut types, meant)?;
    }
    Ok(List::of(types))
}

fn are_on(tech: &Tech, plane: u8, types: &[TypeId]) -> bool
    ensures { result ≡ list_all (is_on tech.now plane) types.now }
{
    types.iter().all(|&kind| plane_of(tech, kind) == plane)
}

/// The one plane of the types of a list.
pub fn one_plane(tech: &Tech, types: &[TypeId]) -> Result<u8, DrcFault>
    ensures { result ≡ one_plane tech.now types.now }
{
    let [first, others @ ..] = types else {
        return Err(DrcFault::NoLayer);
    };
    let plane = plane_of(tech, *first);
    if are_on(tech, plane, others) {
        Ok(plane)
    } else {
        Err(DrcFault::TwoPlanes)
    }
}

fn share_a_type(first: &[TypeId], second: &[TypeId]) -> bool
    ensures { result ≡ list_any (has_type second.now) first.now }
{
    first.iter().any(|&kind| has_type(second, kind))
}

/// Refuses a type that is in both lists.
pub fn unless_in_both(first: &[TypeId], second: &[TypeId]) -> Result<(), DrcFault>
    ensures { result ≡ unless_in_both first.now second.now }
{
    if share_a_type(first, second) {
        return Err(DrcFault::InBoth);
    }
    Ok(())
}
