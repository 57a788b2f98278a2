//! The parts of a technology.
ghost use Rattle.std.specs.Prelude.{◌≡◌, ◌≤◌, ◌++◌, ◌∷◌, [], map, filter, IsTrue, IfOk, OnOk};
ghost use Rattle.tech_model.specs.Columns.{mark_of};
ghost use Rattle.tech_model.specs.Types.{images_of, is_type, layer_of, parts_of};
ghost use Rattle.tech_model.specs.declared.limits.TheConstants.{MOST_TYPES};
ghost use Rattle.cif_writing.specs.Parts.{is_atom, is_second, is_second_image, own_mark, atom_sets, mark_sets, part_sets};

use std::alloc::{AllocError, Global};
use tech_model::{PartSet, RawTech, Tech, TypeId};

// Whether the type is an atom.
fn is_atom(raw: &RawTech, t: u8) -> bool
    requires low { 1 ≤ t }
    requires high { t ≤ MOST_TYPES }
    ensures { result ≡ is_atom raw.now t }
{
    raw.parts_of(TypeId(t)).0 == 1 << (t - 1)
}

// The images of the layer that the type is one of.
fn images_of(tech: &Tech, t: u8) -> &[TypeId]
    requires { IsTrue (is_type tech.now t) }
    ensures { result.now ≡ images_of tech.now (layer_of tech.now t) }
{
    let raw = tech.raw();
    let layer = raw.types.items()[usize::from(t) - 1].layer;
    raw.layers.items()[usize::from(layer.0)].images.items()
}

// Whether the type is the second of the images.
fn is_second(images: &[TypeId], t: u8) -> bool
    ensures { result ≡ is_second images.now t }
{
    match images {
        [_, second, ..] => second.0 == t,
        _ => false,
    }
}

// What the sets of the images have in common.
fn mark_of(raw: &RawTech, images: &[TypeId]) -> PartSet
    ensures { result.0 ≡ mark_of raw.now images.now }
{
    let mark = images
        .iter()
        .fold(u128::MAX, |common, &image| common & raw.parts_of(image).0);
    PartSet(mark)
}

// Adds a part.
fn add(parts: &mut Vec<PartSet>, part: PartSet) -> Result<(), AllocError>
    ensures { OnOk result (map (λ part. part.0) parts.new.items ≡ map (λ part. part.0) parts.old.items ++ part.0 ∷ []) }
{
    parts.push(part)?;
    Ok(())
}

// Adds the set of the type, where it is an atom.
fn add_atom(parts: &mut Vec<PartSet>, tech: &Tech, t: u8) -> Result<(), AllocError>
    requires low { 1 ≤ t }
    requires high { t ≤ MOST_TYPES }
    ensures { OnOk result (map (λ part. part.0) parts.new.items
        ≡ map (λ part. part.0) parts.old.items ++ map (parts_of tech.now) (filter (is_atom tech.now) (t ∷ []))) }
{
    let raw = tech.raw();
    if !is_atom(raw, t) {
        return Ok(());
    }
    add(parts, raw.parts_of(TypeId(t)))?;
    Ok(())
}

// Adds the mark of the contact that the type is the second image of, where it is of one.
fn add_mark(parts: &mut Vec<PartSet>, tech: &Tech, t: u8) -> Result<(), AllocError>
    requires { IsTrue (is_type tech.now t) }
    ensures { OnOk result (map (λ part. part.0) parts.new.items
        ≡ map (λ part. part.0) parts.old.items ++ map (own_mark tech.now) (filter (is_second_image tech.now) (t ∷ []))) }
{
    let images = images_of(tech, t);
    if !is_second(images, t) {
        return Ok(());
    }
    add(parts, mark_of(tech.raw(), images))?;
    Ok(())
}

// Adds the sets of the atoms, in the order of their types.
fn add_atoms(parts: &mut Vec<PartSet>, tech: &Tech) -> Result<(), AllocError>
    ensures { OnOk result (map (λ part. part.0) parts.new.items ≡ map (λ part. part.0) parts.old.items ++ atom_sets tech.now) }
{
    let end = tech.raw().types.items().len() as u8 + 1;
    for t in 1..end {
        add_atom(parts, tech, t)?;
    }
    Ok(())
}

// Adds the marks of the contacts, in the order of their lines.
fn add_marks(parts: &mut Vec<PartSet>, tech: &Tech) -> Result<(), AllocError>
    ensures { OnOk result (map (λ part. part.0) parts.new.items ≡ map (λ part. part.0) parts.old.items ++ mark_sets tech.now) }
{
    let end = tech.raw().types.items().len() as u8 + 1;
    for t in 1..end {
        add_mark(parts, tech, t)?;
    }
    Ok(())
}

/// The parts in order: the atoms in the order of their types, and then the marks of the contacts in the order of their lines. Want of memory
/// alone refuses.
pub fn part_sets(alloc: Global, tech: &Tech) -> Result<Vec<PartSet>, AllocError>
    ensures { IfOk result (λ parts. map (λ part. part.0) parts.items ≡ part_sets tech.now) }
{
    let mut parts = Vec::new(alloc);
    add_atoms(&mut parts, tech)?;
    add_marks(&mut parts, tech)?;
    Ok(parts)
}
