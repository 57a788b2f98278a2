//! The names of a node.
ghost use Rattle.std.specs.Prelude.{◌≡◌, ◌++◌, ◌<◌, All, IfOk, OnOk, IsPermutation, IsSorted, IsTrue, length, codes, map, ◌∷◌, []};
ghost use Rattle.geo_core.specs.Areas.{corner_of, IsNear};
ghost use Rattle.tech_model.specs.Types.{is_type};
ghost use Rattle.ext_model.specs.NameOrder.{name_cmp};
ghost use Rattle.names.specs.steps.CountedLabels.{text_at};
ghost use Rattle.names.specs.GeneratedNames.{coordinate_text, generated_name};
ghost use Rattle.names.specs.steps.Groups.{AreNamesAt, AreNodeNames};

use ext_model::compare_names;
use geo_core::Square;
use layout_model::RegionTile;
use names_lists::{List, Name};
use std::alloc::{AllocError, Global};
use tech_model::{Label, Tech, TypeId};
use text_scan::append_decimal;

/// Adds a coordinate to a name.
fn append_coordinate(text: &mut Vec<u8>, value: i64) -> Result<(), AllocError>
    ensures { OnOk result (text.new.items ≡ text.old.items ++ coordinate_text value) }
{
    if value < 0 {
        text.push(b'n')?;
    }
    append_decimal(text, i128::from(value).abs())
}

/// The bytes of a generated name.
fn generated_text(
    alloc: Global,
    tech: &Tech,
    kind: TypeId,
    square: &Square,
) -> Result<Vec<u8>, AllocError>
    requires { IsTrue (is_type tech.now kind.0) }
    ensures { IfOk result (λ text. text.items ≡ generated_name tech.now kind.0 square.now) }
{
    let mut text = Vec::from_slice(alloc, tech.word(kind))?;
    text.push(b'_')?;
    append_coordinate(&mut text, square.x)?;
    text.push(b'_')?;
    append_coordinate(&mut text, square.y)?;
    text.push(b'#')?;
    Ok(text)
}

/// The name of a node with this first tile that no label names.
fn generated_names(alloc: Global, tech: &Tech, tile: &RegionTile) -> Result<Vec<Name>, AllocError>
    requires { IsTrue (is_type tech.now tile.now.kind.0) }
    ensures { IfOk result (λ names. names.items ≡ generated_name tech.now tile.now.kind.0 (corner_of tile.now.area) ∷ []) }
{
    let text = generated_text(alloc, tech, tile.kind, &tile.area.corner())?;
    let mut names = Vec::new(alloc);
    names.push(Name::of(alloc, text.as_slice())?)?;
    Ok(names)
}

/// The texts of the labels at the indices.
fn texts_at(alloc: Global, labels: &[Label], indices: &[usize]) -> Result<Vec<Name>, AllocError>
    requires { All (λ index. index < length labels.now) indices.now }
    ensures { IfOk result (λ texts. texts.items ≡ map (text_at labels.now) indices.now) }
{
    let mut texts = Vec::with_capacity(alloc, indices.len())?;
    for index in indices {
        texts.push(labels[*index].text.copy(alloc)?)?;
    }
    Ok(texts)
}

/// The names in name order.
fn in_name_order(mut names: Vec<Name>) -> Vec<Name>
    ensures moved { IsPermutation names.items result.items }
    ensures sorted { IsSorted name_cmp result.items }
{
    names.sort_unstable_by(|first, second| compare_names(first.bytes(), second.bytes()));
    names
}

/// The texts of the labels at the indices, each once, in name order.
fn label_names(alloc: Global, labels: &[Label], indices: &[usize]) -> Result<Vec<Name>, AllocError>
    requires { All (λ index. index < length labels.now) indices.now }
    ensures { IfOk result (λ names. AreNamesAt labels.now indices.now names.items) }
{
    let mut names = in_name_order(texts_at(alloc, labels, indices)?);
    names.dedup();
    Ok(names)
}

/// The names of the node with this first tile that the labels at the indices name.
pub fn node_names(
    alloc: Global,
    tech: &Tech,
    labels: &[Label],
    tile: &RegionTile,
    indices: &[usize],
) -> Result<Vec<Name>, AllocError>
    requires kind { IsTrue (is_type tech.now tile.now.kind.0) }
    requires within { All (λ index. index < length labels.now) indices.now }
    ensures { IfOk result (λ names. AreNodeNames tech.now labels.now tile.now indices.now names.items) }
{
    if indices.is_empty() {
        generated_names(alloc, tech, tile)
    } else {
        label_names(alloc, labels, indices)
    }
}
