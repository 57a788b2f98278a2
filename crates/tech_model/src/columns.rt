//! Columns: what paint and erasing make of the types on the planes of one square.
ghost use Rattle.std.specs.Prelude.{◌≡◌, ◌<◌, length, fold, unwrap_or};
ghost use Rattle.tech_model.specs.Types.{is_subset, without, image_on, joined};
ghost use Rattle.tech_model.specs.Columns.{type_on, painted_by, without_parts, brushed_by, where_image, on_planes_from};
ghost use Rattle.tech_model.specs.Columns.{mark_of, has_mark_everywhere, layer_mark_kept, marks_kept};
ghost use Rattle.tech_model.specs.Columns.{brushed_column};

use crate::indexed::Indexed;
use crate::limits::MOST_PLANES;
use crate::raw::{LayerId, PartSet, TypeId};
use std::array;

/// Whether a layer is painted or erased.
#[derive(Clone, Copy, Debug, PartialEq, Eq)]
pub enum Brush {
    Paint,
    Erase,
}

/// Whether all parts of a are parts of b.
fn is_subset(a: PartSet, b: PartSet) -> bool
    ensures { result ≡ is_subset a.0 b.0 }
{
    a.0 & b.0 == a.0
}

/// The parts of a that are none of b.
fn without(a: PartSet, b: PartSet) -> PartSet
    ensures { result.0 ≡ without a.0 b.0 }
{
    PartSet(a.0 ^ (a.0 & b.0))
}

fn type_on(column: &[TypeId], plane: u8) -> TypeId
    ensures { result.0 ≡ type_on column.now plane }
{
    match column.get(usize::from(plane)) {
        Some(t) => *t,
        None => TypeId(0),
    }
}

/// The type of the plane that has the set, or else this one.
fn joined_or(lists: &Indexed, plane: u8, set: PartSet, other: TypeId) -> TypeId
    ensures { result.0 ≡ unwrap_or (joined lists.now plane set.0) other.0 }
{
    lists.joined(plane, set).unwrap_or(other)
}

fn painted_by(lists: &Indexed, plane: u8, image: TypeId, old: TypeId) -> TypeId
    ensures { result ≡ painted_by lists.now plane image old }
{
    let set = PartSet(lists.parts(old).0 | lists.parts(image).0);
    joined_or(lists, plane, set, image)
}

/// What is left when the parts of the set are taken off, where they all stand.
fn without_parts(lists: &Indexed, set: PartSet, plane: u8, old: TypeId) -> TypeId
    ensures { result ≡ without_parts lists.now set.0 plane old }
{
    let parts = lists.parts(old);
    if is_subset(set, parts) {
        joined_or(lists, plane, without(parts, set), TypeId(0))
    } else {
        old
    }
}

fn brushed_by(lists: &Indexed, brush: Brush, plane: u8, image: TypeId, old: TypeId) -> TypeId
    ensures { result ≡ brushed_by lists.now brush plane image old }
{
    match brush {
        Brush::Paint => painted_by(lists, plane, image, old),
        Brush::Erase => without_parts(lists, lists.parts(image), plane, old),
    }
}

/// What the sets of the images have in common.
fn mark_of(lists: &Indexed, images: &[TypeId]) -> PartSet
    ensures { result.0 ≡ mark_of lists.now images.now }
{
    let mark = images
        .iter()
        .fold(u128::MAX, |common, &image| common & lists.parts(image).0);
    PartSet(mark)
}

fn has_mark_everywhere(lists: &Indexed, mark: PartSet, images: &[TypeId], column: &[TypeId]) -> bool
    ensures { result ≡ has_mark_everywhere lists.now mark.0 images.now column.now }
{
    images.iter().all(|&image| is_subset(mark, lists.parts(type_on(column, lists.plane(image)))))
}

fn take_mark_off(lists: &Indexed, mark: PartSet, column: &mut [TypeId; MOST_PLANES])
    ensures { column.new ≡ on_planes_from 0 (without_parts lists.now mark.0) column.old }
{
    let old = *column;
    *column = array::from_fn(|plane| without_parts(lists, mark, plane as u8, old[plane]));
}

/// Takes the mark of a contact with these images off the column, unless it stands on all its planes.
fn keep_mark(lists: &Indexed, images: &[TypeId], column: &mut [TypeId; MOST_PLANES])
    ensures { column.new ≡ layer_mark_kept lists.now images.now column.old }
{
    if images.len() > 1 {
        let mark = mark_of(lists, images);
        if !has_mark_everywhere(lists, mark, images, &*column) {
            take_mark_off(lists, mark, column);
        }
    }
}

fn keep_marks(lists: &Indexed, column: &mut [TypeId; MOST_PLANES])
    ensures { column.new ≡ marks_kept lists.now column.old }
{
    for layer in lists.raw().layers.items() {
        keep_mark(lists, layer.images.items(), column);
    }
}

fn brushed_on(lists: &Indexed, brush: Brush, layer: LayerId, plane: u8, old: TypeId) -> TypeId
    requires { layer.0 < length lists.now.layers }
    ensures { result ≡ where_image (brushed_by lists.now brush plane) (image_on lists.now layer.0 plane) old }
{
    match lists.image(layer, plane) {
        Some(image) => brushed_by(lists, brush, plane, image, old),
        None => old,
    }
}

/// Paints or erases the layer.
#[tactic(auto, unfolding(crate::specs::Columns::brushed_column))]
pub(crate) fn brush_column(
    lists: &Indexed,
    brush: Brush,
    column: &mut [TypeId; MOST_PLANES],
    layer: LayerId,
)
    requires { layer.0 < length lists.now.layers }
    ensures { column.new ≡ brushed_column lists.now brush layer.0 column.old }
{
    let old = *column;
    *column = array::from_fn(move |plane| brushed_on(lists, brush, layer, plane as u8, old[plane]));
    keep_marks(lists, column);
}
