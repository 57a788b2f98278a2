//! The forms of the words and numbers that a cell has.
ghost use Rattle.std.specs.Prelude.{◌≡◌, ◌&&◌, IsTrue};
ghost use Rattle.std.specs.List.{list_all};
ghost use Rattle.geo_core.specs.declared.grids.Grid.{Grid as OneGrid};
ghost use Rattle.geo_core.specs.Elements.{indices, IsLawful};
ghost use Rattle.cell_bodies.specs.Words.{is_text_byte, begins_with_blank, ends_with_blank, is_label_text};
ghost use Rattle.cell_bodies.specs.Words.{without_first_blanks, without_last_blanks, without_outer_blanks};
ghost use Rattle.cell_bodies.specs.Numbers.{is_displacement, are_displacements, is_index, are_indices, are_few_elements, are_elements, is_grid};
ghost use Rattle.cell_bodies.specs.Numbers.{is_position};
ghost use Rattle.cell_paint.specs.Painting.{is_in_range};
ghost use Rattle.cell_bodies.specs.Numbers.{has_sides, is_label_area, is_scale_number};

use crate::limits::{DISPLACEMENT_EDGE, LARGEST_SCALE, LAST_POSITION};
use cell_paint::is_coordinate;
use geo_core::{Grid, MOST_ELEMENTS, Rect};
use tech_model::LONGEST_LABEL;

fn has_text_bytes(text: &[u8]) -> bool
    ensures { result ≡ list_all is_text_byte text.now }
{
    text.iter().all(|&byte| b' ' <= byte && byte <= b'~')
}

fn begins_with_blank(bytes: &[u8]) -> bool
    ensures { result ≡ begins_with_blank bytes.now }
{
    matches!(bytes, [b' ' | b'\t', ..])
}

fn ends_with_blank(bytes: &[u8]) -> bool
    ensures { result ≡ ends_with_blank bytes.now }
{
    matches!(bytes, [.., b' ' | b'\t'])
}

/// Whether bytes are the text of a label: 1 to [`LONGEST_LABEL`] printing bytes or blanks, without blanks at their ends.
pub fn is_label_text(text: &[u8]) -> bool
    ensures { result ≡ is_label_text text.now }
{
    let length = text.len();
    1 <= length
        && length <= LONGEST_LABEL
        && has_text_bytes(text)
        && !begins_with_blank(text)
        && !ends_with_blank(text)
}

fn without_first_blanks(bytes: &[u8]) -> &[u8]
    ensures { result.now ≡ without_first_blanks bytes.now }
{
    let mut inner = bytes;
    while let [b' ' | b'\t', rest @ ..] = inner {
        inner = rest;
    }
    inner
}

fn without_last_blanks(bytes: &[u8]) -> &[u8]
    ensures { result.now ≡ without_last_blanks bytes.now }
{
    let mut inner = bytes;
    while let [front @ .., b' ' | b'\t'] = inner {
        inner = front;
    }
    inner
}

/// The bytes without the blanks and tabs at their two ends.
#[tactic(auto, unfolding(crate::specs::Words::without_outer_blanks))]
pub fn without_outer_blanks(bytes: &[u8]) -> &[u8]
    ensures { result.now ≡ without_outer_blanks bytes.now }
{
    without_last_blanks(without_first_blanks(bytes))
}

/// Whether a use may be displaced by so much, or the elements of a grid be so far apart.
pub fn is_displacement(value: i64) -> bool
    ensures { result ≡ is_displacement value }
{
    -DISPLACEMENT_EDGE <= value && value <= DISPLACEMENT_EDGE
}

fn are_displacements(x: i64, y: i64) -> bool
    ensures { result ≡ are_displacements x y }
{
    is_displacement(x) && is_displacement(y)
}

/// Whether a number may be an index of a grid: one of 32 bits with sign.
pub fn is_index(value: i64) -> bool
    ensures { result ≡ is_index value }
{
    i32::try_from(value).is_ok()
}

// How many values an index has that runs from one end to the other.
fn indices(from: i64, to: i64) -> u64
    requires from { IsTrue (is_index from) }
    requires to { IsTrue (is_index to) }
    ensures { result ≡ indices from to }
{
    to.abs_diff(from) + 1
}

/// Whether there are no more than `MOST_ELEMENTS` elements between these ends of two indices.
pub fn are_few_elements(xlo: i64, xhi: i64, ylo: i64, yhi: i64) -> bool
    requires xlo { IsTrue (is_index xlo) }
    requires xhi { IsTrue (is_index xhi) }
    requires ylo { IsTrue (is_index ylo) }
    requires yhi { IsTrue (is_index yhi) }
    ensures { result ≡ are_few_elements xlo xhi ylo yhi }
{
    match indices(xlo, xhi).checked_mul(indices(ylo, yhi)) {
        Some(count) => count <= MOST_ELEMENTS as u64,
        None => false,
    }
}

fn are_indices(xlo: i64, xhi: i64, ylo: i64, yhi: i64) -> bool
    ensures { result ≡ are_indices xlo xhi ylo yhi }
{
    is_index(xlo) && is_index(xhi) && is_index(ylo) && is_index(yhi)
}

#[tactic(auto, unfolding(crate::specs::Numbers::are_elements))]
fn are_elements(xlo: i64, xhi: i64, ylo: i64, yhi: i64) -> bool
    ensures { result ≡ are_elements xlo xhi ylo yhi }
{
    if !are_indices(xlo, xhi, ylo, yhi) {
        return false;
    }
    are_few_elements(xlo, xhi, ylo, yhi)
}

/// Whether a use may have the grid: its indices are numbers of 32 bits with sign, its separations are displacements, and it
/// has no more than `MOST_ELEMENTS` elements.
pub fn is_grid(grid: &Grid) -> bool
    ensures { result ≡ is_grid grid.now }
{
    are_elements(grid.xlo, grid.xhi, grid.ylo, grid.yhi) && are_displacements(grid.xsep, grid.ysep)
}

/// Whether a number is that of a position.
pub fn is_position(position: u8) -> bool
    ensures { result ≡ is_position position }
{
    position <= LAST_POSITION
}

/// Whether no edge of the rectangle goes past the one on its other side: it may be a line or a point.
pub fn has_sides(area: &Rect) -> bool
    ensures { result ≡ has_sides area.now }
{
    area.xlo <= area.xhi && area.ylo <= area.yhi
}

fn is_in_range(area: &Rect) -> bool
    ensures { result ≡ is_in_range area.now }
{
    is_coordinate(area.xlo)
        && is_coordinate(area.ylo)
        && is_coordinate(area.xhi)
        && is_coordinate(area.yhi)
}

/// Whether a label may touch the rectangle: it has sides, and lies where paint may.
pub fn is_label_area(area: &Rect) -> bool
    ensures { result ≡ is_label_area area.now }
{
    has_sides(area) && is_in_range(area)
}

/// Whether a number may be one of the two of a scale.
pub fn is_scale_number(number: u32) -> bool
    ensures { result ≡ is_scale_number number }
{
    1 <= number && number <= LARGEST_SCALE
}

/// A law: the grids that a use may have are lawful.
pub fn grids_of_uses_are_lawful()
    ensures { (grid : OneGrid) → IsTrue (is_grid grid) → IsLawful grid }
{}
