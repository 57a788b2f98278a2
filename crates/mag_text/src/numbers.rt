//! The numbers of a mag text.
ghost use Rattle.std.specs.Prelude.{◌≡◌, IsTrue, IfOk};
ghost use Rattle.cell_library.specs.CellBodies.Numbers.{is_index};
ghost use Rattle.mag_text.specs.NumberForms.{is_decimal, are_four_decimal, are_six_decimal, number_in, if_in, coordinate_in, displacement_in, index_in};
ghost use Rattle.mag_text.specs.NumberForms.{if_scale_number, scale_number_in, scale_in, if_position, position_in, rect_in, if_painted, if_touched};
ghost use Rattle.mag_text.specs.NumberForms.{if_few, grid_in, if_orientation, six_in};

use crate::faults::MagFault;
use cell_library::cell_bodies::{
    are_few_elements, has_sides, is_displacement, is_index, is_position, is_scale_number,
};
use cell_library::cell_paint::is_coordinate;
use geo_core::{Grid, Orient, Rect};
use text_scan::NumFault;

/// What a word gives as a number of 64 bits.
pub type Read = Result<i64, NumFault>;

/// Four words as numbers.
pub type Four = (Read, Read, Read, Read);

/// Six words as numbers.
pub type Six = (Read, Read, Read, Read, Read, Read);

/// Whether the word is decimal, of whatever size.
pub fn is_decimal(read: Read) -> bool
    ensures { result ≡ is_decimal read }
{
    !matches!(read, Err(NumFault::Empty | NumFault::Digit))
}

/// Whether all four words are.
pub fn are_four_decimal(words: Four) -> bool
    ensures { result ≡ are_four_decimal words }
{
    is_decimal(words.0) && is_decimal(words.1) && is_decimal(words.2) && is_decimal(words.3)
}

/// Whether all six words are.
pub fn are_six_decimal(words: Six) -> bool
    ensures { result ≡ are_six_decimal words }
{
    is_decimal(words.0)
        && is_decimal(words.1)
        && is_decimal(words.2)
        && is_decimal(words.3)
        && is_decimal(words.4)
        && is_decimal(words.5)
}

/// A number of 64 bits.
pub fn number_in(read: Read) -> Result<i64, MagFault>
    ensures { result ≡ number_in read }
{
    match read {
        Ok(value) => Ok(value),
        Err(_) => Err(MagFault::Range),
    }
}

fn if_in(within: bool, value: i64) -> Result<i64, MagFault>
    ensures { result ≡ if_in within value }
{
    if within {
        Ok(value)
    } else {
        Err(MagFault::Range)
    }
}

/// A coordinate of paint or of a label.
pub fn coordinate_in(read: Read) -> Result<i64, MagFault>
    ensures { result ≡ coordinate_in read }
{
    let value = number_in(read)?;
    if_in(is_coordinate(value), value)
}

fn displacement_in(read: Read) -> Result<i64, MagFault>
    ensures { result ≡ displacement_in read }
{
    let value = number_in(read)?;
    if_in(is_displacement(value), value)
}

fn index_in(read: Read) -> Result<i64, MagFault>
    ensures value { result ≡ index_in read }
    ensures fits { IfOk result (λ z. IsTrue (is_index z)) }
{
    let value = number_in(read)?;
    if_in(is_index(value), value)
}

fn if_scale_number(value: i64) -> Result<u32, MagFault>
    ensures { result ≡ if_scale_number value }
{
    match u32::try_from(value) {
        Ok(number) if is_scale_number(number) => Ok(number),
        _ => Err(MagFault::Range),
    }
}

fn scale_number_in(read: Read) -> Result<u32, MagFault>
    ensures { result ≡ scale_number_in read }
{
    if_scale_number(number_in(read)?)
}

/// The two numbers of a scale.
pub fn scale_in(n: Read, d: Read) -> Result<(u32, u32), MagFault>
    ensures { result ≡ scale_in n d }
{
    let n = scale_number_in(n)?;
    Ok((n, scale_number_in(d)?))
}

fn if_position(value: i64) -> Option<u8>
    ensures { result ≡ if_position value }
{
    match u8::try_from(value) {
        Ok(position) if is_position(position) => Some(position),
        _ => None,
    }
}

/// The position that a word is, where it is one.
pub fn position_in(read: Read) -> Option<u8>
    ensures { result ≡ position_in read }
{
    match read {
        Ok(value) => if_position(value),
        Err(_) => None,
    }
}

/// The rectangle with these edges: left, lower, right and upper.
pub fn rect_in(words: Four) -> Result<Rect, MagFault>
    ensures { result ≡ rect_in words }
{
    let xlo = coordinate_in(words.0)?;
    let ylo = coordinate_in(words.1)?;
    let xhi = coordinate_in(words.2)?;
    let yhi = coordinate_in(words.3)?;
    Ok(Rect { xlo, ylo, xhi, yhi })
}

/// A rectangle of paint.
pub fn if_painted(area: Rect) -> Result<Rect, MagFault>
    ensures { result ≡ if_painted area }
{
    if area.has_square() {
        Ok(area)
    } else {
        Err(MagFault::EmptyRect)
    }
}

/// A rectangle of a label, which may be a line or a point.
pub fn if_touched(area: Rect) -> Result<Rect, MagFault>
    ensures { result ≡ if_touched area }
{
    if has_sides(&area) {
        Ok(area)
    } else {
        Err(MagFault::EmptyRect)
    }
}

fn if_few(grid: Grid) -> Result<Grid, MagFault>
    requires xlo { IsTrue (is_index grid.xlo) }
    requires xhi { IsTrue (is_index grid.xhi) }
    requires ylo { IsTrue (is_index grid.ylo) }
    requires yhi { IsTrue (is_index grid.yhi) }
    ensures { result ≡ if_few grid }
{
    if are_few_elements(grid.xlo, grid.xhi, grid.ylo, grid.yhi) {
        Ok(grid)
    } else {
        Err(MagFault::Range)
    }
}

/// The grid of these numbers.
pub fn grid_in(words: Six) -> Result<Grid, MagFault>
    ensures { result ≡ grid_in words }
{
    let xlo = index_in(words.0)?;
    let xhi = index_in(words.1)?;
    let xsep = displacement_in(words.2)?;
    let ylo = index_in(words.3)?;
    let yhi = index_in(words.4)?;
    let ysep = displacement_in(words.5)?;
    if_few(Grid {
        xlo,
        xhi,
        xsep,
        ylo,
        yhi,
        ysep,
    })
}

fn if_orientation(a: i64, b: i64, c: i64, d: i64, e: i64, f: i64) -> Result<[i64; 6], MagFault>
    ensures { result ≡ if_orientation a b c d e f }
{
    if Orient::of_matrix(a, b, d, e).is_some() {
        Ok([a, b, c, d, e, f])
    } else {
        Err(MagFault::Transform)
    }
}

/// The six numbers by which a use stands.
pub fn six_in(words: Six) -> Result<[i64; 6], MagFault>
    ensures { result ≡ six_in words }
{
    let a = number_in(words.0)?;
    let b = number_in(words.1)?;
    let c = displacement_in(words.2)?;
    let d = number_in(words.3)?;
    let e = number_in(words.4)?;
    let f = displacement_in(words.5)?;
    if_orientation(a, b, c, d, e, f)
}
