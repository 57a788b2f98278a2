//! The numbers of a line within their ranges.
ghost use Rattle.std.specs.Prelude.{◌≡◌, ◌≢◌, [], ◌∷◌, ◌*◌, Ok, Err, IfOk, IfErr, MatchOption};
ghost use Rattle.std.specs.Int.{w32};
ghost use Rattle.std.specs.Int.RustNames.{FitsSigned};
ghost use Rattle.ext_reading.specs.declared.faults.ExtReadFault.TheVariants.{Memory as OutOfMemory};
ghost use Rattle.ext_reading.specs.Parts.{is_short};
ghost use Rattle.ext_reading.specs.Ranges.{short_in, measure_in, pair_in, measures_in, class_value_of, class_value_in, class_values_from};
ghost use Rattle.ext_reading.specs.Ranges.{class_values_in};
ghost use Rattle.geo_core.specs.Elements.{indices};
ghost use Rattle.ext_reading.specs.Ranges.{if_orientation, six_in, HasShortEnds, if_few, grid_in, point_in, term_in, terms_from};

use crate::faults::ExtReadFault;
use crate::limits::GREATEST_CLASS_VALUE;
use crate::lines::{Corners, Numeral, SideLine, Six};
use crate::parts::put;
use ext_model::{MEASURE_EDGE, MOST_CLASSES, TermRec};
use geo_core::{Grid, MOST_ELEMENTS, Orient};
use names_lists::List;
use std::alloc::Global;

/// Whether the number is one of 32 bits with sign.
pub fn is_short(value: i128) -> bool
    ensures { result ≡ is_short value }
{
    -(1 << 31) <= value && value < 1 << 31
}

/// A number of 32 bits with sign.
pub fn short_in(numeral: Numeral) -> Result<i64, ExtReadFault>
    ensures { result ≡ short_in numeral }
{
    match numeral {
        Some(value) if is_short(value) => Ok(value as i64),
        _ => Err(ExtReadFault::Range),
    }
}

/// A capacitance, an area, a perimeter or a length.
pub fn measure_in(numeral: Numeral) -> Result<i128, ExtReadFault>
    ensures { result ≡ measure_in numeral }
{
    match numeral {
        Some(value) if value.unsigned_abs() < MEASURE_EDGE => Ok(value),
        _ => Err(ExtReadFault::Range),
    }
}

// The first number, and those behind it.
fn split_first(numerals: &[Numeral]) -> Option<(Numeral, &[Numeral])>
    ensures { MatchOption result (numerals.now ≡ []) (λ split. numerals.now ≡ split.0 ∷ split.1.now) }
{
    match numerals {
        [first, rest @ ..] => Some((*first, rest)),
        [] => None,
    }
}

// An area and a perimeter.
fn pair_in(area: Numeral, perimeter: Numeral) -> Result<(i128, i128), ExtReadFault>
    ensures { result ≡ pair_in area perimeter }
{
    let area = measure_in(area)?;
    let perimeter = measure_in(perimeter)?;
    Ok((area, perimeter))
}

/// For each class an area and a perimeter.
pub fn measures_in(alloc: Global, numerals: &[Numeral]) -> Result<List<(i128, i128)>, ExtReadFault>
    ensures read { IfOk result (λ measures. measures_in numerals.now ≡ Ok measures) }
    ensures refused { IfErr result (λ fault. fault ≢ OutOfMemory → measures_in numerals.now ≡ Err fault) }
{
    let mut measures = Vec::new(alloc);
    let mut left = numerals;
    while let Some((area, behind)) = split_first(left) {
        let Some((perimeter, rest)) = split_first(behind) else {
            break;
        };
        let measure = pair_in(area, perimeter)?;
        put(&mut measures, measure)?;
        left = rest;
    }
    Ok(List::of(measures))
}

fn class_value_of(value: i128) -> Result<u64, ExtReadFault>
    ensures { result ≡ class_value_of value }
{
    match u64::try_from(value) {
        Ok(value) if value <= GREATEST_CLASS_VALUE => Ok(value),
        _ => Err(ExtReadFault::Range),
    }
}

fn class_value_in(numeral: Numeral) -> Result<u64, ExtReadFault>
    ensures { result ≡ class_value_in numeral }
{
    match numeral {
        Some(value) => class_value_of(value),
        None => Err(ExtReadFault::Range),
    }
}

// The values of classes, however many there are.
fn all_class_values_in(alloc: Global, numerals: &[Numeral]) -> Result<List<u64>, ExtReadFault>
    ensures read { IfOk result (λ values. class_values_from [] numerals.now ≡ Ok values) }
    ensures refused { IfErr result (λ fault. fault ≢ OutOfMemory → class_values_from [] numerals.now ≡ Err fault) }
{
    let mut values = Vec::new(alloc);
    let mut left = numerals;
    while let [numeral, rest @ ..] = left {
        let value = class_value_in(*numeral)?;
        put(&mut values, value)?;
        left = rest;
    }
    Ok(List::of(values))
}

/// The values of no more classes than a record may have.
pub fn class_values_in(alloc: Global, numerals: &[Numeral]) -> Result<List<u64>, ExtReadFault>
    ensures read { IfOk result (λ values. class_values_in numerals.now ≡ Ok values) }
    ensures refused { IfErr result (λ fault. fault ≢ OutOfMemory → class_values_in numerals.now ≡ Err fault) }
{
    if numerals.len() <= MOST_CLASSES {
        all_class_values_in(alloc, numerals)
    } else {
        Err(ExtReadFault::Range)
    }
}

fn if_orientation(a: i64, b: i64, c: i64, d: i64, e: i64, f: i64) -> Result<[i64; 6], ExtReadFault>
    ensures { result ≡ if_orientation a b c d e f }
{
    if Orient::of_matrix(a, b, d, e).is_some() {
        Ok([a, b, c, d, e, f])
    } else {
        Err(ExtReadFault::Transform)
    }
}

/// The numbers by which a use stands.
pub fn six_in(six: Six) -> Result<[i64; 6], ExtReadFault>
    ensures { result ≡ six_in six }
{
    let a = short_in(six.0)?;
    let b = short_in(six.1)?;
    let c = short_in(six.2)?;
    let d = short_in(six.3)?;
    let e = short_in(six.4)?;
    let f = short_in(six.5)?;
    if_orientation(a, b, c, d, e, f)
}

// How many values an index has that runs from one end to the other.
fn indices(from: i64, to: i64) -> u64
    requires from_fits { FitsSigned w32 from }
    requires to_fits { FitsSigned w32 to }
    ensures { result ≡ indices from to }
{
    from.abs_diff(to) + 1
}

// How many elements a grid has.
fn count_in(grid: &Grid) -> u128
    requires { HasShortEnds grid.now }
    ensures { result ≡ indices grid.now.xlo grid.now.xhi * indices grid.now.ylo grid.now.yhi }
{
    u128::from(indices(grid.xlo, grid.xhi)) * u128::from(indices(grid.ylo, grid.yhi))
}

// A grid of no more elements than there may be.
fn if_few(grid: Grid) -> Result<Option<Grid>, ExtReadFault>
    requires { HasShortEnds grid }
    ensures { result ≡ if_few grid }
{
    if count_in(&grid) <= MOST_ELEMENTS as u128 {
        Ok(Some(grid))
    } else {
        Err(ExtReadFault::Range)
    }
}

/// The grid of a use, where it has one.
pub fn grid_in(grid: Option<Six>) -> Result<Option<Grid>, ExtReadFault>
    ensures { result ≡ grid_in grid }
{
    let Some(six) = grid else {
        return Ok(None);
    };
    let xlo = short_in(six.0)?;
    let xhi = short_in(six.1)?;
    let xsep = short_in(six.2)?;
    let ylo = short_in(six.3)?;
    let yhi = short_in(six.4)?;
    let ysep = short_in(six.5)?;
    if_few(Grid {
        xlo,
        xhi,
        xsep,
        ylo,
        yhi,
        ysep,
    })
}

/// The point of a transistor.
pub fn point_in(corners: Corners) -> Result<(i64, i64), ExtReadFault>
    ensures { result ≡ point_in corners }
{
    let x = short_in(corners.x)?;
    let y = short_in(corners.y)?;
    let _ = short_in(corners.far_x)?;
    let _ = short_in(corners.far_y)?;
    Ok((x, y))
}

/// A gate or a terminal.
pub fn term_in(side: SideLine) -> Result<TermRec, ExtReadFault>
    ensures { result ≡ term_in side }
{
    let length = measure_in(side.length)?;
    Ok(TermRec {
        node: side.node,
        length,
    })
}

/// The terminals of a transistor.
pub fn terms_in(alloc: Global, sides: List<SideLine>) -> Result<List<TermRec>, ExtReadFault>
    ensures read { IfOk result (λ terms. terms_from [] sides ≡ Ok terms) }
    ensures refused { IfErr result (λ fault. fault ≢ OutOfMemory → terms_from [] sides ≡ Err fault) }
{
    let mut terms = Vec::new(alloc);
    for side in sides.into_vec() {
        let term = term_in(side)?;
        put(&mut terms, term)?;
    }
    Ok(List::of(terms))
}
