//! The elements of uses as uses of their own.
ghost use Rattle.std.specs.Prelude.{◌≡◌, ◌≤◌, ◌<◌, ◌++◌, length, map, slice_get, Some, IfOk, OnOk};
ghost use Rattle.geo_core.specs.declared.limits.TheConstants.{MOST_ELEMENTS};
ghost use Rattle.geo_core.specs.Elements.{elements_of, IsLawful};
ghost use Rattle.ext_model.specs.declared.limits.TheConstants.{SHIFT_EDGE};
ghost use Rattle.ext_model.specs.ElementNames.{indexed_name};
ghost use Rattle.ext_model.specs.Lawful.{IsPlacement};
ghost use Rattle.ext_model.specs.LawfulArrays.{IsArrayUse};
ghost use Rattle.ext_model.specs.Plain.{displaced, element_use, plain_uses};
ghost use Rattle.plain_records.specs.Thin.{first_use};
ghost use Rattle.plain_records.specs.steps.Steps.{IsShortStep};

use ext_model::{ArrayUse, UseRec};
use geo_core::{Grid, Orient, Transform};
use names_lists::Name;
use std::alloc::{AllocError, Global};
use text_scan::append_decimal;

// The text of the id with two indices.
fn indexed_text(alloc: Global, id: &[u8], i: i64, j: i64) -> Result<Vec<u8>, AllocError>
    ensures { IfOk result (λ text. text.items ≡ indexed_name id.now i j) }
{
    let mut text = Vec::from_slice(alloc, id)?;
    text.push(b'[')?;
    append_decimal(&mut text, i128::from(i))?;
    text.push(b',')?;
    append_decimal(&mut text, i128::from(j))?;
    text.push(b']')?;
    Ok(text)
}

// The six numbers of what is first displaced so far.
fn displaced(six: [i64; 6], dx: i64, dy: i64) -> [i64; 6]
    requires placed { IsPlacement SHIFT_EDGE six }
    requires dx { IsShortStep dx }
    requires dy { IsShortStep dy }
    ensures { result ≡ displaced six dx dy }
{
    let step = Transform {
        orient: Orient::R0,
        dx,
        dy,
    };
    match Transform::of_six(six) {
        Some(placed) => step.then(&placed).six(),
        None => unreachable!(),
    }
}

// The k-th element of an array. Want of memory alone refuses.
fn element_at(alloc: Global, used: &ArrayUse, grid: &Grid, k: u64) -> Result<UseRec, AllocError>
    requires placed { IsPlacement SHIFT_EDGE used.now.six }
    requires lawful { IsLawful grid.now }
    requires below { k < length (elements_of grid.now) }
    ensures { IfOk result (λ one. slice_get (map (element_use used.now) (elements_of grid.now)) k ≡ Some one) }
{
    let (i, j, dx, dy) = grid.element(k);
    let id = indexed_text(alloc, used.id.bytes(), i, j)?;
    Ok(UseRec {
        cell: used.cell.copy(alloc)?,
        id: Name::of(alloc, id.as_slice())?,
        six: displaced(used.six, dx, dy),
    })
}

// The one element of a use without a grid. Want of memory alone refuses.
fn single(alloc: Global, used: &ArrayUse) -> Result<UseRec, AllocError>
    ensures { IfOk result (λ one. one ≡ record { cell = used.now.cell; id = used.now.id; six = used.now.six }) }
{
    Ok(UseRec {
        cell: used.cell.copy(alloc)?,
        id: used.id.copy(alloc)?,
        six: used.six,
    })
}

/// How many elements a use has.
pub fn element_count(used: &ArrayUse) -> usize
    requires { IsArrayUse used.now }
    ensures count { result ≡ length (plain_uses used.now) }
    ensures few { result ≤ MOST_ELEMENTS }
{
    match used.grid {
        Some(grid) => grid.count() as usize,
        None => 1,
    }
}

/// The first element of a use. Want of memory alone refuses.
pub fn first_use(alloc: Global, used: &ArrayUse) -> Result<UseRec, AllocError>
    requires { IsArrayUse used.now }
    ensures { IfOk result (λ one. one ≡ first_use used.now) }
{
    match used.grid {
        Some(grid) => element_at(alloc, used, &grid, 0),
        None => single(alloc, used),
    }
}

/// Appends the elements of a use. Want of memory alone refuses.
pub fn add_elements(
    alloc: Global,
    uses: &mut Vec<UseRec>,
    used: &ArrayUse,
) -> Result<(), AllocError>
    requires { IsArrayUse used.now }
    ensures { OnOk result (uses.new.items ≡ uses.old.items ++ plain_uses used.now) }
{
    match used.grid {
        Some(grid) => {
            for k in 0..grid.count() {
                uses.push(element_at(alloc, used, &grid, k)?)?;
            }
        }
        None => uses.push(single(alloc, used)?)?,
    }
    Ok(())
}
