//! What the line of a transistor says by itself.
ghost use Rattle.std.specs.Prelude.{◌≡◌, ◌≢◌, [], ◌∷◌, Ok, Err, IfOk, IfErr};
ghost use Rattle.ext_reading.specs.declared.faults.ExtReadFault.TheVariants.{Memory as OutOfMemory};
ghost use Rattle.ext_reading.specs.LineForms.{side_in, sides_from, are_corners, if_corners, corners_in, fet_at, fet_line};

use crate::faults::ExtReadFault;
use crate::lines::{Corners, ExtLine, FetLine, SideLine};
use crate::parts::{is_next, node_name_in, numeral_in, put, substrate_in, word_in};
use names_lists::{List, Name};
use std::alloc::Global;
use text_form::next_three;
use text_scan::Words;

fn side_in(alloc: Global, node: &[u8], length: &[u8]) -> Result<SideLine, ExtReadFault>
    ensures read { IfOk result (λ side. side_in node.now length.now ≡ Ok side) }
    ensures refused { IfErr result (λ fault. fault ≢ OutOfMemory → side_in node.now length.now ≡ Err fault) }
{
    let node = node_name_in(alloc, node)?;
    let length = numeral_in(length)?;
    Ok(SideLine { node, length })
}

// The terminals that words say.
fn sides_in(alloc: Global, words: Words<'_>) -> Result<List<SideLine>, ExtReadFault>
    ensures read { IfOk result (λ sides. sides_from [] words.entry ≡ Ok sides) }
    ensures refused { IfErr result (λ fault. fault ≢ OutOfMemory → sides_from [] words.entry ≡ Err fault) }
{
    let mut sides = Vec::new(alloc);
    let mut rest = words;
    while let Some(node) = rest.next() {
        let Some(length) = rest.next() else {
            return Err(ExtReadFault::BadLine);
        };
        let Some(_) = rest.next() else {
            return Err(ExtReadFault::BadLine);
        };
        let side = side_in(alloc, node, length)?;
        put(&mut sides, side)?;
    }
    Ok(List::of(sides))
}

fn are_corners(corners: Corners) -> bool
    ensures { result ≡ are_corners corners }
{
    is_next(corners.x, corners.far_x) && is_next(corners.y, corners.far_y)
}

fn if_corners(corners: Corners) -> Result<Corners, ExtReadFault>
    ensures { result ≡ if_corners corners }
{
    if are_corners(corners) {
        Ok(corners)
    } else {
        Err(ExtReadFault::BadLine)
    }
}

fn corners_in(x: &[u8], y: &[u8], far_x: &[u8], far_y: &[u8]) -> Result<Corners, ExtReadFault>
    ensures { result ≡ corners_in x.now y.now far_x.now far_y.now }
{
    let x = numeral_in(x)?;
    let y = numeral_in(y)?;
    let far_x = numeral_in(far_x)?;
    let far_y = numeral_in(far_y)?;
    if_corners(Corners { x, y, far_x, far_y })
}

pub fn fet_line(alloc: Global, words: Words<'_>) -> Result<ExtLine, ExtReadFault>
    ensures read { IfOk result (λ said. fet_line words.entry ≡ Ok said) }
    ensures refused { IfErr result (λ fault. fault ≢ OutOfMemory → fet_line words.entry ≡ Err fault) }
{
    let mut rest = words;
    let (Some((kind, x, y)), Some(far_x), Some(far_y)) = (
        next_three(&mut rest),
        rest.next(),
        rest.next(),
    ) else {
        return Err(ExtReadFault::BadLine);
    };
    let kind = word_in(alloc, kind)?;
    let corners = corners_in(x, y, far_x, far_y)?;
    fet_at(alloc, kind, corners, rest)
}

// A transistor at its place.
fn fet_at(
    alloc: Global,
    kind: Name,
    corners: Corners,
    words: Words<'_>,
) -> Result<ExtLine, ExtReadFault>
    ensures read { IfOk result (λ said. fet_at kind corners words.entry ≡ Ok said) }
    ensures refused { IfErr result (λ fault. fault ≢ OutOfMemory → fet_at kind corners words.entry ≡ Err fault) }
{
    let mut rest = words;
    let (Some((area, perimeter, substrate)), Some((gate, length, _))) = (
        next_three(&mut rest),
        next_three(&mut rest),
    ) else {
        return Err(ExtReadFault::BadLine);
    };
    let area = numeral_in(area)?;
    let perimeter = numeral_in(perimeter)?;
    let substrate = substrate_in(alloc, substrate)?;
    let gate = side_in(alloc, gate, length)?;
    let terminals = sides_in(alloc, rest)?;
    Ok(ExtLine::Fet(FetLine {
        kind,
        corners,
        area,
        perimeter,
        substrate,
        gate,
        terminals,
    }))
}
