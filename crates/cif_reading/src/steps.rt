//! The steps of a call as they are said.
ghost use Rattle.std.specs.Prelude.{◌≡◌, ◌++◌, ◌∷◌, [], map, true, IfOk, OnOk};
ghost use Rattle.std.specs.List.{list_all};
ghost use Rattle.cif_reading.specs.Scales.{IsScale};
ghost use Rattle.cif_reading.specs.SaidSteps.{call_is_in_range, is_along_axis, move_is_in_range, move_is_whole, move_said, quarters};

use crate::boxes::is_in_range;
use crate::scales::{Scale, is_whole, scaled};
use cif_forms::SaidMove;
use cif_model::CifMove;
use std::alloc::{AllocError, Global};

fn is_along_axis(step: SaidMove) -> bool
    ensures { result ≡ is_along_axis step }
{
    match step {
        SaidMove::Toward(p, q) => { if p == 0 { q != 0 } else { q == 0 } }
        _ => true,
    }
}

/// Whether each turn is to a point of an axis.
pub fn are_along_axes(moves: &[SaidMove]) -> bool
    ensures { result ≡ list_all is_along_axis moves.now }
{
    moves.iter().all(|&step| is_along_axis(step))
}

fn move_is_in_range(step: SaidMove) -> bool
    ensures { result ≡ move_is_in_range step }
{
    match step {
        SaidMove::Shift(x, y) => is_in_range(x) && is_in_range(y),
        SaidMove::Toward(p, q) => is_in_range(p) && is_in_range(q),
        _ => true,
    }
}

fn are_in_range(moves: &[SaidMove]) -> bool
    ensures { result ≡ list_all move_is_in_range moves.now }
{
    moves.iter().all(|&step| move_is_in_range(step))
}

/// Whether all numbers of a call have 32 bits.
#[tactic(auto, unfolding(crate::specs::SaidSteps::call_is_in_range))]
pub fn call_is_in_range(n: i64, moves: &[SaidMove]) -> bool
    ensures value { result ≡ call_is_in_range n moves.now }
    ensures moves { result ≡ true → list_all move_is_in_range moves.now ≡ true }
{
    is_in_range(n) && are_in_range(moves)
}

fn move_is_whole(scale: Scale, step: SaidMove) -> bool
    requires scale { IsScale scale }
    requires range { move_is_in_range step ≡ true }
    ensures { result ≡ move_is_whole scale step }
{
    match step {
        SaidMove::Shift(x, y) => is_whole(scale, x) && is_whole(scale, y),
        _ => true,
    }
}

/// Whether all shifts are whole when they are scaled.
pub fn are_whole(scale: Scale, moves: &[SaidMove]) -> bool
    requires scale { IsScale scale }
    requires range { list_all move_is_in_range moves.now ≡ true }
    ensures { result ≡ list_all (move_is_whole scale) moves.now }
{
    for &step in moves {
        if !move_is_whole(scale, step) {
            return false;
        }
    }
    true
}

fn quarters(p: i64, q: i64) -> u8
    ensures { result ≡ quarters p q }
{
    if 0 < p {
        0
    } else if 0 < q {
        1
    } else if p < 0 {
        2
    } else {
        3
    }
}

fn move_said(scale: Scale, step: SaidMove) -> CifMove
    requires scale { IsScale scale }
    requires range { move_is_in_range step ≡ true }
    ensures { result ≡ move_said scale step }
{
    match step {
        SaidMove::Shift(x, y) => CifMove::Shift(scaled(scale, x), scaled(scale, y)),
        SaidMove::MirrorX => CifMove::MirrorX,
        SaidMove::MirrorY => CifMove::MirrorY,
        SaidMove::Toward(p, q) => CifMove::Turn(quarters(p, q)),
    }
}

fn put(moves: &mut Vec<CifMove>, step: CifMove) -> Result<(), AllocError>
    ensures { OnOk result (moves.new.items ≡ moves.old.items ++ step ∷ []) }
{
    moves.push(step)?;
    Ok(())
}

/// The steps, their shifts scaled.
pub fn moves_said(
    alloc: Global,
    scale: Scale,
    moves: &[SaidMove],
) -> Result<Vec<CifMove>, AllocError>
    requires scale { IsScale scale }
    requires range { list_all move_is_in_range moves.now ≡ true }
    ensures { IfOk result (λ said. said.items ≡ map (move_said scale) moves.now) }
{
    let mut said = Vec::with_capacity(alloc, moves.len())?;
    for &step in moves {
        put(&mut said, move_said(scale, step))?;
    }
    Ok(said)
}
