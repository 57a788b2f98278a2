//! How much a text stands for, counted before anything is expanded.
ghost use Rattle.std.specs.Prelude.{◌≡◌, ◌+◌, ◌<◌, ◌^◌, List, map, IfOk, IfSome, MatchOption};
ghost use Rattle.cif_model.specs.Sizes.{CifSize, beside, size_of_item, size_of_items, size_of_symbol, sizes_of, size_of};
ghost use Rattle.cif_expansion.specs.steps.CappedSizes.{capped, up_to};
ghost use Rattle.cif_expansion.specs.Limits.{IsFirstPast, IsWithinLimits};

use crate::limits::{CifLimit, LONGEST_CHAIN, MOST_BOXES, MOST_INSTANCES};
use cif_model::{Cif, CifItem, CifSymbol};
use std::alloc::{AllocError, Global};

/// How much something stands for, as far as the limits go: a number that is past its limit counts as one past it.
#[derive(Clone, Copy, Debug)]
pub struct Size {
    /// Symbols in the longest chain of calls.
    depth: u32,
    /// Instances of symbols.
    instances: u32,
    /// Boxes.
    boxes: u32,
}

// What nothing stands for.
const NOTHING: Size = Size {
    depth: 0,
    instances: 0,
    boxes: 0,
};

// The sum, or one past the limit.
fn sum_up_to(limit: u32, one: u32, other: u32) -> u32
    requires { limit + 1 < 2 ^ 32 }
    ensures { result ≡ up_to limit (one + other) }
{
    one.saturating_add(other).min(limit + 1)
}

// Both, side by side.
fn beside(one: &Size, other: &Size) -> Size
    ensures { (a b : CifSize) → one.now ≡ capped a → other.now ≡ capped b → result ≡ capped (beside a b) }
{
    Size {
        depth: one.depth.max(other.depth),
        instances: sum_up_to(MOST_INSTANCES, one.instances, other.instances),
        boxes: sum_up_to(MOST_BOXES, one.boxes, other.boxes),
    }
}

// What an item stands for, where the symbols have these sizes.
fn size_of_item(sizes: &[Size], item: &CifItem) -> Size
    ensures { (known : List CifSize) → sizes.now ≡ map capped known → result ≡ capped (size_of_item known item.now) }
{
    match item {
        CifItem::Area { .. } => Size {
            boxes: 1,
            ..NOTHING
        },
        CifItem::Call { symbol, .. } => sizes.get(*symbol as usize).copied().unwrap_or(NOTHING),
    }
}

// What all items stand for together.
fn size_of_items(sizes: &[Size], items: &[CifItem]) -> Size
    ensures { (known : List CifSize) → sizes.now ≡ map capped known → result ≡ capped (size_of_items known items.now) }
{
    let mut size = NOTHING;
    for item in items {
        size = beside(&size, &size_of_item(sizes, item));
    }
    size
}

// What a symbol stands for: its items, and itself above them.
fn size_of_symbol(sizes: &[Size], symbol: &CifSymbol) -> Size
    ensures { (known : List CifSize) → sizes.now ≡ map capped known → result ≡ capped (size_of_symbol known symbol.now) }
{
    let within = size_of_items(sizes, symbol.items.items());
    Size {
        depth: sum_up_to(LONGEST_CHAIN, within.depth, 1),
        instances: sum_up_to(MOST_INSTANCES, within.instances, 1),
        boxes: within.boxes,
    }
}

// What each symbol stands for.
fn sizes_of(alloc: Global, symbols: &[CifSymbol]) -> Result<Vec<Size>, AllocError>
    ensures { IfOk result (λ sizes. sizes.items ≡ map capped (sizes_of symbols.now)) }
{
    let mut sizes = Vec::with_capacity(alloc, symbols.len())?;
    for symbol in symbols {
        sizes.push(size_of_symbol(sizes.as_slice(), symbol))?;
    }
    Ok(sizes)
}

// The first limit that the size is past.
fn passed_limit(size: &Size) -> Option<CifLimit>
    ensures within { (known : CifSize) → size.now ≡ capped known → MatchOption result (IsWithinLimits known) (λ limit. IsFirstPast limit known) }
{
    if size.depth > LONGEST_CHAIN {
        Some(CifLimit::Depth)
    } else if size.instances > MOST_INSTANCES {
        Some(CifLimit::Elements)
    } else if size.boxes > MOST_BOXES {
        Some(CifLimit::Boxes)
    } else {
        None
    }
}

/// The first limit that a text is past: only what the top level reaches counts. It takes the time of one pass over the items.
pub fn limit_of(alloc: Global, cif: &Cif) -> Result<Option<CifLimit>, AllocError>
    ensures { IfOk result (λ passed. MatchOption passed (IsWithinLimits (size_of cif.now)) (λ limit. IsFirstPast limit (size_of cif.now))) }
{
    let sizes = sizes_of(alloc, cif.symbols())?;
    Ok(passed_limit(&size_of_items(sizes.as_slice(), cif.top())))
}
