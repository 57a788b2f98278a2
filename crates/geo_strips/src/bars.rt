//! Bars: stretches of parallel lines, and how bars that touch are joined.
ghost use Rattle.std.specs.Prelude.{◌≡◌, IfOk, IsPermutation, IsSorted};
ghost use Rattle.geo_strips.specs.Bars.{meets, reaching, joined, bar_cmp};

use std::alloc::{AllocError, Global};

/// The points from `from` on and below `to` of the lines from `low` on and below `high`.
#[derive(Clone, Copy, Debug, PartialEq, Eq, PartialOrd, Ord)]
pub struct Bar {
    pub low: i64,
    pub high: i64,
    pub from: i64,
    pub to: i64,
}

impl Bar {
    /// Whether the next bar goes on where this one ends, or before that.
    fn meets(&self, next: &Bar) -> bool
        ensures { result ≡ meets self.now next.now }
    {
        self.low == next.low && self.high == next.high && next.from <= self.to
    }

    /// This bar, made as long as to reach the end of the next one too.
    fn reaching(&self, next: &Bar) -> Bar
        ensures { result ≡ reaching self.now next.now }
    {
        Bar {
            low: self.low,
            high: self.high,
            from: self.from,
            to: self.to.max(next.to),
        }
    }
}

/// Bars in order, each joined with those after it that it meets.
pub fn join(alloc: Global, bars: &[Bar]) -> Result<Vec<Bar>, AllocError>
    ensures { IfOk result (λ found. found.items ≡ joined bars.now) }
{
    let mut found = Vec::new(alloc);
    let Some(first) = bars.first() else {
        return Ok(found);
    };
    let mut bar = *first;
    for next in &bars[1..] {
        if bar.meets(next) {
            bar = bar.reaching(next);
        } else {
            found.push(bar)?;
            bar = *next;
        }
    }
    found.push(bar)?;
    Ok(found)
}

/// The bars in order.
pub fn sorted(bars: Vec<Bar>) -> Vec<Bar>
    ensures moved { IsPermutation bars.items result.items }
    ensures sorted { IsSorted bar_cmp result.items }
{
    let mut found = bars;
    found.sort_unstable();
    found
}
