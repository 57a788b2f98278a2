//! Up to which row each column is covered.
ghost use Rattle.std.specs.Prelude.{◌≡◌, ℤ, ◌≤ℤ◌, ◌<ℤ◌, AllPairs, IfOk, OnOk};
ghost use Rattle.std.specs.Int.{int_max, int_min};
ghost use Rattle.geo_core.specs.FiniteSets.Lists.{In};
ghost use Rattle.geo_strips.specs.Coverage.{until, least_of, most_of, IsTopped, IsCut, IsCutAt, IsRaised, AddsColumns, IsGap};

use crate::column_bounds::{begin_after, begins_before, end_before, ends_after};
use std::alloc::{AllocError, Global};

/// A range of columns, those from `from` on and below `to`.
#[derive(Clone, Copy, Debug, PartialEq, Eq)]
pub struct Gap {
    pub from: i64,
    pub to: i64,
}

/// A row for each column: the one below which the column is covered. Where columns are cut nowhere there is one
/// such row for all of them.
#[cycle(coverage)]
#[derive(Drop)]
pub enum Coverage {
    Even(i64),
    Cut(Box<Fork>),
}

/// Columns that are cut at `at`: those before it are on the left. They are covered below the row `least` at
/// least, and none of them is beyond `most`.
#[cycle(coverage)]
#[derive(Drop)]
pub struct Fork {
    at: i64,
    least: i64,
    most: i64,
    left: Coverage,
    right: Coverage,
}

/// Columns that are cut at each of the sides, and covered below the row `lowest`.
pub fn uncovered(alloc: Global, sides: &[i64], lowest: i64) -> Result<Coverage, AllocError>
    requires { AllPairs ◌≤ℤ◌ sides.now }
    ensures rows { IfOk result (λ found. (x : ℤ) → until found x ≡ lowest) }
    ensures cuts { IfOk result (λ found. (v : ℤ) → In v sides.now → IsCut found v) }
    ensures topped { IfOk result IsTopped }
    ensures most { IfOk result (λ found. most_of found ≡ lowest) }
{
    if sides.is_empty() {
        return Ok(Coverage::Even(lowest));
    }
    let middle = sides.len() / 2;
    let at = sides[middle];
    let left = uncovered(alloc, &sides[..middle], lowest)?;
    let right = uncovered(alloc, &sides[middle + 1..], lowest)?;
    let fork = Fork {
        at,
        least: lowest,
        most: lowest,
        left,
        right,
    };
    Ok(Coverage::Cut(Box::new(alloc, fork)?))
}

impl Coverage {
    /// A row below which all the columns are covered.
    fn least(&self) -> i64
        ensures { result ≡ least_of self.now }
    {
        match self {
            Coverage::Even(row) => *row,
            Coverage::Cut(fork) => fork.least,
        }
    }

    /// A row beyond which no column is covered.
    fn most(&self) -> i64
        ensures { result ≡ most_of self.now }
    {
        match self {
            Coverage::Even(row) => *row,
            Coverage::Cut(fork) => fork.most,
        }
    }

    /// Covers all columns below the row `top`.
    fn lift(&mut self, top: i64)
        requires { IsTopped self.old }
        ensures { IsRaised None None top self.old self.new }
    {
        match self {
            Coverage::Even(row) => *row = (*row).max(top),
            Coverage::Cut(fork) => {
                let fork = &mut **fork;
                fork.least = fork.least.max(top);
                fork.most = fork.most.max(top);
            }
        }
    }

    /// Covers the columns from `from` on and before `to` below the row `top`. `None` is no bound.
    pub fn raise(&mut self, from: Option<i64>, to: Option<i64>, top: i64)
        requires topped { IsTopped self.old }
        requires from_cut { IsCutAt self.old from }
        requires to_cut { IsCutAt self.old to }
        ensures { IsRaised from to top self.old self.new }
    {
        if from.is_none() && to.is_none() {
            self.lift(top);
            return;
        }
        if let Coverage::Cut(fork) = self {
            let fork = &mut **fork;
            let at = fork.at;
            if begins_before(from, at) {
                fork.left.raise(from, end_before(to, at), top);
            }
            if ends_after(to, at) {
                fork.right.raise(begin_after(from, at), to, top);
            }
            refresh(fork);
        }
    }

    /// Adds the columns from `from` on and before `to` that are not covered in the row `row`.
    pub fn add_gaps(
        &self,
        from: i64,
        to: i64,
        row: i64,
        gaps: &mut Vec<Gap>,
    ) -> Result<(), AllocError>
        requires { IsTopped self.now }
        ensures { OnOk result (AddsColumns (IsGap self.now from to row) gaps.old.items gaps.new.items) }
    {
        if from >= to || row < self.least() {
            return Ok(());
        }
        if self.most() <= row {
            return add_gap(gaps, from, to);
        }
        if let Coverage::Cut(fork) = self {
            let fork = &**fork;
            fork.left.add_gaps(from, to.min(fork.at), row, gaps)?;
            fork.right.add_gaps(from.max(fork.at), to, row, gaps)?;
        }
        Ok(())
    }
}

/// What the sides say of the whole.
fn refresh(fork: &mut Fork)
    ensures { fork.new ≡ record fork.old {
      least = int_max fork.old.least (int_min (least_of fork.old.left) (least_of fork.old.right));
      most = int_max fork.old.most (int_max (most_of fork.old.left) (most_of fork.old.right));
    } }
{
    let least = fork.left.least().min(fork.right.least());
    let most = fork.left.most().max(fork.right.most());
    fork.least = fork.least.max(least);
    fork.most = fork.most.max(most);
}

/// Adds a range, which goes on where the last one ended, or is one more.
fn add_gap(gaps: &mut Vec<Gap>, from: i64, to: i64) -> Result<(), AllocError>
    requires { from <ℤ to }
    ensures { OnOk result (AddsColumns (λ x. (from ≤ℤ x) × (x <ℤ to)) gaps.old.items gaps.new.items) }
{
    let Some(last) = gaps.pop() else {
        gaps.push(Gap { from, to })?;
        return Ok(());
    };
    if last.to == from {
        gaps.push(Gap {
            from: from.min(last.from),
            to,
        })?;
        return Ok(());
    }
    gaps.push(last)?;
    gaps.push(Gap { from, to })?;
    Ok(())
}
