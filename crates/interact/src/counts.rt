//! How many rectangles cover each column of a row, and which columns are shared by two or more.
ghost use Rattle.std.specs.Prelude.{◌≡◌, ◌↔◌, ℤ, pos, ◌+ℤ◌, ◌≤ℤ◌, ◌<ℤ◌, true, false, AllPairs, IfOk, OnOk};
ghost use Rattle.finite_sets.specs.Lists.{In};
ghost use Rattle.geo_strips.specs.RowRuns.{AreRuns, IsInRow};
ghost use Rattle.interact.specs.declared.counts.Counts.{Even};
ghost use Rattle.interact.specs.steps.Counts.{count_of, is_shared, bounds_of, shifted, joined, of_all, IsTold, IsCut, IsCutAt};
ghost use Rattle.interact.specs.steps.Counts.{IsAdded, IsOfAll, IsPushed, IsFresh, IsSettled, refreshed, row_of};

use geo_strips::Bar;
use geo_strips::column_bounds::{begin_after, begins_before, end_before, ends_after};
use geo_strips::row_runs::{Run, cover, uncover};
use std::alloc::{AllocError, Global};
use std::collections::BTreeMap;

/// No count comes as far as this, upwards or downwards: it stands where there are no columns to count for.
const FAR: i64 = 1 << 62;

/// So many rectangles share a column.
const SHARING: i64 = 2;

/// What is known of the counts of columns.
#[derive(Clone, Copy, Debug, PartialEq, Eq)]
pub struct Bounds {
    /// No column has less.
    pub least: i64,
    /// No column has more.
    pub most: i64,
    /// No shared column has less.
    pub least_shared: i64,
    /// No column that is not shared has more.
    pub most_lone: i64,
}

/// How many rectangles cover each column, and whether the column was shared when the counts were settled last.
/// Where columns are cut nowhere this is the same for all of them.
#[cycle(counts)]
#[derive(Drop)]
pub enum Counts {
    Even(Column),
    Cut(Box<Fork>),
}

/// What columns that are cut nowhere have in common.
#[derive(Clone, Copy, Debug, PartialEq, Eq)]
pub struct Column {
    pub count: i64,
    pub shared: bool,
}

/// Columns that are cut at `at`: those before it are on the left.
#[cycle(counts)]
#[derive(Drop)]
pub struct Fork {
    at: i64,
    /// How many rectangles cover all of them, besides those that the sides count.
    extra: i64,
    /// Whether all of them are shared or none of them, whatever the sides say.
    all: Option<bool>,
    bounds: Bounds,
    left: Counts,
    right: Counts,
}

/// The runs of shared columns in the row that a sweep has come to, and the runs that have ended.
#[derive(Drop)]
pub struct SharedRuns {
    pub runs: BTreeMap<i64, Run>,
    pub ended: Vec<Bar>,
}

impl Bounds {
    /// The bounds once so many rectangles more cover all of the columns.
    fn shifted(&self, more: i64) -> Result<Bounds, AllocError>
        ensures { IfOk result (λ bounds. bounds ≡ shifted more self.now) }
    {
        Ok(Bounds {
            least: sum(self.least, more)?,
            most: sum(self.most, more)?,
            least_shared: sum(self.least_shared, more)?,
            most_lone: sum(self.most_lone, more)?,
        })
    }

    /// The bounds of these columns and others.
    fn joined(&self, other: &Bounds) -> Bounds
        ensures { result ≡ joined self.now other.now }
    {
        Bounds {
            least: self.least.min(other.least),
            most: self.most.max(other.most),
            least_shared: self.least_shared.min(other.least_shared),
            most_lone: self.most_lone.max(other.most_lone),
        }
    }

    /// The bounds if all of the columns are shared, or none.
    fn of_all(&self, shared: bool) -> Bounds
        ensures { result ≡ of_all shared self.now }
    {
        Bounds {
            least: self.least,
            most: self.most,
            least_shared: if shared { self.least } else { FAR },
            most_lone: if shared { -FAR } else { self.most },
        }
    }
}

/// Columns that are cut at each of the sides, which nothing covers.
pub fn no_counts(alloc: Global, sides: &[i64]) -> Result<Counts, AllocError>
    requires { AllPairs ◌≤ℤ◌ sides.now }
    ensures fresh { IfOk result IsFresh }
    ensures cuts { IfOk result (λ found. (v : ℤ) → In v sides.now → IsCut found v) }
{
    let nothing = Column {
        count: 0,
        shared: false,
    };
    if sides.is_empty() {
        return Ok(Counts::Even(nothing));
    }
    let middle = sides.len() / 2;
    let fork = Fork {
        at: sides[middle],
        extra: 0,
        all: None,
        bounds: nothing.bounds(),
        left: no_counts(alloc, &sides[..middle])?,
        right: no_counts(alloc, &sides[middle + 1..])?,
    };
    Ok(Counts::Cut(Box::new(alloc, fork)?))
}

impl Column {
    /// What is known of the columns.
    fn bounds(&self) -> Bounds
        ensures { result ≡ bounds_of (Even self.now) }
    {
        let one = Bounds {
            least: self.count,
            most: self.count,
            least_shared: self.count,
            most_lone: self.count,
        };
        one.of_all(self.shared)
    }
}

impl Counts {
    fn bounds(&self) -> Bounds
        ensures { result ≡ bounds_of self.now }
    {
        match self {
            Counts::Even(column) => column.bounds(),
            Counts::Cut(fork) => fork.bounds,
        }
    }

    /// So many rectangles more cover all of the columns.
    fn shift(&mut self, more: i64) -> Result<(), AllocError>
        requires { IsTold self.old }
        ensures { OnOk result (IsAdded None None more self.old self.new) }
    {
        match self {
            Counts::Even(column) => column.count = sum(column.count, more)?,
            Counts::Cut(fork) => {
                let fork = &mut **fork;
                fork.extra = sum(fork.extra, more)?;
                fork.bounds = fork.bounds.shifted(more)?;
            }
        }
        Ok(())
    }

    /// So many rectangles more cover the columns from `from` on and before `to`. `None` is no bound.
    pub fn add(&mut self, from: Option<i64>, to: Option<i64>, more: i64) -> Result<(), AllocError>
        requires told { IsTold self.old }
        requires from_cut { IsCutAt self.old from }
        requires to_cut { IsCutAt self.old to }
        ensures { OnOk result (IsAdded from to more self.old self.new) }
    {
        if from.is_none() && to.is_none() {
            return self.shift(more);
        }
        if let Counts::Cut(fork) = self {
            let fork = &mut **fork;
            let at = fork.at;
            if begins_before(from, at) {
                fork.left.add(from, end_before(to, at), more)?;
            }
            if ends_after(to, at) {
                fork.right.add(begin_after(from, at), to, more)?;
            }
            refresh(fork)?;
        }
        Ok(())
    }

    /// All of the columns are shared, or none.
    fn share(&mut self, shared: bool)
        requires { IsTold self.old }
        ensures { IsOfAll shared self.old self.new }
    {
        match self {
            Counts::Even(column) => column.shared = shared,
            Counts::Cut(fork) => {
                let fork = &mut **fork;
                fork.all = Some(shared);
                fork.bounds = fork.bounds.of_all(shared);
            }
        }
    }

    /// Settles the columns from `from` on and before `to` at the row, where `above` rectangles cover all of them besides
    /// those that are counted here: from now on those are shared, and in runs, that two or more cover. Only columns for
    /// which this changes are looked for.
    pub fn settle(
        &mut self,
        above: i64,
        from: i64,
        to: i64,
        row: i64,
        shared: &mut SharedRuns,
    ) -> Result<(), AllocError>
        requires told { IsTold self.old }
        requires apart { AreRuns (row_of shared.old) }
        requires before { (x : ℤ) → from ≤ℤ x → x <ℤ to → IsInRow (row_of shared.old) x ↔ (is_shared self.old x ≡ true) }
        ensures { OnOk result (IsSettled above from to row self.old self.new shared.old shared.new) }
    {
        if from >= to {
            return Ok(());
        }
        let bounds = self.bounds().shifted(above)?;
        if bounds.most_lone < SHARING && SHARING <= bounds.least_shared {
            return Ok(());
        }
        if SHARING <= bounds.least {
            self.share(true);
            return cover(&mut shared.runs, from, to, row, &mut shared.ended);
        }
        if bounds.most < SHARING {
            self.share(false);
            return uncover(&mut shared.runs, from, to, row, &mut shared.ended);
        }
        if let Counts::Cut(fork) = self {
            let fork = &mut **fork;
            push(fork);
            let at = fork.at;
            let above = sum(above, fork.extra)?;
            fork.left.settle(above, from, to.min(at), row, shared)?;
            fork.right.settle(above, from.max(at), to, row, shared)?;
            refresh(fork)?;
        }
        Ok(())
    }
}

/// Lets the sides say themselves whether their columns are shared.
fn push(fork: &mut Fork)
    requires { (IsTold fork.old.left) × (IsTold fork.old.right) }
    ensures { IsPushed fork.old fork.new }
{
    if let Some(shared) = fork.all {
        fork.left.share(shared);
        fork.right.share(shared);
        fork.all = None;
    }
}

/// What the sides say of the whole.
fn refresh(fork: &mut Fork) -> Result<(), AllocError>
    ensures { OnOk result (fork.new ≡ refreshed fork.old) }
{
    let bounds = fork
        .left
        .bounds()
        .joined(&fork.right.bounds())
        .shifted(fork.extra)?;
    fork.bounds = match fork.all {
        Some(shared) => bounds.of_all(shared),
        None => bounds,
    };
    Ok(())
}

/// The sum of two counts. Rectangles so many that their count does not fit have no room in memory.
fn sum(count: i64, more: i64) -> Result<i64, AllocError>
    ensures { IfOk result (λ sum. sum ≡ count +ℤ more) }
{
    count.checked_add(more).ok_or(AllocError)
}
