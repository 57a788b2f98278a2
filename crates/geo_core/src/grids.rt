//! Grids: a child that stands in rows and columns.
ghost use Rattle.std.specs.Prelude.{◌≡◌, ℕ, ◌<◌, length, slice_get, pos, ◌≤ℤ◌, ◌*ℤ◌};
ghost use Rattle.std.specs.Int.{w32};
ghost use Rattle.std.specs.Int.RustNames.{FitsSigned};
ghost use Rattle.geo_core.specs.Elements.{indices, nth_index, element_of, elements_of, IsLawful};

use crate::limits::MOST_ELEMENTS;

/// Index i runs from `xlo` to `xhi` and index j from `ylo` to `yhi`, each upward or downward. The element
/// that is n-th in i and m-th in j, counted from 0, is displaced by `n*xsep` and `m*ysep` in the child's
/// coordinates, before the transform of its use.
#[derive(Clone, Copy, Debug, PartialEq, Eq)]
pub struct Grid {
    pub xlo: i64,
    pub xhi: i64,
    pub xsep: i64,
    pub ylo: i64,
    pub yhi: i64,
    pub ysep: i64,
}

impl Grid {
    /// How many elements the grid has.
    pub fn count(&self) -> u64
        requires { IsLawful self.now }
        ensures { result ≡ length (elements_of self.now) }
    {
        indices(self.xlo, self.xhi) * indices(self.ylo, self.yhi)
    }

    /// The indices i and j of the k-th element, counted from 0, and its displacement to the right and
    /// upward. The elements of the first j come first, in the order of i.
    pub fn element(&self, k: u64) -> (i64, i64, i64, i64)
        requires lawful { IsLawful self.now }
        requires below_count { k < length (elements_of self.now) }
        ensures nth { slice_get (elements_of self.now) k ≡ Some result }
        ensures once { (other : ℕ) → slice_get (elements_of self.now) other ≡ Some result → other ≡ k }
    {
        let (m, n) = self.row_and_column(k);
        (
            nth_index(self.xlo, self.xhi, n),
            nth_index(self.ylo, self.yhi, m),
            steps(n, self.xsep),
            steps(m, self.ysep),
        )
    }

    /// The row and the column of the k-th element, counted from 0.
    fn row_and_column(&self, k: u64) -> (i64, i64)
        requires lawful { IsLawful self.now }
        requires below_count { k < length (elements_of self.now) }
        ensures row_low { pos 0 ≤ℤ result.0 }
        ensures row_high { result.0 ≤ℤ pos MOST_ELEMENTS }
        ensures column_low { pos 0 ≤ℤ result.1 }
        ensures column_high { result.1 ≤ℤ pos MOST_ELEMENTS }
        ensures at { slice_get (elements_of self.now) k ≡ Some (element_of self.now (result.0, result.1)) }
    {
        let columns = indices(self.xlo, self.xhi);
        ((k / columns) as i64, (k % columns) as i64)
    }
}

/// How many values an index has that runs from one end to the other.
fn indices(from: i64, to: i64) -> u64
    requires from_fits { FitsSigned w32 from }
    requires to_fits { FitsSigned w32 to }
    ensures { result ≡ indices from to }
{
    from.abs_diff(to) + 1
}

/// The n-th value, counted from 0, of an index that runs from one end to the other.
fn nth_index(from: i64, to: i64, n: i64) -> i64
    requires from_fits { FitsSigned w32 from }
    requires not_before { pos 0 ≤ℤ n }
    requires not_far { n ≤ℤ pos MOST_ELEMENTS }
    ensures { result ≡ nth_index from to n }
{
    if from <= to { from + n } else { from - n }
}

/// So many steps of this length.
fn steps(n: i64, length: i64) -> i64
    requires not_before { pos 0 ≤ℤ n }
    requires not_far { n ≤ℤ pos MOST_ELEMENTS }
    requires fits { FitsSigned w32 length }
    ensures { result ≡ n *ℤ length }
{
    n * length
}
