//! Columns from a bound on and before another: what they have on either side of a cut. `None` is no bound.
ghost use Rattle.std.specs.Prelude.{◌≡◌};
ghost use Rattle.geo_strips.specs.Coverage.{begins_before, ends_after, begin_after, end_before};

/// Whether the columns begin before `at`.
pub fn begins_before(from: Option<i64>, at: i64) -> bool
    ensures { result ≡ begins_before from at }
{
    match from {
        Some(from) => from < at,
        None => true,
    }
}

/// Whether they go on to `at` and beyond.
pub fn ends_after(to: Option<i64>, at: i64) -> bool
    ensures { result ≡ ends_after to at }
{
    match to {
        Some(to) => at < to,
        None => true,
    }
}

/// The bound, if it is beyond `at`.
pub fn begin_after(from: Option<i64>, at: i64) -> Option<i64>
    ensures { result ≡ begin_after from at }
{
    match from {
        Some(from) if at < from => Some(from),
        _ => None,
    }
}

/// The bound, if it is before `at`.
pub fn end_before(to: Option<i64>, at: i64) -> Option<i64>
    ensures { result ≡ end_before to at }
{
    match to {
        Some(to) if to < at => Some(to),
        _ => None,
    }
}
