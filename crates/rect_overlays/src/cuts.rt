//! Where an area is cut in two.
ghost use Rattle.std.specs.Prelude.{◌≡◌, ◌≤◌, ◌<◌, ◌⊎◌, All, IfSome, IfNone, find, filter, length, not, true, false};
ghost use Rattle.rect_overlays.specs.steps.Cuts.{low_half, high_half, is_inside, is_past_low, is_past_high, IsInside};
ghost use Rattle.rect_overlays.specs.steps.Regions.{meets, goes_round, goes_round_at, has_columns, has_rows, AllMeet, AllGoRound};

use geo_core::Rect;

/// How many rectangles are looked at, at most, to choose a cut.
const SAMPLE: usize = 8;

/// Of so few members any side that cuts is as good as another: to look for the best takes longer than it spares.
const FEW: usize = 6;

/// A line along which an area is cut.
#[derive(Clone, Copy)]
pub enum Cut {
    /// It runs upwards, on the left of this column.
    Column(i64),
    /// It runs to the right, below this row.
    Row(i64),
}

impl Cut {
    /// Whether it cuts the area in two parts that have squares.
    fn is_inside(&self, area: &Rect) -> bool
        ensures { result ≡ is_inside area.now self.now }
    {
        match *self {
            Cut::Column(x) => area.xlo < x && x < area.xhi,
            Cut::Row(y) => area.ylo < y && y < area.yhi,
        }
    }

    /// The part of the area on the left of it or below it.
    pub fn low_half(&self, area: &Rect) -> Rect
        ensures { result ≡ low_half area.now self.now }
    {
        let Rect { xlo, ylo, xhi, yhi } = *area;
        match *self {
            Cut::Column(x) => Rect {
                xlo,
                ylo,
                xhi: x,
                yhi,
            },
            Cut::Row(y) => Rect {
                xlo,
                ylo,
                xhi,
                yhi: y,
            },
        }
    }

    /// The part of the area on the right of it or above it.
    pub fn high_half(&self, area: &Rect) -> Rect
        ensures { result ≡ high_half area.now self.now }
    {
        let Rect { xlo, ylo, xhi, yhi } = *area;
        match *self {
            Cut::Column(x) => Rect {
                xlo: x,
                ylo,
                xhi,
                yhi,
            },
            Cut::Row(y) => Rect {
                xlo,
                ylo: y,
                xhi,
                yhi,
            },
        }
    }

    /// Whether the rectangle goes to the left of it or below it.
    pub fn is_past_low(&self, area: &Rect) -> bool
        ensures { result ≡ is_past_low self.now area.now }
    {
        match *self {
            Cut::Column(x) => area.xlo < x,
            Cut::Row(y) => area.ylo < y,
        }
    }

    /// Whether the rectangle goes to the right of it or above it.
    pub fn is_past_high(&self, area: &Rect) -> bool
        ensures { result ≡ is_past_high self.now area.now }
    {
        match *self {
            Cut::Column(x) => x < area.xhi,
            Cut::Row(y) => y < area.yhi,
        }
    }
}

/// Whether the rectangle goes round the whole area.
pub fn goes_round(area: &Rect, rect: &Rect) -> bool
    ensures { result ≡ goes_round area.now rect.now }
{
    has_columns(area, rect) && has_rows(area, rect)
}

/// Whether the rectangle has all columns of the area.
fn has_columns(area: &Rect, rect: &Rect) -> bool
    ensures { result ≡ has_columns area.now rect.now }
{
    rect.xlo <= area.xlo && area.xhi <= rect.xhi
}

/// Whether the rectangle has all rows of the area.
fn has_rows(area: &Rect, rect: &Rect) -> bool
    ensures { result ≡ has_rows area.now rect.now }
{
    rect.ylo <= area.ylo && area.yhi <= rect.yhi
}

/// Where the area is to be cut, unless all of its members go round it.
pub fn next_cut(rects: &[Rect], area: &Rect, members: &[usize]) -> Option<Cut>
    requires within { All (λ member. member < length rects.now) members.now }
    requires meet { AllMeet rects.now area.now members.now }
    ensures some { IfSome result (IsInside area.now) }
    ensures none { IfNone result (AllGoRound rects.now area.now members.now) }
{
    let partial = first_partial(rects, area, members)?;
    Some(best_cut(rects, area, members, &rects[partial]))
}

/// The first member that doesn't go round the area.
fn first_partial(rects: &[Rect], area: &Rect, members: &[usize]) -> Option<usize>
    requires { All (λ member. member < length rects.now) members.now }
    ensures { result ≡ find (λ member. not (goes_round_at rects.now area.now member)) members.now }
{
    members
        .iter()
        .copied()
        .find(|member| !goes_round(area, &rects[*member]))
}

/// A side of a member that cuts the area: of those of a sample that which leaves few members in each half and few in both.
fn best_cut(rects: &[Rect], area: &Rect, members: &[usize], partial: &Rect) -> Cut
    requires within { All (λ member. member < length rects.now) members.now }
    requires meets { meets area.now partial.now ≡ true }
    requires partial { goes_round area.now partial.now ≡ false }
    ensures { IsInside area.now result }
{
    let mut best = inner_side(area, partial);
    if members.len() <= FEW {
        return best;
    }
    let mut sample = [*partial; SAMPLE];
    let count = sample_of(rects, members, &mut sample);
    let sample = &sample[..count];
    let mut least = cost(&best, sample);
    for rect in sample {
        for cut in sides(rect) {
            if cut.is_inside(area) {
                let cost = cost(&cut, sample);
                if cost < least {
                    best = cut;
                    least = cost;
                }
            }
        }
    }
    best
}

/// Copies rectangles that lie evenly spread over the members to the front of an array, and says how many.
fn sample_of(rects: &[Rect], members: &[usize], sample: &mut [Rect; SAMPLE]) -> usize
    requires { All (λ member. member < length rects.now) members.now }
    ensures { result ≤ SAMPLE }
{
    let step = members.len() / SAMPLE + 1;
    let mut next = step / 2;
    for count in 0..SAMPLE {
        if next >= members.len() {
            return count;
        }
        sample[count] = rects[members[next]];
        next += step;
    }
    SAMPLE
}

/// A side of the rectangle that cuts the area.
fn inner_side(area: &Rect, partial: &Rect) -> Cut
    requires meets { meets area.now partial.now ≡ true }
    requires partial { goes_round area.now partial.now ≡ false }
    ensures { IsInside area.now result }
{
    if area.xlo < partial.xlo {
        Cut::Column(partial.xlo)
    } else if partial.xhi < area.xhi {
        Cut::Column(partial.xhi)
    } else if area.ylo < partial.ylo {
        Cut::Row(partial.ylo)
    } else {
        Cut::Row(partial.yhi)
    }
}

/// The cuts along the sides of a rectangle.
fn sides(area: &Rect) -> [Cut; 4] {
    [
        Cut::Column(area.xlo),
        Cut::Column(area.xhi),
        Cut::Row(area.ylo),
        Cut::Row(area.yhi),
    ]
}

/// What a cut costs: how many of the sample are in either half, those in both twice, and how many in the fuller one.
fn cost(cut: &Cut, sample: &[Rect]) -> usize
    requires { length sample.now ≤ SAMPLE }
{
    let low = sample.iter().filter(|rect| cut.is_past_low(rect)).count();
    let high = sample.iter().filter(|rect| cut.is_past_high(rect)).count();
    low + high + low.max(high)
}
