//! Capacitances of areas and perimeters that may be negative.
ghost use Rattle.std.specs.Prelude.{◌≡◌, ◌≤◌, ◌^◌, pos, neg_ℤ, ◌+ℤ◌, ◌*ℤ◌, ◌≤ℤ◌, All, length, map};
ghost use Rattle.offences.specs.LayoutModel.Technologies.{capacitance, class_of};
ghost use Rattle.meeting_sums.specs.steps.Counts.{IsSmallSum};

use tech_model::{ClassRec, LARGEST_MEASURE, Tech};

/// The capacitance of so many squares or edges, in attofarads.
fn charge(units: i128, per_unit: u64) -> i128
    requires least { neg_ℤ (pos (2 ^ 84)) ≤ℤ units }
    requires most { units ≤ℤ pos (2 ^ 84) }
    requires per_unit { per_unit ≤ LARGEST_MEASURE }
    ensures value { result ≡ units *ℤ pos per_unit }
    ensures least { neg_ℤ (pos (2 ^ 104)) ≤ℤ result }
    ensures most { result ≤ℤ pos (2 ^ 104) }
{
    units * i128::from(per_unit)
}

/// The capacitance of an area and a perimeter in the class, in attofarads.
fn capacitance_in(class: &ClassRec, area: i128, perimeter: i128) -> i128
    requires per_area { class.now.per_area ≤ LARGEST_MEASURE }
    requires per_perimeter { class.now.per_perimeter ≤ LARGEST_MEASURE }
    requires small { IsSmallSum (area, perimeter) }
    ensures value { result ≡ (area *ℤ pos class.now.per_area) +ℤ (perimeter *ℤ pos class.now.per_perimeter) }
    ensures least { neg_ℤ (pos (2 ^ 105)) ≤ℤ result }
    ensures most { result ≤ℤ pos (2 ^ 105) }
{
    charge(area, class.per_area) + charge(perimeter, class.per_perimeter)
}

/// The capacitance of these areas and perimeters, a pair for each class, in attofarads.
///
/// Areas are at most 2^81 in absolute value and perimeters at most 2^84, as those beyond parts are.
pub fn capacitance_of(tech: &Tech, measures: &[(i128, i128)]) -> i128
    requires one_each { length measures.now ≡ length tech.now.classes }
    requires small { All IsSmallSum measures.now }
    ensures { result ≡ capacitance (map class_of tech.now.classes) measures.now }
{
    let classes = tech.raw().classes.items();
    let mut sum = 0;
    for (k, measure) in measures.iter().enumerate() {
        let (area, perimeter) = *measure;
        sum += capacitance_in(&classes[k], area, perimeter);
    }
    sum
}
