//! Capacitances.
ghost use Rattle.std.specs.Prelude.{◌≡◌, ◌≤◌, ◌^◌, pos, ◌+ℤ◌, ◌*ℤ◌, ◌≤ℤ◌, All, length, map};
ghost use Rattle.layout_model.specs.Technologies.{capacitance, class_of};
ghost use Rattle.measures.specs.Bounds.{IsSmallMeasure};

use tech_model::{ClassRec, LARGEST_MEASURE, Tech};

/// The capacitance of so many squares or edges, in attofarads.
fn charge(units: i128, per_unit: u64) -> i128
    requires some { pos 0 ≤ℤ units }
    requires few { units ≤ℤ pos (2 ^ 63) }
    requires per_unit { per_unit ≤ LARGEST_MEASURE }
    ensures value { result ≡ units *ℤ pos per_unit }
    ensures not_negative { pos 0 ≤ℤ result }
    ensures small { result ≤ℤ pos (2 ^ 83) }
{
    units * i128::from(per_unit)
}

/// The capacitance of a node's material of one class, in attofarads.
fn capacitance_in(class: &ClassRec, area: i128, perimeter: i128) -> i128
    requires per_area { class.now.per_area ≤ LARGEST_MEASURE }
    requires per_perimeter { class.now.per_perimeter ≤ LARGEST_MEASURE }
    requires small { IsSmallMeasure (area, perimeter) }
    ensures value { result ≡ (area *ℤ pos class.now.per_area) +ℤ (perimeter *ℤ pos class.now.per_perimeter) }
    ensures not_negative { pos 0 ≤ℤ result }
    ensures small { result ≤ℤ pos (2 ^ 84) }
{
    charge(area, class.per_area) + charge(perimeter, class.per_perimeter)
}

/// The capacitance of a node with these areas and perimeters, a pair for each class, in attofarads.
///
/// Areas are at most 2^61 and perimeters at most 2^63, as those of all paint are.
pub fn capacitance_of(tech: &Tech, measures: &[(i128, i128)]) -> i128
    requires one_each { length measures.now ≡ length tech.now.classes }
    requires small { All IsSmallMeasure measures.now }
    ensures value { result ≡ capacitance (map class_of tech.now.classes) measures.now }
    ensures not_negative { pos 0 ≤ℤ result }
    ensures small { result ≤ℤ pos (2 ^ 88) }
{
    let classes = tech.raw().classes.items();
    let mut sum = 0;
    for (k, measure) in measures.iter().enumerate() {
        let (area, perimeter) = *measure;
        sum += capacitance_in(&classes[k], area, perimeter);
    }
    sum
}
