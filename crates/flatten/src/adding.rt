//! One record added to the sums of a node.
ghost use Rattle.std.specs.Prelude.{◌≡◌, length};
ghost use Rattle.flatten.specs.steps.Amounts.{FitsMeasure, FitMeasures, FitAmounts, AddsMeasure, AddMeasures, AddsAmounts};

use crate::sums::NodeSum;

// one more area and perimeter
fn add_measure(sum: &mut (i128, i128), measure: &(i128, i128))
    requires { FitsMeasure sum.old measure.now }
    ensures { AddsMeasure sum.old measure.now sum.new }
{
    sum.0 += measure.0;
    sum.1 += measure.1;
}

// one more area and perimeter in each class
fn add_measures(sums: &mut [(i128, i128)], measures: &[(i128, i128)])
    requires long { length measures.now ≡ length sums.old }
    requires fit { FitMeasures sums.old measures.now }
    ensures { AddMeasures sums.old measures.now sums.new }
{
    for (class, measure) in measures.iter().enumerate() {
        add_measure(&mut sums[class], measure);
    }
}

/// Adds what a record has of a node to the node's sums.
pub fn add_amounts(sum: &mut NodeSum, cap: i128, measures: &[(i128, i128)])
    requires long { length measures.now ≡ length sum.old.measures.items }
    requires fit { FitAmounts sum.old cap measures.now }
    ensures { AddsAmounts sum.old cap measures.now sum.new }
{
    sum.cap += cap;
    add_measures(sum.measures.as_mut_slice(), measures);
}
