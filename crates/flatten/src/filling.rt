//! Sums put into nodes.
ghost use Rattle.std.specs.Prelude.{◌≡◌, length};
ghost use Rattle.flatten.specs.steps.Filled.{AreFilled};

use crate::sums::NodeSum;
use ext_model::NodeRec;
use names_lists::List;

/// The nodes with these sums in them. It takes no memory.
pub fn with_sums(mut nodes: Vec<NodeRec>, mut sums: Vec<NodeSum>) -> Vec<NodeRec>
    requires { length sums.items ≡ length nodes.items }
    ensures { AreFilled nodes.items sums.items result.items }
{
    while let Some(sum) = sums.pop() {
        let NodeSum { cap, measures } = sum;
        let node = &mut nodes[sums.len()];
        node.cap = cap;
        node.measures = List::of(measures);
    }
    nodes
}
