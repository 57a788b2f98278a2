//! Names of nodes.
ghost use Rattle.std.specs.Prelude.{◌≡◌, ◌<◌, IfOk, length};
ghost use Rattle.cell_records.specs.steps.FetsOfRegions.{name_at};

use ext_model::NodeRec;
use names_lists::Name;
use std::alloc::{AllocError, Global};

/// The name of the node with this number.
pub fn name_at(alloc: Global, nodes: &[NodeRec], number: usize) -> Result<Name, AllocError>
    requires { number < length nodes.now }
    ensures { IfOk result (λ name. name ≡ name_at nodes.now number) }
{
    nodes[number].name.copy(alloc)
}
