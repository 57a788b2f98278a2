//! Which records elements have.
ghost use Rattle.std.specs.Prelude.{◌≡◌, IfOk, length};
ghost use Rattle.name_classes.specs.FullNames.Names.{AreNames};
ghost use Rattle.flatten.specs.steps.Spots.{AreReached};

use element_tree::ElementTree;
use name_classes::full_names::FullNames;
use std::alloc::{AllocError, Global};

/// At each record whether an element has it. Want of memory alone refuses.
pub fn reached_cells(
    alloc: Global,
    tree: &ElementTree,
    names: &FullNames<'_>,
    count: usize,
) -> Result<Vec<bool>, AllocError>
    requires names { AreNames names.now }
    requires tree { tree.now ≡ names.now.tree.now }
    requires count { count ≡ length names.now.exts.now }
    ensures { IfOk result (λ reached. AreReached names.now reached.items) }
{
    let mut reached = vec![in alloc; false; count]?;
    for element in tree.elements.items() {
        reached[element.cell] = true;
    }
    Ok(reached)
}
