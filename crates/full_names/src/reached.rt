//! Which records a tree reaches, and by which elements first.

ghost use Rattle.std.specs.Prelude.{◌≡◌, ◌<◌, length, All, IfOk};
ghost use Rattle.full_names.specs.Reached.{AreOfRecords, AreReached};

use element_tree::ElementTree;
use std::alloc::{AllocError, Global};

/// Which records have elements, and the numbers of the first elements of these records.
#[derive(Drop)]
pub(crate) struct Reached {
    pub cells: Vec<bool>,
    pub firsts: Vec<usize>,
}

/// The records that a tree reaches, of so many.
pub(crate) fn reached_records(
    alloc: Global,
    count: usize,
    tree: &ElementTree,
) -> Result<Reached, AllocError>
    requires { AreOfRecords count tree.now.elements }
    ensures long { IfOk result (λ reached. length reached.cells.items ≡ count) }
    ensures reached { IfOk result (λ reached. AreReached tree.now.elements reached.cells.items reached.firsts.items) }
{
    let mut cells = vec![in alloc; false; count]?;
    let mut firsts = Vec::new(alloc);
    for (number, element) in tree.elements.items().iter().enumerate() {
        let cell = element.cell;
        if !cells[cell] {
            cells[cell] = true;
            firsts.push(number)?;
        }
    }
    Ok(Reached { cells, firsts })
}
