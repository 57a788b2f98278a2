//! The numbers of classes.
ghost use Rattle.std.specs.Prelude.{◌≡◌, ◌⊎◌, ◌<◌, length, IfOk, IfErr};
ghost use Rattle.element_tree.specs.Trees.{IsTreeOf};
ghost use Rattle.flat_limits.specs.Counts.{HasNoClassFault, IsClassFaultOf};

use circuit_model::FlatFault;
use element_tree::ElementTree;
use ext_model::CellExt;
use names_lists::Name;
use std::alloc::Global;

// the refusal for the classes of this cell
fn class_fault(alloc: Global, cell: &Name) -> FlatFault
    ensures { (result ≡ FlatFault.Memory) ⊎ (result ≡ FlatFault.Classes cell.now) }
{
    match cell.copy(alloc) {
        Ok(cell) => FlatFault::Classes(cell),
        Err(_) => FlatFault::Memory,
    }
}

/// The record of each element has as many classes as the root's. It takes a step for each element.
///
/// The first element whose record has another number is refused as `Classes` with its cell; beside that `Memory` alone refuses.
pub fn check_classes(
    alloc: Global,
    exts: &[CellExt],
    root: usize,
    tree: &ElementTree,
) -> Result<(), FlatFault>
    requires root { root < length exts.now }
    requires tree { IsTreeOf exts.now root tree.now }
    ensures alike { IfOk result (λ _. HasNoClassFault exts.now root) }
    ensures fault { IfErr result (λ fault. (fault ≡ FlatFault.Memory) ⊎ IsClassFaultOf exts.now root fault) }
{
    let classes = exts[root].classes.items().len();
    for element in tree.elements.items() {
        let ext = &exts[element.cell];
        if ext.classes.items().len() != classes {
            return Err(class_fault(alloc, &ext.cell));
        }
    }
    Ok(())
}
