//! The paths of elements, written out.
ghost use Rattle.std.specs.Prelude.{◌≡◌, ◌<◌, Some, length, slice_get, IfSome, IfNone, OnOk};
ghost use Rattle.ext_model.specs.declared.records.UseRec.{UseRec};
ghost use Rattle.ext_model.specs.declared.records.CellExt.{CellExt};
ghost use Rattle.full_names.specs.steps.Paths.{IsTree, IsAtRoot, LeadsFrom, EndsInPath};

use element_tree::ElementTree;
use ext_model::{CellExt, SLASH};
use std::alloc::AllocError;

/// The last use that leads to an element: the number of the element that it stands in, and its name.
#[derive(Clone, Copy)]
pub(crate) struct LastUse<'a> {
    pub parent: usize,
    pub id: &'a [u8],
}

// the name of a use of a record
fn name_of_use(exts: &[CellExt], cell: usize, at: usize) -> &[u8]
    requires cell { cell < length exts.now }
    requires at { (ext : CellExt) → slice_get exts.now cell ≡ Some ext → at < length ext.uses }
    ensures { (ext : CellExt) (used : UseRec) → slice_get exts.now cell ≡ Some ext → slice_get ext.uses at ≡ Some used → result.now ≡ used.id }
{
    exts[cell].uses.items()[at].id.bytes()
}

// the last use that leads to an element
fn last_use<'a>(exts: &'a [CellExt], tree: &ElementTree, number: usize) -> Option<LastUse<'a>>
    requires tree { IsTree exts.now tree.now }
    requires number { number < length tree.now.elements }
    ensures none { IfNone result (IsAtRoot exts.now tree.now number) }
    ensures some { IfSome result (λ used. LeadsFrom exts.now tree.now used.parent used.id.now number) }
{
    let element = tree.elements.items()[number];
    if element.depth == 0 {
        return None;
    }
    let cell = tree.elements.items()[element.parent].cell;
    Some(LastUse {
        parent: element.parent,
        id: name_of_use(exts, cell, element.at),
    })
}

/// Puts the names of the elements that lead to an element at the end of a text, with a slash behind each.
pub(crate) fn append_path(
    exts: &[CellExt],
    tree: &ElementTree,
    number: usize,
    out: &mut Vec<u8>,
) -> Result<(), AllocError>
    requires tree { IsTree exts.now tree.now }
    requires number { number < length tree.now.elements }
    ensures { OnOk result (EndsInPath exts.now tree.now number out.old.items out.new.items) }
{
    match last_use(exts, tree, number) {
        None => Ok(()),
        Some(LastUse { parent, id }) => {
            append_path(exts, tree, parent, out)?;
            out.extend_from_slice(id)?;
            out.push(SLASH)?;
            Ok(())
        }
    }
}
