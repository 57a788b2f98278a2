//! Cells that come.
ghost use Rattle.std.specs.Prelude.{◌≡◌, ◌≤◌, ◌<◌, ◌++◌, ◌∷◌, [], None, length, IsSome, IsOkUnless, IfOk, OnOk, OnErr, IfErr};
ghost use Rattle.cell_bodies.specs.LayoutModel.Places.{Place};
ghost use Rattle.cell_bodies.specs.CellPaint.Paints.{layout_of};
ghost use Rattle.cell_tree.specs.Trees.{IsAdded};
ghost use Rattle.cell_library.specs.steps.CellEdits.{IsCellAdded};
ghost use Rattle.cell_library.specs.Contents.{held_of, position_of};
ghost use Rattle.cell_library.specs.Refusals.{EditIsRefused, FirstOf, NothingElse, HasFaultOrLacksMemory};

use crate::contents::{Content, Contents};
use crate::faults::LibFault;
use crate::limits::{LibraryLimit, MOST_CELLS, MOST_EDITS};
use cell_bodies::cell_paint::CellPaint;
use cell_tree::CellTree;
use ext_model::CellKey;
use names_lists::Name;
use std::alloc::{AllocError, Global};
use tech_model::Tech;

// Refuses a new cell where there were too many edits, where there is one of the name, and where there are too many.
fn check_new(contents: &Contents, tree: &CellTree, name: &Name) -> Result<(), LibFault>
    ensures few_edits { OnOk result (tree.now.edits < MOST_EDITS) }
    ensures unknown { OnOk result (position_of name.now contents.now ≡ None) }
    ensures few { OnOk result (length contents.now < MOST_CELLS) }
    ensures fault { IfErr result (EditIsRefused tree.now.edits (FirstOf (IsSome (position_of name.now contents.now)) LibFault.CellExists
        (FirstOf (MOST_CELLS ≤ length contents.now) (LibFault.TooMany LibraryLimit.Cells) NothingElse))) }
{
    if tree.edits() == MOST_EDITS {
        return Err(LibFault::TooMany(LibraryLimit::Edits));
    }
    if contents.find(name.bytes()).is_some() {
        return Err(LibFault::CellExists);
    }
    if contents.len() >= MOST_CELLS {
        return Err(LibFault::TooMany(LibraryLimit::Cells));
    }
    Ok(())
}

// A cell without paint and labels.
fn empty_content(alloc: Global, tech: &Tech, name: Name) -> Result<Content, LibFault>
    ensures name { IfOk result (λ content. content.name ≡ name) }
    ensures kinds { IfOk result (λ content. content.paint.kinds ≡ tech.now.types) }
    ensures planes { IfOk result (λ content. length content.paint.planes ≡ length tech.now.planes) }
    ensures empty { IfOk result (λ content. (place : Place) → layout_of content.paint place ≡ 0) }
    ensures labels { IfOk result (λ content. content.labels.items ≡ []) }
    ensures memory { IsOkUnless result LibFault.Memory }
{
    let paint = CellPaint::new(alloc, tech)?;
    Ok(Content {
        name,
        paint,
        labels: Vec::new(alloc),
    })
}

// Adds the content and a cell of the tree, or neither.
fn add_both(
    contents: &mut Contents,
    tree: &mut CellTree,
    content: Content,
) -> Result<usize, AllocError>
    requires so_many { length tree.old.cells ≡ length contents.old }
    requires unknown { position_of content.name contents.old ≡ None }
    requires edits { tree.old.edits < MOST_EDITS }
    ensures contents { OnOk result (contents.new ≡ contents.old ++ held_of content ∷ []) }
    ensures tree { OnOk result (IsAdded tree.old tree.new) }
    ensures key { IfOk result (λ cell. cell ≡ length contents.old) }
    ensures kept { OnErr result (contents.new ≡ contents.old) }
    ensures same { OnErr result (tree.new ≡ tree.old) }
{
    contents.push(content)?;
    match tree.add_cell() {
        Ok(cell) => Ok(cell),
        Err(error) => {
            contents.pop();
            Err(error)
        }
    }
}

/// Adds an empty cell. A refusal changes nothing.
pub fn new_cell(
    alloc: Global,
    tech: &Tech,
    scale: &mut Option<(u32, u32)>,
    contents: &mut Contents,
    tree: &mut CellTree,
    name: Name,
) -> Result<CellKey, LibFault>
    requires so_many { length tree.old.cells ≡ length contents.old }
    ensures done { OnOk result (IsCellAdded tech.now name scale.old scale.new contents.old contents.new tree.old tree.new) }
    ensures key { IfOk result (λ key. key.0 ≡ length contents.old) }
    ensures scale { OnErr result (scale.new ≡ scale.old) }
    ensures kept { OnErr result (contents.new ≡ contents.old) }
    ensures same { OnErr result (tree.new ≡ tree.old) }
    ensures fault { IfErr result (HasFaultOrLacksMemory (EditIsRefused tree.old.edits (FirstOf (IsSome (position_of name contents.old)) LibFault.CellExists
        (FirstOf (MOST_CELLS ≤ length contents.old) (LibFault.TooMany LibraryLimit.Cells) NothingElse)))) }
{
    check_new(contents, tree, &name)?;
    let content = empty_content(alloc, tech, name)?;
    let cell = add_both(contents, tree, content)?;
    *scale = Some(scale.unwrap_or((1, 1)));
    Ok(CellKey(cell))
}
