//! Cells that come all at once.
ghost use Rattle.std.specs.Prelude.{◌≡◌, ◌+◌, ◌<◌, IsTrue, All, length, map, take, unwrap_or, IfOk, OnOk, OnErr, IfErr};
ghost use Rattle.std.specs.List.{position_or_len};
ghost use Rattle.std.specs.Str.{bytes_eq};
ghost use Rattle.geo_core.specs.FiniteSets.Lists.{Distinct, In};
ghost use Rattle.geo_core.specs.Images.{identity};
ghost use Rattle.cell_bodies.specs.CellPaint.Paints.{layout_of};
ghost use Rattle.cell_bodies.specs.Bodies.{IsUse};
ghost use Rattle.cell_bodies.specs.Numbers.{is_placing};
ghost use Rattle.cell_tree.specs.Additions.{MayCome, new_state, new_states};
ghost use Rattle.cell_library.specs.steps.AddedCells.{AreCellsAdded, AreFitFor, AreInTree, AreUsesAmong, HasNearLabels, TreeRefusesAll};
ghost use Rattle.cell_library.specs.steps.AddedCells.{contents_with, kept_uses, names_in, new_views, views_from};
ghost use Rattle.cell_library.specs.Additions.{first_scale, kept_use};
ghost use Rattle.cell_library.specs.Contents.{held_at};
ghost use Rattle.cell_library.specs.Edits.{transform_of};
ghost use Rattle.cell_library.specs.Limits.{AreStatesOf};
ghost use Rattle.cell_library.specs.OwnBoxes.{OwnBoxIs};
ghost use Rattle.cell_library.specs.Refusals.{EditIsRefused, HasFaultOrLacksMemory};

use crate::checks::check_edits;
use crate::contents::{Content, Contents};
use crate::faults::LibFault;
use crate::limits::MOST_EDITS;
use crate::own_boxes::box_of_own;
use crate::uses::{fault_of, transform_of};
use cell_bodies::{CellBody, CellUse};
use cell_tree::{CellTree, NewCell, UseBody};
use ext_model::CellKey;
use geo_core::Transform;
use names_lists::{List, Name};
use std::alloc::{AllocError, Global};

// The position of the cell of this name, which is there.
fn position_of(contents: &Contents, name: &[u8]) -> usize
    requires { In name.now (names_in contents.now) }
    ensures { result ≡ position_or_len (bytes_eq name.now) (names_in contents.now) }
{
    match contents.find(name) {
        Some(position) => position,
        None => unreachable!(),
    }
}

// The transform of six numbers, which are those of one.
fn placing_of(six: [i64; 6]) -> Transform
    requires { IsTrue (is_placing six) }
    ensures { result ≡ unwrap_or (transform_of six) identity }
{
    match transform_of(six) {
        Some(placed) => placed,
        None => unreachable!(),
    }
}

// A use with its id, as a library with these contents has it. Want of memory alone refuses.
fn kept_use(
    alloc: Global,
    contents: &Contents,
    used: &CellUse,
) -> Result<(Vec<u8>, UseBody), AllocError>
    requires form { IsUse used.now }
    requires child { In used.now.cell (names_in contents.now) }
    ensures { IfOk result (λ entry. (entry.0.items, entry.1) ≡ kept_use (names_in contents.now) used.now) }
{
    let id = Vec::from_slice(alloc, used.id.bytes())?;
    let child = CellKey(position_of(contents, used.cell.bytes()));
    let placed = placing_of(used.six);
    let body = UseBody {
        child,
        placed,
        grid: used.grid,
    };
    Ok((id, body))
}

// Uses with their ids, as a library with these contents has them. Want of memory alone refuses.
fn kept_uses(
    alloc: Global,
    contents: &Contents,
    uses: &[CellUse],
) -> Result<Vec<(Vec<u8>, UseBody)>, AllocError>
    requires { AreUsesAmong (names_in contents.now) uses.now }
    ensures { IfOk result (λ kept. map (λ entry. (entry.0.items, entry.1)) kept.items ≡ kept_uses contents.now uses.now) }
{
    let mut kept = Vec::new(alloc);
    for used in uses {
        kept.push(kept_use(alloc, contents, used)?)?;
    }
    Ok(kept)
}

// A cell for the tree, with the contents at this position and these uses. Want of memory alone refuses.
fn cell_of(
    alloc: Global,
    contents: &Contents,
    position: usize,
    uses: &[CellUse],
) -> Result<NewCell, AllocError>
    requires position { position < length contents.now }
    requires labels { HasNearLabels (held_at contents.now position) }
    requires uses { AreUsesAmong (names_in contents.now) uses.now }
    ensures own { IfOk result (λ cell. OwnBoxIs (layout_of (held_at contents.now position).paint) (held_at contents.now position).labels cell.own) }
    ensures uses { IfOk result (λ cell. (new_state cell).uses ≡ kept_uses contents.now uses.now) }
    ensures lawful { IfOk result (λ cell. MayCome (length contents.now) (new_state cell)) }
{
    contents.sound(position);
    let own = box_of_own(contents, position);
    let uses = kept_uses(alloc, contents, uses)?;
    Ok(NewCell { own, uses })
}

// Cells for the tree, with the contents from this position on and these uses. Want of memory alone refuses.
fn cells_from(
    alloc: Global,
    contents: &Contents,
    first: usize,
    all_uses: &[List<CellUse>],
) -> Result<Vec<NewCell>, AllocError>
    requires so_many { first + length all_uses.now ≡ length contents.now }
    requires labels { All HasNearLabels contents.now }
    requires uses { All (AreUsesAmong (names_in contents.now)) all_uses.now }
    ensures states { IfOk result (λ cells. AreStatesOf (views_from contents.now first all_uses.now) (new_states cells.items)) }
    ensures lawful { IfOk result (λ cells. All (MayCome (length contents.now)) (new_states cells.items)) }
{
    let mut cells = Vec::new(alloc);
    for position in first..contents.len() {
        let uses = all_uses[position - first].items();
        let cell = cell_of(alloc, contents, position, uses)?;
        cells.push(cell)?;
    }
    Ok(cells)
}

// Adds cells to the tree, with the contents from this position on and these uses.
fn add_to_tree(
    alloc: Global,
    contents: &Contents,
    tree: &mut CellTree,
    first: usize,
    all_uses: &[List<CellUse>],
) -> Result<(), LibFault>
    requires first { length tree.old.cells ≡ first }
    requires so_many { first + length all_uses.now ≡ length contents.now }
    requires edits { tree.old.edits < MOST_EDITS }
    requires labels { All HasNearLabels contents.now }
    requires uses { All (AreUsesAmong (names_in contents.now)) all_uses.now }
    ensures added { OnOk result (AreInTree (views_from contents.now first all_uses.now) tree.old tree.new) }
    ensures same { OnErr result (tree.new ≡ tree.old) }
    ensures fault { IfErr result (HasFaultOrLacksMemory (TreeRefusesAll contents.now (views_from contents.now first all_uses.now) tree.old)) }
{
    let cells = cells_from(alloc, contents, first, all_uses)?;
    match tree.add_all(cells) {
        Ok(()) => Ok(()),
        Err(refused) => Err(fault_of(alloc, contents, refused)),
    }
}

// Adds the contents of cells, and answers the uses of each. Want of memory alone refuses: some may have come then.
fn add_contents(
    alloc: Global,
    contents: &mut Contents,
    cells: Vec<(Name, CellBody)>,
) -> Result<Vec<List<CellUse>>, AllocError>
    requires { Distinct (names_in (contents_with contents.old cells.items)) }
    ensures added { OnOk result (contents.new ≡ contents_with contents.old cells.items) }
    ensures uses { IfOk result (λ all_uses. all_uses.items ≡ map (λ cell. cell.1.uses) cells.items) }
    ensures kept { take (length contents.old) contents.new ≡ contents.old }
{
    let mut all_uses = Vec::new(alloc);
    for (name, body) in cells {
        let CellBody {
            paint,
            uses,
            labels,
            ..
        } = body;
        let content = Content {
            name,
            paint,
            labels: labels.into_vec(),
        };
        contents.push(content)?;
        all_uses.push(uses)?;
    }
    Ok(all_uses)
}

// Adds cells to the contents and to the tree. At a refusal the tree is as before, and some contents may have come.
fn add_to_both(
    alloc: Global,
    contents: &mut Contents,
    tree: &mut CellTree,
    cells: Vec<(Name, CellBody)>,
) -> Result<(), LibFault>
    requires so_many { length tree.old.cells ≡ length contents.old }
    requires edits { tree.old.edits < MOST_EDITS }
    requires fit { AreFitFor contents.old cells.items }
    ensures contents { OnOk result (contents.new ≡ contents_with contents.old cells.items) }
    ensures tree { OnOk result (AreInTree (new_views contents.old cells.items) tree.old tree.new) }
    ensures kept { take (length contents.old) contents.new ≡ contents.old }
    ensures same { OnErr result (tree.new ≡ tree.old) }
    ensures fault { IfErr result (HasFaultOrLacksMemory
        (TreeRefusesAll (contents_with contents.old cells.items) (new_views contents.old cells.items) tree.old)) }
{
    let first = contents.len();
    match add_contents(alloc, contents, cells) {
        Ok(all_uses) => add_to_tree(alloc, contents, tree, first, all_uses.as_slice()),
        Err(_) => Err(LibFault::Memory),
    }
}

// The scale of the first cell.
fn first_scale(cells: &[(Name, CellBody)]) -> Option<(u32, u32)>
    ensures { result ≡ first_scale cells.now }
{
    match cells {
        [(_, body), ..] => Some(body.scale),
        [] => None,
    }
}

/// Adds cells with all that they have. A refusal changes nothing.
pub fn add_cells(
    alloc: Global,
    scale: &mut Option<(u32, u32)>,
    contents: &mut Contents,
    tree: &mut CellTree,
    cells: Vec<(Name, CellBody)>,
) -> Result<(), LibFault>
    requires so_many { length tree.old.cells ≡ length contents.old }
    requires fit { AreFitFor contents.old cells.items }
    ensures done { OnOk result (AreCellsAdded cells.items scale.old scale.new contents.old contents.new tree.old tree.new) }
    ensures scale { OnErr result (scale.new ≡ scale.old) }
    ensures kept { OnErr result (contents.new ≡ contents.old) }
    ensures same { OnErr result (tree.new ≡ tree.old) }
    ensures fault { IfErr result (HasFaultOrLacksMemory (EditIsRefused tree.old.edits
        (TreeRefusesAll (contents_with contents.old cells.items) (new_views contents.old cells.items) tree.old))) }
{
    check_edits(tree)?;
    let count = contents.len();
    let first = first_scale(cells.as_slice());
    match add_to_both(alloc, contents, tree, cells) {
        Ok(()) => {
            *scale = scale.or(first);
            Ok(())
        }
        Err(fault) => {
            contents.truncate(count);
            Err(fault)
        }
    }
}
