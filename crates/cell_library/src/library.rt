//! The library.
ghost use Rattle.std.specs.Prelude.{◌≡◌, ◌<◌, ◌≤◌, ℕ, All, map, None, [], length, IsTrue, IfOk, IfSome, OnOk, OnErr, slice_get};
ghost use Rattle.std.specs.Prelude.{IsOkUnless};
ghost use Rattle.std.specs.Option.{option_map};
ghost use Rattle.ext_model.specs.TextScan.PlainNames.{is_plain_name};
ghost use Rattle.geo_core.specs.Areas.{IsNear};
ghost use Rattle.geo_core.specs.Covering.{IsProper};
ghost use Rattle.cell_tree.specs.UseOrders.LibraryOrder.{IsLibraryOrder};
ghost use Rattle.cell_bodies.specs.CellPaint.Paints.{layout_of, IsSoundPaint};
ghost use Rattle.cell_bodies.specs.CellPaint.Pieces.{with_pieces, AreTakenOut, CanStandIn};
ghost use Rattle.cell_bodies.specs.Words.{is_use_id, is_label_text};
ghost use Rattle.cell_bodies.specs.Numbers.{is_index, is_position};
ghost use Rattle.cell_tree.specs.Trees.{empty_tree, stamp_at};
ghost use Rattle.cell_library.specs.Additions.{AddAllIsRefused, AreNextCells, CanBeAdded, children_in, with_all};
ghost use Rattle.cell_library.specs.Edits.{with_new_cell, painted, erased, labelled, unlabelled, placed, with_grid, moved, without_use};
ghost use Rattle.cell_library.specs.Contents.{IsSoundHeld};
ghost use Rattle.cell_library.specs.Limits.{HullIs};
ghost use Rattle.cell_library.specs.Refusals.{Answers, AnswersOrLacksMemory, EditIsRefused, NewCellIsRefused, PaintIsRefused, EraseIsRefused};
ghost use Rattle.cell_library.specs.Refusals.{NothingElse, has_id};
ghost use Rattle.cell_library.specs.Refusals.{LabelIsRefused, UnlabelIsRefused, PlaceIsRefused, ArrayIsRefused, MoveIsRefused, DeleteIsRefused};
ghost use Rattle.cell_library.specs.LawfulViews.{IsLawfulView, IsSoundView};
ghost use Rattle.cell_library.specs.PutBackUses.{place_of};
ghost use Rattle.cell_library.specs.Restorations.{regridded, relabelled, repainted, with_use_at, without_last_label};
ghost use Rattle.cell_library.specs.Views.{cell_named, view_at};

use crate::adding::new_cell;
use crate::additions::add_cells;
use crate::contents::Contents;
use crate::faults::LibFault;
use crate::opened::Opened;
use crate::own_restorations::{drop_last_label_of, put_back_cell, set_labels_of};
use crate::painting::{erase_cell, label_cell, paint_cell, unlabel_cell};
use crate::reader::Reader;
use crate::uses::{delete_use, insert_use, move_use, place_array, place_use, regrid};
use cell_bodies::CellBody;
use cell_bodies::cell_paint::CellPaint;
use cell_tree::{CellTree, UseBody};
use ext_model::CellKey;
use geo_core::{Grid, Piece, Rect};
use names_lists::Name;
use std::alloc::{AllocError, Global};
use std::marker::Model;
use std::sync::ledger::{Blank, Ledger};
use tech_model::{Label, LayerId, Tech};

/// Cells in order of arrival, each with its paint, its labels and its uses of other cells, over one technology.
///
/// A cell's key is its position: cells never leave. The library is lawful at any time, as `lawful` says. Keys and layers that are handed
/// in are the library's, cell names are plain, ids of uses and labels are of their forms, and the indices of a grid fit 32 bits with
/// sign. An edit is all or nothing, and takes its memory first. It raises the stamps of its cell and of all above it, and no others.
pub struct Library {
    alloc: Global,
    tech: Tech,
    scale: Option<(u32, u32)>,
    contents: Contents,
    tree: CellTree,
}

impl Drop for Library {
    fn drop(self) {
        let Library {
            alloc: _,
            tech: _,
            scale: _,
            contents: _,
            tree: _,
        } = self;
    }
}

impl Model for Library {
    ghost use Rattle.cell_library.specs.Libraries.{LibraryParts, parts_code};

    ghost Value = { LibraryParts };

    ghost coded = { parts_code };

    ghost use Rattle.cell_library.specs.Libraries.{IsLawfulLibrary};

    ghost view = { λ library. record { tech = library.tech; scale = library.scale; contents = library.contents; tree = library.tree } };

    ghost invariant = { λ library. IsLawfulLibrary (record { tech = library.tech; scale = library.scale; contents = library.contents; tree = library.tree }) };
}

impl Library {
    ghost use Rattle.cell_library.specs.Libraries.{seen, edits_of, IsLawfulLibrary, IsNextCell, IsNextEdit, IsSame};

    /// A library without cells. It takes no memory now.
    pub fn new(alloc: Global, tech: Tech) -> Library
        ensures { result ≡ record { tech = tech; scale = None; contents = []; tree = empty_tree } }
    {
        let _ = tech.raw();
        Library {
            alloc,
            tech,
            scale: None,
            contents: Contents::new(alloc),
            tree: CellTree::new(alloc),
        }
    }

    /// What holds of each library.
    pub fn lawful(&self)
        ensures { IsLawfulLibrary self.now }
    {
        let _ = &self.tech;
    }

    /// What holds of what is seen of each library.
    pub fn sound_view(&self)
        ensures { IsSoundView (seen self.now) }
    {
        self.lawful();
        self.all_sound();
    }

    /// The cell of this name.
    pub fn find(&self, name: &[u8]) -> Option<CellKey>
        ensures { option_map (λ key. key.0) result ≡ cell_named (seen self.now) name.now }
    {
        match self.contents.find(name) {
            Some(cell) => Some(CellKey(cell)),
            None => None,
        }
    }

    /// How many cells there are.
    pub fn cell_count(&self) -> usize
        ensures { result ≡ length self.now.contents }
    {
        self.contents.len()
    }

    /// The scale, two numbers that are compared one by one. None exactly where there is no cell.
    pub fn scale(&self) -> Option<(u32, u32)>
        ensures { result ≡ self.now.scale }
    {
        self.scale
    }

    /// The technology.
    pub fn tech(&self) -> &Tech
        ensures { result.now ≡ self.now.tech }
    {
        &self.tech
    }

    /// The number of the edit that last changed the cell or a cell below it.
    pub fn stamp(&self, cell: CellKey) -> u64
        requires { cell.0 < length self.now.contents }
        ensures { result ≡ stamp_at self.now.tree.stamps cell.0 }
    {
        self.tree.stamp(cell.0)
    }

    /// The smallest rectangle that holds the cell's own material, its labels and the hulls of its elements.
    pub fn hull(&self, cell: CellKey) -> Option<Rect>
        requires { cell.0 < length self.now.contents }
        ensures { HullIs (seen self.now) cell.0 result }
    {
        self.tree.hull(cell.0)
    }

    /// The tree of the cells.
    pub(crate) fn tree(&self) -> &CellTree
        ensures { result.now ≡ self.now.tree }
    {
        &self.tree
    }

    /// Where memory is taken from.
    pub(crate) fn alloc(&self) -> Global {
        self.alloc
    }

    /// The name of the cell.
    pub fn name_of(&self, cell: CellKey) -> &Name
        requires { cell.0 < length self.now.contents }
        ensures { result.now ≡ (view_at (seen self.now) cell.0).name }
    {
        &self.contents.get(cell.0).name
    }

    /// The cell's own paint.
    pub fn paint_of(&self, cell: CellKey) -> &CellPaint
        requires { cell.0 < length self.now.contents }
        ensures own { layout_of result.now ≡ (view_at (seen self.now) cell.0).own }
        ensures kinds { result.now.kinds ≡ self.now.tech.types }
        ensures planes { length result.now.planes ≡ length self.now.tech.planes }
    {
        &self.contents.get(cell.0).paint
    }

    /// What holds of the cell's own paint.
    pub fn sound(&self, cell: CellKey)
        requires { cell.0 < length self.now.contents }
        ensures { IsSoundPaint self.now.tech.types (view_at (seen self.now) cell.0).own }
    {
        self.contents.sound(cell.0);
    }

    /// What holds of the paint of each cell.
    pub(crate) fn all_sound(&self)
        ensures { All IsSoundHeld self.now.contents }
    {
        self.contents.all_sound();
    }

    /// The cell's labels, in order of arrival.
    pub fn labels_of(&self, cell: CellKey) -> &[Label]
        requires { cell.0 < length self.now.contents }
        ensures { result.now ≡ (view_at (seen self.now) cell.0).labels }
    {
        self.contents.get(cell.0).labels.as_slice()
    }

    /// How many uses the cell has.
    pub fn use_count(&self, cell: CellKey) -> usize
        requires { cell.0 < length self.now.contents }
        ensures { result ≡ length (view_at (seen self.now) cell.0).uses }
    {
        self.tree.use_count(cell.0)
    }

    /// The id and the body of the k-th use of the cell, counted from 0. None exactly past the last.
    pub fn use_at(&self, cell: CellKey, k: usize) -> Option<(&[u8], &UseBody)>
        requires { cell.0 < length self.now.contents }
        ensures { option_map (λ found. (found.0.now, found.1.now)) result ≡ slice_get (view_at (seen self.now) cell.0).uses k }
    {
        self.tree.use_at(cell.0, k)
    }

    /// The place of the use with the id among the cell's.
    pub fn find_use(&self, cell: CellKey, id: &[u8]) -> Option<usize>
        requires { cell.0 < length self.now.contents }
        ensures { result ≡ place_of (view_at (seen self.now) cell.0).uses id.now }
    {
        self.tree.find_use(cell.0, id)
    }

    /// Adds an empty cell. The first cell gives the library the scale 1 1.
    ///
    /// # Errors
    ///
    /// `CellExists` where there is a cell of the name, else `TooMany(Cells)`.
    pub fn new_cell(&mut self, name: Name) -> Result<CellKey, LibFault>
        requires { IsTrue (is_plain_name name) }
        ensures answers { AnswersOrLacksMemory (EditIsRefused (edits_of self.old) (NewCellIsRefused (seen self.old) name)) result }
        ensures added { OnOk result (seen self.new ≡ with_new_cell (seen self.old) name) }
        ensures key { IfOk result (λ key. key.0 ≡ length self.old.contents) }
        ensures edit { OnOk result (IsNextCell self.old self.new) }
        ensures refused { OnErr result (IsSame self.old self.new) }
    {
        let done = new_cell(
            self.alloc,
            &self.tech,
            &mut self.scale,
            &mut self.contents,
            &mut self.tree,
            name,
        );
        self.tree.lawful();
        done
    }

    /// The cells at and below the root in library order: in the order of uses, children before parents, each once, and the root last. Want of
    /// memory alone refuses.
    pub fn below(&self, root: CellKey) -> Result<Vec<CellKey>, AllocError>
        requires { root.0 < length self.now.contents }
        ensures { IfOk result (λ order. IsLibraryOrder (children_in (seen self.now)) root.0 (map (λ key. key.0) order.items)) }
    {
        let order = self.tree.below(root.0)?;
        keys_of(self.alloc, order.as_slice())
    }

    /// Adds cells with all that they have at the end, in their order, as one edit. The first cell of a library gives it its scale.
    ///
    /// # Errors
    ///
    /// `Cycle` with the name of the first cell that would stand below itself; else `TooMany(Depth)`, `TooMany(Elements)` or `OutOfRange`
    /// where some cell would stand too deep, have too many elements, or a hull that goes past the range of paint.
    pub fn add_all(&mut self, cells: Vec<(Name, CellBody)>) -> Result<(), LibFault>
        requires { CanBeAdded (seen self.old) cells.items }
        ensures answers { AnswersOrLacksMemory (EditIsRefused (edits_of self.old) (AddAllIsRefused (seen self.old) cells.items)) result }
        ensures added { OnOk result (seen self.new ≡ with_all (seen self.old) cells.items) }
        ensures edit { OnOk result (AreNextCells self.old self.new cells.items) }
        ensures refused { OnErr result (IsSame self.old self.new) }
    {
        let done = add_cells(
            self.alloc,
            &mut self.scale,
            &mut self.contents,
            &mut self.tree,
            cells,
        );
        self.tree.lawful();
        done
    }

    /// Paints the layer over the area in the cell.
    ///
    /// # Errors
    ///
    /// `EmptyRect` where the area has no square; else `OutOfRange` where it goes past the range of paint or the hull of some cell would.
    pub fn paint(&mut self, cell: CellKey, layer: LayerId, area: Rect) -> Result<(), LibFault>
        requires cell { cell.0 < length self.old.contents }
        requires layer { layer.0 < length self.old.tech.layers }
        ensures answers { AnswersOrLacksMemory (EditIsRefused (edits_of self.old) (PaintIsRefused (seen self.old) cell.0 layer.0 area)) result }
        ensures painted { OnOk result (seen self.new ≡ painted (seen self.old) cell.0 layer.0 area) }
        ensures edit { OnOk result (IsNextEdit self.old self.new cell.0) }
        ensures refused { OnErr result (IsSame self.old self.new) }
    {
        self.contents.sound(cell.0);
        let done = paint_cell(
            &self.tech,
            &mut self.contents,
            &mut self.tree,
            cell.0,
            layer,
            area,
        );
        self.tree.lawful();
        done
    }

    /// Erases the layer from the area in the cell.
    ///
    /// # Errors
    ///
    /// As `paint`.
    pub fn erase(&mut self, cell: CellKey, layer: LayerId, area: Rect) -> Result<(), LibFault>
        requires cell { cell.0 < length self.old.contents }
        requires layer { layer.0 < length self.old.tech.layers }
        ensures answers { AnswersOrLacksMemory (EditIsRefused (edits_of self.old) (EraseIsRefused (seen self.old) cell.0 layer.0 area)) result }
        ensures erased { OnOk result (seen self.new ≡ erased (seen self.old) cell.0 layer.0 area) }
        ensures edit { OnOk result (IsNextEdit self.old self.new cell.0) }
        ensures refused { OnErr result (IsSame self.old self.new) }
    {
        let done = erase_cell(
            &self.tech,
            &mut self.contents,
            &mut self.tree,
            cell.0,
            layer,
            area,
        );
        self.tree.lawful();
        done
    }

    /// Adds a label at the end of the cell's.
    ///
    /// # Errors
    ///
    /// `EmptyRect` where an edge of its rectangle goes past the one on its other side; else `OutOfRange` where the rectangle goes past
    /// the range of paint or the hull of some cell would.
    pub fn label(&mut self, cell: CellKey, label: Label) -> Result<(), LibFault>
        requires cell { cell.0 < length self.old.contents }
        requires layer { IfSome label.layer (λ layer. layer.0 < length self.old.tech.layers) }
        requires position { IsTrue (is_position label.position) }
        requires text { IsTrue (is_label_text label.text) }
        ensures answers { AnswersOrLacksMemory (EditIsRefused (edits_of self.old) (LabelIsRefused (seen self.old) cell.0 label)) result }
        ensures labelled { OnOk result (seen self.new ≡ labelled (seen self.old) cell.0 label) }
        ensures edit { OnOk result (IsNextEdit self.old self.new cell.0) }
        ensures refused { OnErr result (IsSame self.old self.new) }
    {
        let done = label_cell(&mut self.contents, &mut self.tree, cell.0, label);
        self.tree.lawful();
        done
    }

    /// Takes each label with the text away from the cell. It takes no memory.
    ///
    /// # Errors
    ///
    /// `NoLabel` where no label has the text.
    pub fn unlabel(&mut self, cell: CellKey, text: &[u8]) -> Result<(), LibFault>
        requires { cell.0 < length self.old.contents }
        ensures answers { Answers (EditIsRefused (edits_of self.old) (UnlabelIsRefused (seen self.old) cell.0 text.now)) result }
        ensures unlabelled { OnOk result (seen self.new ≡ unlabelled (seen self.old) cell.0 text.now) }
        ensures edit { OnOk result (IsNextEdit self.old self.new cell.0) }
        ensures refused { OnErr result (IsSame self.old self.new) }
    {
        let done = unlabel_cell(&mut self.contents, &mut self.tree, cell.0, text);
        self.tree.lawful();
        done
    }

    /// The tiles of every plane of the cell's own paint in the area, plane by plane: with the number of its plane each strip of a type other
    /// than space that meets the area, cut to it. Want of memory alone refuses.
    pub fn take_out(&self, cell: CellKey, area: Rect) -> Result<Vec<(u8, Piece)>, LibFault>
        requires cell { cell.0 < length self.now.contents }
        requires proper { IsProper area }
        requires near { IsNear area }
        ensures taken { IfOk result (λ taken. AreTakenOut (view_at (seen self.now) cell.0).own area taken.items) }
        ensures pieces { IfOk result (λ taken. CanStandIn area (length self.now.tech.planes) taken.items) }
        ensures memory { IsOkUnless result LibFault.Memory }
    {
        let taken = self.paint_of(cell).take_out(area)?;
        Ok(taken)
    }

    /// Puts the pieces in the area of the cell, and space between them, where some lawful library has them there. It takes its memory first.
    pub fn put_back(
        &mut self,
        cell: CellKey,
        area: Rect,
        pieces: &[(u8, Piece)],
    ) -> Result<(), LibFault>
        requires cell { cell.0 < length self.old.contents }
        requires proper { IsProper area }
        requires near { IsNear area }
        requires pieces { CanStandIn area (length self.old.tech.planes) pieces.now }
        requires sound { IsSoundPaint self.old.tech.types (with_pieces area pieces.now (view_at (seen self.old) cell.0).own) }
        requires lawful { IsLawfulView (repainted (seen self.old) cell.0 area pieces.now) }
        ensures answers { AnswersOrLacksMemory (EditIsRefused (edits_of self.old) NothingElse) result }
        ensures put { OnOk result (seen self.new ≡ repainted (seen self.old) cell.0 area pieces.now) }
        ensures edit { OnOk result (IsNextEdit self.old self.new cell.0) }
        ensures refused { OnErr result (IsSame self.old self.new) }
    {
        let done = put_back_cell(&mut self.contents, &mut self.tree, cell.0, area, pieces);
        self.tree.lawful();
        done
    }

    /// Takes the last label of the cell away. It takes no memory.
    pub fn drop_last_label(&mut self, cell: CellKey) -> Result<(), LibFault>
        requires cell { cell.0 < length self.old.contents }
        requires some { 0 < length (view_at (seen self.old) cell.0).labels }
        ensures answers { Answers (EditIsRefused (edits_of self.old) NothingElse) result }
        ensures dropped { OnOk result (seen self.new ≡ without_last_label (seen self.old) cell.0) }
        ensures edit { OnOk result (IsNextEdit self.old self.new cell.0) }
        ensures refused { OnErr result (IsSame self.old self.new) }
    {
        let done = drop_last_label_of(&mut self.contents, &mut self.tree, cell.0);
        self.tree.lawful();
        done
    }

    /// Gives the cell these labels, where some lawful library has them there. It takes no memory.
    pub fn set_labels(&mut self, cell: CellKey, labels: Vec<Label>) -> Result<(), LibFault>
        requires cell { cell.0 < length self.old.contents }
        requires lawful { IsLawfulView (relabelled (seen self.old) cell.0 labels.items) }
        ensures answers { Answers (EditIsRefused (edits_of self.old) NothingElse) result }
        ensures set { OnOk result (seen self.new ≡ relabelled (seen self.old) cell.0 labels.items) }
        ensures edit { OnOk result (IsNextEdit self.old self.new cell.0) }
        ensures refused { OnErr result (IsSame self.old self.new) }
    {
        let done = set_labels_of(&mut self.contents, &mut self.tree, cell.0, labels);
        self.tree.lawful();
        done
    }

    /// Adds a use of the child at the end of the cell's. The child stands as the transform of the six numbers takes it, once.
    ///
    /// # Errors
    ///
    /// The first of these: `UseExists` where the cell has a use of the id; `BadTransform` where `six[0] six[1] six[3] six[4]` is no
    /// orientation; `OutOfRange` where `six[2]` or `six[5]` is; `Cycle` with the child's name where the child is the cell or has it
    /// below; `TooMany(Uses)`; `TooMany(Depth)`, `TooMany(Elements)` or `OutOfRange` where some cell would stand too deep, have too many
    /// elements, or a hull that goes past the range of paint.
    pub fn place(
        &mut self,
        cell: CellKey,
        child: CellKey,
        id: Name,
        six: [i64; 6],
    ) -> Result<(), LibFault>
        requires cell { cell.0 < length self.old.contents }
        requires child { child.0 < length self.old.contents }
        requires id { IsTrue (is_use_id id) }
        ensures answers { AnswersOrLacksMemory (EditIsRefused (edits_of self.old) (PlaceIsRefused (seen self.old) cell.0 child.0 id six)) result }
        ensures placed { OnOk result (seen self.new ≡ placed (seen self.old) cell.0 child.0 id six) }
        ensures edit { OnOk result (IsNextEdit self.old self.new cell.0) }
        ensures refused { OnErr result (IsSame self.old self.new) }
    {
        let done = place_use(
            self.alloc,
            &self.contents,
            &mut self.tree,
            cell.0,
            child,
            id,
            six,
        );
        self.tree.lawful();
        done
    }

    /// Gives the use with the id this grid, in place of any earlier one. It takes no memory.
    ///
    /// # Errors
    ///
    /// The first of these: `NoUse`; `OutOfRange` where a separation is; `TooMany(Elements)` where the grid or some cell would have too
    /// many; `OutOfRange` where the hull of some cell would go past the range of paint.
    pub fn place_array(&mut self, cell: CellKey, id: &[u8], grid: Grid) -> Result<(), LibFault>
        requires cell { cell.0 < length self.old.contents }
        requires xlo { IsTrue (is_index grid.xlo) }
        requires xhi { IsTrue (is_index grid.xhi) }
        requires ylo { IsTrue (is_index grid.ylo) }
        requires yhi { IsTrue (is_index grid.yhi) }
        ensures answers { Answers (EditIsRefused (edits_of self.old) (ArrayIsRefused (seen self.old) cell.0 id.now grid)) result }
        ensures placed { OnOk result (seen self.new ≡ with_grid (seen self.old) cell.0 id.now grid) }
        ensures edit { OnOk result (IsNextEdit self.old self.new cell.0) }
        ensures refused { OnErr result (IsSame self.old self.new) }
    {
        let done = place_array(&mut self.tree, cell.0, id, grid);
        self.tree.lawful();
        done
    }

    /// Moves the use with the id by so much to the right and upward. It takes no memory.
    ///
    /// # Errors
    ///
    /// `NoUse`; else `OutOfRange` where a displacement would be, or the hull of some cell would go past the range of paint.
    pub fn move_use(&mut self, cell: CellKey, id: &[u8], dx: i64, dy: i64) -> Result<(), LibFault>
        requires cell { cell.0 < length self.old.contents }
        requires dx { IsTrue (is_index dx) }
        requires dy { IsTrue (is_index dy) }
        ensures answers { Answers (EditIsRefused (edits_of self.old) (MoveIsRefused (seen self.old) cell.0 id.now dx dy)) result }
        ensures moved { OnOk result (seen self.new ≡ moved (seen self.old) cell.0 id.now dx dy) }
        ensures edit { OnOk result (IsNextEdit self.old self.new cell.0) }
        ensures refused { OnErr result (IsSame self.old self.new) }
    {
        let done = move_use(&mut self.tree, cell.0, id, dx, dy);
        self.tree.lawful();
        done
    }

    /// Takes the use with the id away. The others keep their order. It takes no memory.
    ///
    /// # Errors
    ///
    /// `NoUse`.
    pub fn delete_use(&mut self, cell: CellKey, id: &[u8]) -> Result<(), LibFault>
        requires { cell.0 < length self.old.contents }
        ensures answers { Answers (EditIsRefused (edits_of self.old) (DeleteIsRefused (seen self.old) cell.0 id.now)) result }
        ensures deleted { OnOk result (seen self.new ≡ without_use (seen self.old) cell.0 id.now) }
        ensures edit { OnOk result (IsNextEdit self.old self.new cell.0) }
        ensures refused { OnErr result (IsSame self.old self.new) }
    {
        let done = delete_use(&mut self.tree, cell.0, id);
        self.tree.lawful();
        done
    }

    /// Makes a use the one at this place among the cell's, where the library is lawful with it, as it is with a use that was taken away.
    /// The others keep their order.
    ///
    /// # Errors
    ///
    /// None of its own.
    pub fn insert_use(
        &mut self,
        cell: CellKey,
        at: usize,
        id: Name,
        used: UseBody,
    ) -> Result<(), LibFault>
        requires cell { cell.0 < length self.old.contents }
        requires place { at ≤ length (view_at (seen self.old) cell.0).uses }
        requires lawful { IsLawfulView (with_use_at (seen self.old) cell.0 at id used) }
        ensures answers { AnswersOrLacksMemory (EditIsRefused (edits_of self.old) NothingElse) result }
        ensures inserted { OnOk result (seen self.new ≡ with_use_at (seen self.old) cell.0 at id used) }
        ensures edit { OnOk result (IsNextEdit self.old self.new cell.0) }
        ensures refused { OnErr result (IsSame self.old self.new) }
    {
        let done = insert_use(self.alloc, &mut self.tree, cell.0, at, id, used);
        self.tree.lawful();
        done
    }

    /// Gives the use with the id this grid or none, where the library is lawful with it, as it is with the one that the use had. It takes
    /// no memory.
    ///
    /// # Errors
    ///
    /// None of its own.
    pub fn set_grid(&mut self, cell: CellKey, id: &[u8], grid: Option<Grid>) -> Result<(), LibFault>
        requires cell { cell.0 < length self.old.contents }
        requires known { IsTrue (has_id (view_at (seen self.old) cell.0).uses id.now) }
        requires lawful { IsLawfulView (regridded (seen self.old) cell.0 id.now grid) }
        ensures answers { Answers (EditIsRefused (edits_of self.old) NothingElse) result }
        ensures set { OnOk result (seen self.new ≡ regridded (seen self.old) cell.0 id.now grid) }
        ensures edit { OnOk result (IsNextEdit self.old self.new cell.0) }
        ensures refused { OnErr result (IsSame self.old self.new) }
    {
        let done = regrid(&mut self.tree, cell.0, id, grid);
        self.tree.lawful();
        done
    }

    /// A count of nothing opened, in the ledger that the blank stands for.
    pub fn count<L: Ledger>(&self, blank: Blank) -> Opened<L>
        requires name { blank.name ≡ L.name }
        requires parts { blank.parts ≡ L.parts }
        requires some_part { 0 < blank.parts }
        ensures { result ≡ 0 }
    {
        Opened::new(blank)
    }

    /// A reader of this library.
    pub fn reader(&self) -> Reader<'_>
        ensures { result ≡ self.now }
    {
        Reader::of(self)
    }
}

// The keys of cells at these positions. Want of memory alone refuses.
fn keys_of(alloc: Global, positions: &[usize]) -> Result<Vec<CellKey>, AllocError>
    ensures { IfOk result (λ keys. keys.items ≡ map (λ position. record { 0 = position }) positions.now) }
{
    positions
        .iter()
        .map(|position| CellKey(*position))
        .collect(alloc)
}
