//! What each cell has of its own, under the cells' names.
ghost use Rattle.std.specs.Str.{bytes_eq};
ghost use Rattle.std.specs.Prelude.{◌≡◌, not, ◌<◌, ◌-◌, ◌↔◌, ◌++◌, ◌∷◌, [], true, false, None, length, take, slice_set as set, OnOk, OnErr, IsErrOf};
ghost use Rattle.std.specs.Prelude.{All, IsOkUnless, option_to_list};
ghost use Rattle.geo_core.specs.Areas.{has_square, IsNear};
ghost use Rattle.geo_core.specs.Covering.{IsProper};
ghost use Rattle.cell_bodies.specs.CellPaint.Paints.{layout_of, IsSoundPaint};
ghost use Rattle.cell_bodies.specs.CellPaint.Painting.{with_paint, with_erased, is_in_range};
ghost use Rattle.cell_bodies.specs.CellPaint.Pieces.{with_pieces, CanStandIn};

use cell_bodies::cell_paint::{CellPaint, PaintFault};
use geo_core::{Piece, Rect};
use indexmap::IndexMap;
use names_lists::Name;
use std::alloc::{AllocError, Global};
use std::marker::Model;
use tech_model::{Label, LayerId, Tech};

/// What a cell has of its own: its name, its paint, and its labels in order of arrival.
pub struct Content {
    pub name: Name,
    pub paint: CellPaint,
    pub labels: Vec<Label>,
}

impl Drop for Content {
    fn drop(self) {
        let Content {
            name: _,
            paint: _,
            labels: _,
        } = self;
    }
}

/// The contents of cells in order of arrival, each found by its name. Contracts see them as a list.
pub struct Contents {
    alloc: Global,
    entries: IndexMap<Vec<u8>, Content>,
}

impl Drop for Contents {
    fn drop(self) {
        let Contents {
            alloc: _,
            entries: _,
        } = self;
    }
}

impl Model for Contents {
    ghost use Rattle.std.specs.Prelude.{List};
    ghost use Rattle.std.specs.Coded.{coded_list};
    ghost use Rattle.cell_library.specs.Contents.{Held, held_code};

    ghost Value = { List Held };

    ghost coded = { coded_list held_code };

    ghost use Rattle.cell_library.specs.Contents.{held_in, AreKept};

    ghost view = { λ contents. held_in contents.entries.entries };

    ghost invariant = { λ contents. AreKept contents.entries.entries };
}

impl Contents {
    ghost use Rattle.cell_library.specs.Contents.{held_at, held_of, position_of, with_label, with_labels, without_labels, without_last, IsRepainted, IsSoundHeld};

    /// No cells. It takes no memory.
    pub fn new(alloc: Global) -> Contents
        ensures { result ≡ [] }
    {
        Contents {
            alloc,
            entries: IndexMap::new(alloc),
        }
    }

    /// How many cells there are.
    pub fn len(&self) -> usize
        ensures { result ≡ length self.now }
    {
        self.entries.len()
    }

    /// The position of the cell of this name.
    pub fn find(&self, name: &[u8]) -> Option<usize>
        ensures { result ≡ position_of name.now self.now }
    {
        self.entries.get_index_of(name)
    }

    /// What the cell at the position has.
    pub fn get(&self, cell: usize) -> &Content
        requires { cell < length self.now }
        ensures { held_of result.now ≡ held_at self.now cell }
    {
        &self.entries[cell]
    }

    /// What holds of the paint of the cell at the position.
    pub fn sound(&self, cell: usize)
        requires { cell < length self.now }
        ensures { IsSoundPaint (held_at self.now cell).paint.kinds (layout_of (held_at self.now cell).paint) }
    {
        self.get(cell).paint.sound();
    }

    /// What holds of the paint of each cell.
    pub fn all_sound(&self)
        ensures { All IsSoundHeld self.now }
    {
        let _ = &self.entries;
    }

    /// Adds a cell. Want of memory alone refuses, and nothing is changed then.
    pub fn push(&mut self, content: Content) -> Result<(), AllocError>
        requires { position_of content.name self.old ≡ None }
        ensures added { OnOk result (self.new ≡ self.old ++ held_of content ∷ []) }
        ensures refused { OnErr result (self.new ≡ self.old) }
    {
        let key = Vec::from_slice(self.alloc, content.name.bytes())?;
        content.paint.sound();
        self.entries.insert(key, content)?;
        Ok(())
    }

    /// Takes the last cell away.
    pub fn pop(&mut self)
        ensures { self.new ≡ take (length self.old - 1) self.old }
    {
        let _ = self.entries.pop();
    }

    /// Keeps so many of the first cells. It takes no memory.
    pub fn truncate(&mut self, count: usize)
        ensures { self.new ≡ take count self.old }
    {
        self.entries.truncate(count);
    }

    /// Paints the layer over the area in a cell. It is refused as `CellPaint::paint` is, and then no layout is changed.
    pub fn paint(
        &mut self,
        cell: usize,
        tech: &Tech,
        layer: LayerId,
        area: Rect,
    ) -> Result<(), PaintFault>
        requires cell { cell < length self.old }
        requires kinds { (held_at self.old cell).paint.kinds ≡ tech.now.types }
        requires layer { layer.0 < length tech.now.layers }
        ensures painted { OnOk result (IsRepainted self.old self.new cell (with_paint tech.now layer.0 area)) }
        ensures refused { OnErr result (IsRepainted self.old self.new cell (λ own. own)) }
        ensures empty { IsErrOf result PaintFault.EmptyRect ↔ (has_square area ≡ false) }
        ensures range { IsErrOf result PaintFault.OutOfRange ↔ ((has_square area ≡ true) × (is_in_range area ≡ false)) }
        ensures never { IsErrOf result PaintFault.TooManyTiles → ⊥ }
    {
        let content = &mut self.entries[cell];
        let done = content.paint.paint(tech, layer, area);
        content.paint.sound();
        done
    }

    /// Erases the layer from the area in a cell. It is refused as `CellPaint::erase` is, and then no layout is changed.
    pub fn erase(
        &mut self,
        cell: usize,
        tech: &Tech,
        layer: LayerId,
        area: Rect,
    ) -> Result<(), PaintFault>
        requires cell { cell < length self.old }
        requires kinds { (held_at self.old cell).paint.kinds ≡ tech.now.types }
        requires layer { layer.0 < length tech.now.layers }
        ensures erased { OnOk result (IsRepainted self.old self.new cell (with_erased tech.now layer.0 area)) }
        ensures refused { OnErr result (IsRepainted self.old self.new cell (λ own. own)) }
        ensures empty { IsErrOf result PaintFault.EmptyRect ↔ (has_square area ≡ false) }
        ensures range { IsErrOf result PaintFault.OutOfRange ↔ ((has_square area ≡ true) × (is_in_range area ≡ false)) }
        ensures never { IsErrOf result PaintFault.TooManyTiles → ⊥ }
    {
        let content = &mut self.entries[cell];
        let done = content.paint.erase(tech, layer, area);
        content.paint.sound();
        done
    }

    /// Puts the pieces in an area of a cell, and space between them. Want of memory alone refuses, and then no layout is changed.
    pub fn put_back(
        &mut self,
        cell: usize,
        area: Rect,
        pieces: &[(u8, Piece)],
    ) -> Result<(), PaintFault>
        requires cell { cell < length self.old }
        requires proper { IsProper area }
        requires near { IsNear area }
        requires pieces { CanStandIn area (length (held_at self.old cell).paint.planes) pieces.now }
        requires sound { IsSoundPaint (held_at self.old cell).paint.kinds (with_pieces area pieces.now (layout_of (held_at self.old cell).paint)) }
        ensures put { OnOk result (IsRepainted self.old self.new cell (with_pieces area pieces.now)) }
        ensures refused { OnErr result (IsRepainted self.old self.new cell (λ own. own)) }
        ensures memory { IsOkUnless result PaintFault.Memory }
    {
        let content = &mut self.entries[cell];
        let done = content.paint.put_back(area, pieces);
        content.paint.sound();
        done
    }

    /// Adds a label to a cell. Want of memory alone refuses, and nothing is changed then.
    pub fn push_label(&mut self, cell: usize, label: Label) -> Result<(), AllocError>
        requires { cell < length self.old }
        ensures added { OnOk result (self.new ≡ set self.old cell (with_label (held_at self.old cell) label)) }
        ensures refused { OnErr result (self.new ≡ self.old) }
    {
        let content = &mut self.entries[cell];
        content.labels.push(label)?;
        Ok(())
    }

    /// Takes each label with the text away from a cell.
    pub fn remove_labels(&mut self, cell: usize, text: &[u8])
        requires { cell < length self.old }
        ensures { self.new ≡ set self.old cell (without_labels (held_at self.old cell) text.now) }
    {
        let content = &mut self.entries[cell];
        content.labels.retain(
            |label: &Label| -> bool
                ensures { result ≡ not (bytes_eq label.now.text text.entry.now) }
            { label.text.bytes() != text },
        );
    }

    /// Takes the last label of a cell away, where it has one, and hands it out.
    pub fn pop_label(&mut self, cell: usize) -> Option<Label>
        requires { cell < length self.old }
        ensures popped { self.new ≡ set self.old cell (with_labels (held_at self.old cell) (without_last (held_at self.old cell).labels)) }
        ensures last { (held_at self.old cell).labels ≡ without_last (held_at self.old cell).labels ++ option_to_list result }
    {
        let content = &mut self.entries[cell];
        content.labels.pop()
    }

    /// Gives a cell these labels.
    pub fn set_labels(&mut self, cell: usize, labels: Vec<Label>)
        requires { cell < length self.old }
        ensures { self.new ≡ set self.old cell (with_labels (held_at self.old cell) labels.items) }
    {
        let content = &mut self.entries[cell];
        content.labels = labels;
    }
}
