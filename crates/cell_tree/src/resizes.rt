//! The size that a cell has after an edit.
ghost use Rattle.std.specs.Prelude.{◌≡◌, ◌<◌, ℕ, length, Some, List as Items};
ghost use Rattle.cell_tree.specs.declared.use_tables.UseBody.{UseBody as IsUse};
ghost use Rattle.cell_tree.specs.Uses.{IsLawfulUse};
ghost use Rattle.cell_tree.specs.Sizes.{size_at, size_of, with_or_without};
ghost use Rattle.cell_tree.specs.Cells.{states};
ghost use Rattle.cell_tree.specs.Trees.{cell_at, with_inserted, with_own, with_uses};
ghost use Rattle.cell_tree.specs.Books.{AreLawful};

use crate::cells::TreeCell;
use crate::sizes::{Dimension, Size, measured, size_with, with_use};
use crate::use_tables::UseBody;
use geo_core::Rect;

/// The size that a cell has with this own box.
pub fn size_with_box(cells: &[TreeCell], sizes: &[Size], cell: usize, own: Option<Rect>) -> Size
    requires lawful { AreLawful cells.now sizes.now }
    requires within { cell < length cells.now }
    ensures { result ≡ size_of (size_at sizes.now) (with_own (cell_at (states cells.now) cell) own) }
{
    let wide = measured(Dimension::Hull, own, &cells[cell].uses, sizes);
    Size {
        hull: wide.hull,
        ..sizes[cell]
    }
}

/// The size that a cell has with another body of its k-th use, or without that use.
pub fn size_with_use(
    cells: &[TreeCell],
    sizes: &[Size],
    cell: usize,
    k: usize,
    used: &Option<UseBody>,
) -> Size
    requires lawful { AreLawful cells.now sizes.now }
    requires within { cell < length cells.now }
    requires use_within { k < length (cell_at (states cells.now) cell).uses }
    requires body { (body : IsUse) → used.now ≡ Some body → IsLawfulUse body × (body.child.0 < length cells.now) }
    ensures { result ≡ size_of (size_at sizes.now)
        (with_uses (cell_at (states cells.now) cell) (with_or_without (cell_at (states cells.now) cell).uses k used.now)) }
{
    size_with(cells[cell].own, &cells[cell].uses, k, used, sizes)
}

/// The size that a cell has with one more use, wherever it comes among the others.
pub fn size_with_placed(cells: &[TreeCell], sizes: &[Size], cell: usize, used: &UseBody) -> Size
    requires lawful { AreLawful cells.now sizes.now }
    requires within { cell < length cells.now }
    requires used { IsLawfulUse used.now }
    requires child { used.now.child.0 < length cells.now }
    ensures { (at : ℕ) (id : Items ℕ) → result ≡ size_of (size_at sizes.now) (with_inserted (cell_at (states cells.now) cell) at id used.now) }
{
    with_use(&sizes[cell], used, &sizes[used.child.0])
}
