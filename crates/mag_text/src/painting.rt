//! The paint of a cell's rectangles.
ghost use Rattle.std.specs.Prelude.{◌≡◌, ◌<◌, ◌+◌, true, false, length, IfOk};
ghost use Rattle.cell_library.specs.LayoutModel.Places.{Place};
ghost use Rattle.cell_library.specs.CellPaint.Paints.{layout_of};
ghost use Rattle.mag_text.specs.Drawings.{AreDrawn, drawn_at, painted_all};

use crate::files::Drawn;
use cell_library::cell_paint::CellPaint;
use std::alloc::{AllocError, Global};
use tech_model::Tech;

/// The paint of these rectangles in order. Those of one layer that follow each other are painted together. The only
/// error is want of memory.
pub fn paint_all(alloc: Global, tech: &Tech, drawn: &[Drawn]) -> Result<CellPaint, AllocError>
    requires { AreDrawn tech.now drawn.now }
    ensures kinds { IfOk result (λ paint. paint.kinds ≡ tech.now.types) }
    ensures planes { IfOk result (λ paint. length paint.planes ≡ length tech.now.planes) }
    ensures painted { IfOk result (λ paint. (place : Place) → layout_of paint place ≡ painted_all tech.now drawn.now place) }
{
    let Ok(mut paint) = CellPaint::new(alloc, tech) else {
        return Err(AllocError);
    };
    let mut areas = Vec::new(alloc);
    for index in 0..drawn.len() {
        areas.push(drawn[index].area)?;
        if ends_layer(drawn, index) {
            if paint
                .paint_all(tech, drawn[index].layer, areas.as_slice())
                .is_err()
            {
                return Err(AllocError);
            }
            areas.clear();
        }
    }
    Ok(paint)
}

// Whether no rectangle of the same layer follows.
fn ends_layer(drawn: &[Drawn], index: usize) -> bool
    requires { index < length drawn.now }
    ensures last { index + 1 ≡ length drawn.now → result ≡ true }
    ensures same { result ≡ false → (drawn_at drawn.now (index + 1)).layer ≡ (drawn_at drawn.now index).layer }
{
    index + 1 == drawn.len() || drawn[index + 1].layer != drawn[index].layer
}
