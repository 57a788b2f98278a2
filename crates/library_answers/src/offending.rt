//! The lines that tell which squares of a cell offend.
ghost use Rattle.std.specs.Prelude.{◌≡◌, ◌<◌, All, map, length, IfOk};
ghost use Rattle.hier_merge.specs.CellLibrary.Libraries.{seen};
ghost use Rattle.hier_merge.specs.CellLibrary.Views.{view_at};
ghost use Rattle.library_answers.specs.Offending.{offending_line};

use ext_model::CellKey;
use geo_core::Rect;
use hier_merge::cell_library::Reader;
use line_answers::{append_bounds, append_with_name};
use names_lists::{List, Name};
use session_model::{LineKind, ReportLine};
use std::alloc::{AllocError, Global};
use tech_model::Tech;

/// The lines of the strips of a cell's squares that offend, each on a plane of the technology.
pub fn offending_lines(
    alloc: Global,
    library: &Reader<'_>,
    cell: CellKey,
    squares: &[(u8, Rect)],
) -> Result<Vec<ReportLine>, AllocError>
    requires cell { cell.0 < length library.now.contents }
    requires planes { All (λ strip. strip.0 < length library.now.tech.planes) squares.now }
    ensures { let view = seen library.now in IfOk result (λ lines. lines.items
        ≡ map (offending_line view.tech (view_at view cell.0).name) squares.now) }
{
    let tech = library.tech();
    let name = library.name_of(cell);
    lines_of(alloc, tech, name, squares)
}

// The lines of strips that offend in the cell of this name.
fn lines_of(
    alloc: Global,
    tech: &Tech,
    cell: &Name,
    squares: &[(u8, Rect)],
) -> Result<Vec<ReportLine>, AllocError>
    requires { All (λ strip. strip.0 < length tech.now.planes) squares.now }
    ensures { IfOk result (λ lines. lines.items ≡ map (offending_line tech.now cell.now) squares.now) }
{
    let mut lines = Vec::with_capacity(alloc, squares.len())?;
    for strip in squares {
        lines.push(offending_line(alloc, tech, cell, strip)?)?;
    }
    Ok(lines)
}

// `offending CELL PLANE XLO YLO XHI YHI`.
fn offending_line(
    alloc: Global,
    tech: &Tech,
    cell: &Name,
    strip: &(u8, Rect),
) -> Result<ReportLine, AllocError>
    requires { strip.now.0 < length tech.now.planes }
    ensures { IfOk result (λ line. line ≡ offending_line tech.now cell.now strip.now) }
{
    let (plane, area) = strip;
    let mut text = Vec::new(alloc);
    append_with_name(&mut text, b"offending ", cell)?;
    append_with_name(
        &mut text,
        b" ",
        &tech.raw().planes.items()[usize::from(*plane)],
    )?;
    append_bounds(&mut text, area)?;
    Ok(ReportLine {
        kind: LineKind::Offending,
        text: List::of(text),
    })
}
