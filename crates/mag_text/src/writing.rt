//! Writes a mag text.
ghost use Rattle.std.specs.Prelude.{◌≡◌, ◌<◌, ◌∷◌, ◌++◌, [], All, length, codes, OnOk, IfOk, IfSome, Some};
ghost use Rattle.text_scan.specs.Decimal.{decimal};
ghost use Rattle.text_scan.specs.Written.{text_of};
ghost use Rattle.tech_model.specs.Types.{layer_at, first_name};
ghost use Rattle.cell_library.specs.CellPaint.Paints.{layout_of};
ghost use Rattle.mag_text.specs.WrittenTexts.{numbers_line, scale_lines, no_time_line, tech_line, header_lines};
ghost use Rattle.mag_text.specs.WrittenTexts.{AreLayerStrips, AreAllStrips, group_line, area_line, layer_lines, array_lines, grid_line, transform_line};
ghost use Rattle.mag_text.specs.WrittenTexts.{box_line};
ghost use Rattle.mag_text.specs.WrittenTexts.{use_line, use_lines, layer_word, label_numbers, label_line, labels_lines, mag_text, IsOfLayer, IsLayered};
ghost use Rattle.mag_text.specs.WrittenTexts.{IsWrittenText, numbers_behind_blanks, text_of_each};

use crate::written::{LayerStrips, WrittenUse};
use cell_library::cell_paint::CellPaint;
use geo_core::{Grid, Rect};
use names_lists::List;
use std::alloc::{AllocError, Global};
use tech_model::{Label, LayerId, Tech};
use text_scan::append_decimal;

/// The text of a cell with this scale, paint, uses and labels.
///
/// It has a header, a group of rectangles for each layer whose image on its own plane stands somewhere, the uses, the labels and the end.
/// The only error is want of memory.
pub fn write_cell(
    alloc: Global,
    tech: &Tech,
    scale: (u32, u32),
    paint: &CellPaint,
    uses: &[WrittenUse<'_>],
    labels: &[Label],
) -> Result<Vec<u8>, AllocError>
    requires kinds { paint.now.kinds ≡ tech.now.types }
    requires planes { length paint.now.planes ≡ length tech.now.planes }
    requires labels { All (IsLayered tech.now) labels.now }
    ensures { IfOk result (λ text. IsWrittenText tech.now scale (layout_of paint.now) uses.now labels.now text.items) }
{
    let strips = all_strips(alloc, tech, paint)?;
    let mut out = Vec::new(alloc);
    write_lines(&mut out, tech, scale, strips.as_slice(), uses, labels)?;
    Ok(out)
}

// The strips of each layer's image on its own plane.
fn all_strips(alloc: Global, tech: &Tech, paint: &CellPaint) -> Result<Vec<LayerStrips>, AllocError>
    requires kinds { paint.now.kinds ≡ tech.now.types }
    requires planes { length paint.now.planes ≡ length tech.now.planes }
    ensures { IfOk result (λ strips. AreAllStrips tech.now (layout_of paint.now) strips.items) }
{
    let count = tech.raw().layers.items().len();
    let mut strips = Vec::with_capacity(alloc, count)?;
    for layer in 0..count {
        put(&mut strips, layer_strips(tech, paint, layer)?)?;
    }
    Ok(strips)
}

fn put(strips: &mut Vec<LayerStrips>, more: LayerStrips) -> Result<(), AllocError>
    ensures { OnOk result (strips.new.items ≡ strips.old.items ++ more ∷ []) }
{
    strips.push(more)?;
    Ok(())
}

fn layer_strips(tech: &Tech, paint: &CellPaint, layer: usize) -> Result<LayerStrips, AllocError>
    requires kinds { paint.now.kinds ≡ tech.now.types }
    requires planes { length paint.now.planes ≡ length tech.now.planes }
    requires layer { layer < length tech.now.layers }
    ensures { IfOk result (AreLayerStrips tech.now (layout_of paint.now) layer) }
{
    let raw = tech.raw();
    let kind = raw.layers.items()[layer].images.items()[0];
    let plane = raw.types.items()[usize::from(kind.0) - 1].plane;
    match paint.strips(plane, kind) {
        Ok(areas) => Ok(LayerStrips {
            layer,
            areas: List::of(areas),
        }),
        Err(_) => Err(AllocError),
    }
}

fn write_lines(
    out: &mut Vec<u8>,
    tech: &Tech,
    scale: (u32, u32),
    strips: &[LayerStrips],
    uses: &[WrittenUse<'_>],
    labels: &[Label],
) -> Result<(), AllocError>
    requires strips { All (IsOfLayer tech.now) strips.now }
    requires labels { All (IsLayered tech.now) labels.now }
    ensures { OnOk result (out.new.items ≡ out.old.items ++ mag_text tech.now scale strips.now uses.now labels.now) }
{
    write_header(out, tech, scale)?;
    write_paint(out, tech, strips)?;
    write_uses(out, uses)?;
    write_labels(out, tech, labels)?;
    out.extend_from_slice(b"<< end >>\n")?;
    Ok(())
}

// A blank and a word.
fn append_word(out: &mut Vec<u8>, word: &[u8]) -> Result<(), AllocError>
    ensures { OnOk result (out.new.items ≡ out.old.items ++ 32 ∷ word.now) }
{
    out.push(b' ')?;
    out.extend_from_slice(word)
}

// A blank and a number.
fn append_number(out: &mut Vec<u8>, value: i64) -> Result<(), AllocError>
    ensures { OnOk result (out.new.items ≡ out.old.items ++ 32 ∷ decimal value) }
{
    out.push(b' ')?;
    append_decimal(out, i128::from(value))
}

fn append_numbers(out: &mut Vec<u8>, numbers: &[i64]) -> Result<(), AllocError>
    ensures { OnOk result (out.new.items ≡ out.old.items ++ numbers_behind_blanks numbers.now) }
{
    for &number in numbers {
        append_number(out, number)?;
    }
    Ok(())
}

// A line of a word and numbers.
fn write_numbers(out: &mut Vec<u8>, key: &[u8], numbers: &[i64]) -> Result<(), AllocError>
    ensures { OnOk result (out.new.items ≡ out.old.items ++ text_of (numbers_line key.now numbers.now ∷ [])) }
{
    out.extend_from_slice(key)?;
    append_numbers(out, numbers)?;
    out.push(b'\n')?;
    Ok(())
}

fn write_scale(out: &mut Vec<u8>, scale: (u32, u32)) -> Result<(), AllocError>
    ensures { OnOk result (out.new.items ≡ out.old.items ++ text_of (scale_lines scale)) }
{
    let (n, d) = scale;
    if n == 1 && d == 1 {
        return Ok(());
    }
    write_numbers(out, b"magscale", &[i64::from(n), i64::from(d)])
}

fn write_no_time(out: &mut Vec<u8>) -> Result<(), AllocError>
    ensures { OnOk result (out.new.items ≡ out.old.items ++ text_of (no_time_line ∷ [])) }
{
    out.extend_from_slice(b"timestamp 0\n")
}

fn write_tech(out: &mut Vec<u8>, name: &[u8]) -> Result<(), AllocError>
    ensures { OnOk result (out.new.items ≡ out.old.items ++ text_of (codes "magic" ∷ tech_line name.now ∷ [])) }
{
    out.extend_from_slice(b"magic\ntech ")?;
    out.extend_from_slice(name)?;
    out.push(b'\n')?;
    Ok(())
}

fn write_header(out: &mut Vec<u8>, tech: &Tech, scale: (u32, u32)) -> Result<(), AllocError>
    ensures { OnOk result (out.new.items ≡ out.old.items ++ text_of (header_lines tech.now.name scale)) }
{
    write_tech(out, tech.raw().name.bytes())?;
    write_scale(out, scale)?;
    write_no_time(out)?;
    Ok(())
}

// The first name of a layer.
fn word_of(tech: &Tech, layer: usize) -> &[u8]
    requires { layer < length tech.now.layers }
    ensures { result.now ≡ first_name (layer_at tech.now layer) }
{
    tech.raw().layers.items()[layer].names.items()[0].bytes()
}

fn write_group(out: &mut Vec<u8>, name: &[u8]) -> Result<(), AllocError>
    ensures { OnOk result (out.new.items ≡ out.old.items ++ text_of (group_line name.now ∷ [])) }
{
    out.extend_from_slice(b"<< ")?;
    out.extend_from_slice(name)?;
    out.extend_from_slice(b" >>\n")?;
    Ok(())
}

fn write_area(out: &mut Vec<u8>, area: &Rect) -> Result<(), AllocError>
    ensures { OnOk result (out.new.items ≡ out.old.items ++ text_of (area_line area.now ∷ [])) }
{
    write_numbers(out, b"rect", &[area.xlo, area.ylo, area.xhi, area.yhi])
}

fn write_areas(out: &mut Vec<u8>, areas: &[Rect]) -> Result<(), AllocError>
    ensures { OnOk result (out.new.items ≡ out.old.items ++ text_of_each (λ area. area_line area ∷ []) areas.now) }
{
    for area in areas {
        write_area(out, area)?;
    }
    Ok(())
}

fn write_layer(out: &mut Vec<u8>, tech: &Tech, strips: &LayerStrips) -> Result<(), AllocError>
    requires { IsOfLayer tech.now strips.now }
    ensures { OnOk result (out.new.items ≡ out.old.items ++ text_of (layer_lines tech.now strips.now)) }
{
    let areas = strips.areas.items();
    if areas.is_empty() {
        return Ok(());
    }
    write_group(out, word_of(tech, strips.layer))?;
    write_areas(out, areas)?;
    Ok(())
}

fn write_paint(out: &mut Vec<u8>, tech: &Tech, strips: &[LayerStrips]) -> Result<(), AllocError>
    requires { All (IsOfLayer tech.now) strips.now }
    ensures { OnOk result (out.new.items ≡ out.old.items ++ text_of_each (layer_lines tech.now) strips.now) }
{
    for layer in strips {
        write_layer(out, tech, layer)?;
    }
    Ok(())
}

// The grid of a use, where it has one.
fn write_array(out: &mut Vec<u8>, placed: &WrittenUse<'_>) -> Result<(), AllocError>
    ensures { OnOk result (out.new.items ≡ out.old.items ++ text_of (array_lines placed.now.grid)) }
{
    match &placed.grid {
        Some(grid) => write_grid(out, grid),
        None => Ok(()),
    }
}

fn write_grid(out: &mut Vec<u8>, grid: &Grid) -> Result<(), AllocError>
    ensures { OnOk result (out.new.items ≡ out.old.items ++ text_of (grid_line grid.now ∷ [])) }
{
    write_numbers(
        out,
        b"array",
        &[grid.xlo, grid.xhi, grid.xsep, grid.ylo, grid.yhi, grid.ysep],
    )
}

fn write_transform(out: &mut Vec<u8>, placed: &WrittenUse<'_>) -> Result<(), AllocError>
    ensures { OnOk result (out.new.items ≡ out.old.items ++ text_of (transform_line placed.now.six ∷ [])) }
{
    write_numbers(out, b"transform", &placed.six)
}

fn write_edges(out: &mut Vec<u8>, area: &Rect) -> Result<(), AllocError>
    ensures { OnOk result (out.new.items ≡ out.old.items ++ text_of (box_line (Some area.now) ∷ [])) }
{
    write_numbers(out, b"box", &[area.xlo, area.ylo, area.xhi, area.yhi])
}

// The hull of the cell that is used; a cell without one has a point.
fn write_box(out: &mut Vec<u8>, placed: &WrittenUse<'_>) -> Result<(), AllocError>
    ensures { OnOk result (out.new.items ≡ out.old.items ++ text_of (box_line placed.now.hull ∷ [])) }
{
    match &placed.hull {
        Some(area) => write_edges(out, area),
        None => out.extend_from_slice(b"box 0 0 0 0\n"),
    }
}

fn write_use_name(out: &mut Vec<u8>, cell: &[u8], id: &[u8]) -> Result<(), AllocError>
    ensures { OnOk result (out.new.items ≡ out.old.items ++ text_of (use_line cell.now id.now ∷ [])) }
{
    out.extend_from_slice(b"use")?;
    append_word(out, cell)?;
    append_word(out, id)?;
    out.push(b'\n')?;
    Ok(())
}

fn write_use(out: &mut Vec<u8>, placed: &WrittenUse<'_>) -> Result<(), AllocError>
    ensures { OnOk result (out.new.items ≡ out.old.items ++ text_of (use_lines placed.now)) }
{
    write_use_name(out, placed.cell.bytes(), placed.id)?;
    write_array(out, placed)?;
    write_no_time(out)?;
    write_transform(out, placed)?;
    write_box(out, placed)?;
    Ok(())
}

fn write_uses(out: &mut Vec<u8>, uses: &[WrittenUse<'_>]) -> Result<(), AllocError>
    ensures { OnOk result (out.new.items ≡ out.old.items ++ text_of_each use_lines uses.now) }
{
    for placed in uses {
        write_use(out, placed)?;
    }
    Ok(())
}

// The word of a label's layer.
fn layer_word(tech: &Tech, layer: Option<LayerId>) -> &[u8]
    requires { IfSome layer (λ layer. layer.0 < length tech.now.layers) }
    ensures { result.now ≡ layer_word tech.now layer }
{
    match layer {
        Some(layer) => word_of(tech, usize::from(layer.0)),
        None => b"space",
    }
}

fn append_label_numbers(out: &mut Vec<u8>, area: &Rect, position: u8) -> Result<(), AllocError>
    ensures { OnOk result (out.new.items ≡ out.old.items ++ numbers_behind_blanks (label_numbers area.now position)) }
{
    append_numbers(
        out,
        &[area.xlo, area.ylo, area.xhi, area.yhi, i64::from(position)],
    )
}

fn write_label(out: &mut Vec<u8>, tech: &Tech, label: &Label) -> Result<(), AllocError>
    requires { IsLayered tech.now label.now }
    ensures { OnOk result (out.new.items ≡ out.old.items ++ text_of (label_line tech.now label.now ∷ [])) }
{
    out.extend_from_slice(b"rlabel")?;
    append_word(out, layer_word(tech, label.layer))?;
    append_label_numbers(out, &label.area, label.position)?;
    append_word(out, label.text.bytes())?;
    out.push(b'\n')?;
    Ok(())
}

fn write_each_label(out: &mut Vec<u8>, tech: &Tech, labels: &[Label]) -> Result<(), AllocError>
    requires { All (IsLayered tech.now) labels.now }
    ensures { OnOk result (out.new.items ≡ out.old.items ++ text_of_each (λ label. label_line tech.now label ∷ []) labels.now) }
{
    for label in labels {
        write_label(out, tech, label)?;
    }
    Ok(())
}

fn write_labels(out: &mut Vec<u8>, tech: &Tech, labels: &[Label]) -> Result<(), AllocError>
    requires { All (IsLayered tech.now) labels.now }
    ensures { OnOk result (out.new.items ≡ out.old.items ++ text_of (labels_lines tech.now labels.now)) }
{
    if labels.is_empty() {
        return Ok(());
    }
    out.extend_from_slice(b"<< labels >>\n")?;
    write_each_label(out, tech, labels)?;
    Ok(())
}
