//! The lines that tell how many squares the layers of a CIF text have.
ghost use Rattle.std.specs.Prelude.{◌≡◌, All, map, IfOk};
ghost use Rattle.geo_core.specs.FiniteSets.Total.{sum_on};
ghost use Rattle.rect_contacts.specs.Squares.{area_of};
ghost use Rattle.line_answers.specs.LineEffects.{reply};
ghost use Rattle.cif_commands.specs.CommandCifstat.{layer_line, stat_lines, sum_text};
ghost use Rattle.cif_commands.specs.steps.Layers.{HasNearStrips, IsNearStrip, layer_area};

use cif_expansion::LayerStrips;
use geo_core::Rect;
use line_answers::{append_count, append_with_name, reply};
use measures::area_of;
use names_lists::Name;
use session_model::ReportLine;
use std::alloc::{AllocError, Global};
use text_scan::append_decimal;

/// A line for each layer, with its name and how many squares its strips have, and then one with how many layers there are.
pub fn stat_lines(
    alloc: Global,
    name: &Name,
    layers: &[LayerStrips],
) -> Result<Vec<ReportLine>, AllocError>
    requires { All HasNearStrips layers.now }
    ensures { IfOk result (λ lines. lines.items ≡ stat_lines name.now (map layer_area layers.now)) }
{
    let mut lines = layer_lines(alloc, layers)?;
    lines.push(sum_line(alloc, name, layers.len())?)?;
    Ok(lines)
}

// The lines of layers.
fn layer_lines(alloc: Global, layers: &[LayerStrips]) -> Result<Vec<ReportLine>, AllocError>
    requires { All HasNearStrips layers.now }
    ensures { IfOk result (λ lines. lines.items ≡ map layer_line (map layer_area layers.now)) }
{
    let mut lines = Vec::with_capacity(alloc, layers.len())?;
    for layer in layers {
        lines.push(layer_line(alloc, layer)?)?;
    }
    Ok(lines)
}

// `layer NAME area A`.
fn layer_line(alloc: Global, layer: &LayerStrips) -> Result<ReportLine, AllocError>
    requires { HasNearStrips layer.now }
    ensures { IfOk result (λ line. line ≡ layer_line (layer_area layer.now)) }
{
    let mut text = Vec::new(alloc);
    append_with_name(&mut text, b"layer ", &layer.name)?;
    text.extend_from_slice(b" area ")?;
    append_decimal(&mut text, squares_in(layer.strips.items()))?;
    Ok(reply(text))
}

// How many squares these strips have together.
fn squares_in(strips: &[Rect]) -> i128
    requires { All IsNearStrip strips.now }
    ensures { result ≡ sum_on area_of strips.now }
{
    let mut squares = 0;
    for strip in strips {
        squares += i128::from(area_of(strip));
    }
    squares
}

// `cifstat FILE: K layers`.
fn sum_line(alloc: Global, name: &Name, layers: usize) -> Result<ReportLine, AllocError>
    ensures { IfOk result (λ line. line ≡ reply (sum_text name.now layers)) }
{
    let mut text = Vec::new(alloc);
    append_with_name(&mut text, b"cifstat ", name)?;
    append_count(&mut text, b": ", layers, b" layers")?;
    Ok(reply(text))
}
