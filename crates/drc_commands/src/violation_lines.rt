//! The lines that tell where a cell violates design rules.
ghost use Rattle.std.specs.Prelude.{◌≡◌, ◌<◌, All, map, length, IfOk};
ghost use Rattle.line_answers.specs.LineEffects.{reply};
ghost use Rattle.drc_commands.specs.CommandDrc.{check_lines, sum_text, violation_line};

use drc_check::Violation;
use line_answers::{append_bounds, append_count, append_with_name, reply};
use names_lists::{List, Name};
use session_model::{LineKind, ReportLine};
use std::alloc::{AllocError, Global};
use tech_model::Tech;

/// A line for each strip at which the cell of this name violates a rule, and then one with how many rules and strips there are.
pub fn check_lines(
    alloc: Global,
    tech: &Tech,
    cell: &Name,
    rules: usize,
    found: &[Violation],
) -> Result<Vec<ReportLine>, AllocError>
    requires { All (λ violation. violation.plane < length tech.now.planes) found.now }
    ensures { IfOk result (λ lines. lines.items ≡ check_lines tech.now cell.now rules found.now) }
{
    let mut lines = violation_lines(alloc, tech, cell, found)?;
    lines.push(sum_line(alloc, cell, rules, found.len())?)?;
    Ok(lines)
}

// The lines of strips.
fn violation_lines(
    alloc: Global,
    tech: &Tech,
    cell: &Name,
    found: &[Violation],
) -> Result<Vec<ReportLine>, AllocError>
    requires { All (λ violation. violation.plane < length tech.now.planes) found.now }
    ensures { IfOk result (λ lines. lines.items ≡ map (violation_line tech.now cell.now) found.now) }
{
    let mut lines = Vec::with_capacity(alloc, found.len())?;
    for violation in found {
        lines.push(violation_line(alloc, tech, cell, violation)?)?;
    }
    Ok(lines)
}

// `violation CELL RULE PLANE XLO YLO XHI YHI`.
fn violation_line(
    alloc: Global,
    tech: &Tech,
    cell: &Name,
    violation: &Violation,
) -> Result<ReportLine, AllocError>
    requires { violation.now.plane < length tech.now.planes }
    ensures { IfOk result (λ line. line ≡ violation_line tech.now cell.now violation.now) }
{
    let plane = &tech.raw().planes.items()[usize::from(violation.plane)];
    let mut text = Vec::new(alloc);
    append_with_name(&mut text, b"violation ", cell)?;
    append_count(&mut text, b" ", violation.rule as usize, b" ")?;
    text.extend_from_slice(plane.bytes())?;
    append_bounds(&mut text, &violation.area)?;
    Ok(ReportLine {
        kind: LineKind::Violation,
        text: List::of(text),
    })
}

// `drc CELL: R rules S strips`.
fn sum_line(
    alloc: Global,
    cell: &Name,
    rules: usize,
    strips: usize,
) -> Result<ReportLine, AllocError>
    ensures { IfOk result (λ line. line ≡ reply (sum_text cell.now rules strips)) }
{
    let mut text = Vec::new(alloc);
    append_with_name(&mut text, b"drc ", cell)?;
    append_count(&mut text, b": ", rules, b" rules ")?;
    append_count(&mut text, b"", strips, b" strips")?;
    Ok(reply(text))
}
