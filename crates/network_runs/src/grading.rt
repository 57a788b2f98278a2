//! Which stuck faults of a circuit a vector file detects.
ghost use Rattle.std.specs.Prelude.{◌≡◌, ◌++◌, ◌<◌, ◌≤◌, All, length, IfOk, OnOk, IsOkUnless};
ghost use Rattle.std.specs.List.{count_by};
ghost use Rattle.switch_net.specs.Net.{network_of};
ghost use Rattle.vector_files.specs.VectorFiles.{IsWithin};
ghost use Rattle.vector_runs.specs.Runs.{IsFresh};
ghost use Rattle.sim_networks.specs.SimNetworks.{HasNodeForEach};
ghost use Rattle.fault_grade.specs.Grades.{faults_of};
ghost use Rattle.fault_grade.specs.declared.limits.TheConstants.{MOST_FAULTS};
ghost use Rattle.line_answers.specs.LineEffects.{IsOfInside};
ghost use Rattle.network_runs.specs.Grading.{TellsFaults, TellsGrades, coverage_text, detection_text, grade_line, grade_lines};
ghost use Rattle.network_runs.specs.Grading.{grade_text, is_detected, preferred_names};

use crate::refusals::limit_passed;
use crate::simulations::refused_vectors;
use ext_model::Circuit;
use fault_grade::{GradeFault, Graded, grade, has_too_many_faults};
use line_answers::reply;
use names_lists::{List, Name};
use session_model::{Halt, LineKind, ReportLine};
use std::alloc::{AllocError, Global};
use switch_net::NamedNet;
use text_scan::append_decimal;
use vector_files::{Vectors, read_vectors};
use vector_runs::level_byte;

/// The lines that tell which stuck faults a vector file of this text detects, on the network of the circuit of the cell of this name as it
/// is made.
pub fn coverage_lines(
    alloc: Global,
    number: usize,
    budget: u32,
    cell: &Name,
    text: &[u8],
    circuit: &Circuit,
    named: &mut NamedNet,
) -> Result<Vec<ReportLine>, Halt>
    requires fresh { IsFresh (network_of named.old.net) named.old.names }
    requires nodes { HasNodeForEach (preferred_names circuit.now) (network_of named.old.net) named.old.names }
    ensures tells { IfOk result (λ lines.
        TellsFaults budget number cell.now text.now circuit.now (network_of named.old.net) named.old.names lines.items) }
    ensures inside { IfOk result (λ lines. IsOfInside lines.items) }
    ensures memory { IsOkUnless result Halt.Memory }
{
    if has_too_many_faults(named) {
        return limit_passed(alloc, number, b"Faults");
    }
    match read_vectors(alloc, text, named) {
        Ok(vectors) => graded_lines(alloc, budget, cell, circuit, named, &vectors),
        Err(at) => refused_vectors(alloc, number, at),
    }
}

// The lines of the grades of these vectors, on a network that has no more faults than can be graded.
fn graded_lines(
    alloc: Global,
    budget: u32,
    cell: &Name,
    circuit: &Circuit,
    named: &mut NamedNet,
    vectors: &Vectors,
) -> Result<Vec<ReportLine>, Halt>
    requires fresh { IsFresh (network_of named.old.net) named.old.names }
    requires within { IsWithin named.old vectors.now }
    requires few { length (faults_of named.old.names named.old.net.nodes) ≤ MOST_FAULTS }
    requires nodes { HasNodeForEach (preferred_names circuit.now) (network_of named.old.net) named.old.names }
    ensures tells { IfOk result (λ lines. TellsGrades budget cell.now circuit.now (network_of named.old.net) named.old.names vectors.now lines.items) }
    ensures inside { IfOk result (λ lines. IsOfInside lines.items) }
    ensures memory { IsOkUnless result Halt.Memory }
{
    match grade(alloc, named, vectors, budget) {
        Ok(grades) => Ok(grade_lines(alloc, cell, circuit, &grades)?),
        Err(GradeFault::Memory) => Err(Halt::Memory),
        Err(GradeFault::TooManyFaults) => unreachable!(),
    }
}

// The lines of grades, and how many of them are of faults that are detected.
fn grade_lines(
    alloc: Global,
    cell: &Name,
    circuit: &Circuit,
    grades: &[Graded],
) -> Result<Vec<ReportLine>, AllocError>
    requires { All (λ graded. graded.node < length circuit.now.nodes) grades.now }
    ensures { IfOk result (λ lines. lines.items ≡ grade_lines cell.now (preferred_names circuit.now) grades.now) }
{
    let mut lines = Vec::new(alloc);
    for graded in grades {
        lines.push(grade_line(alloc, circuit, graded)?)?;
    }
    lines.push(reply(coverage_text(alloc, cell, grades)?))?;
    Ok(lines)
}

// The line of a grade, of one of the nodes of the circuit.
fn grade_line(alloc: Global, circuit: &Circuit, graded: &Graded) -> Result<ReportLine, AllocError>
    requires { graded.now.node < length circuit.now.nodes }
    ensures { IfOk result (λ line. line ≡ grade_line (preferred_names circuit.now) graded.now) }
{
    let node = &circuit.nodes.items()[graded.node as usize];
    Ok(ReportLine {
        kind: LineKind::Fault,
        text: List::of(grade_text(alloc, &node.name, graded)?),
    })
}

// The text of a grade, of a node of this name.
fn grade_text(alloc: Global, name: &Name, graded: &Graded) -> Result<Vec<u8>, AllocError>
    ensures { IfOk result (λ text. text.items ≡ grade_text name.now graded.now) }
{
    let mut text = Vec::from_slice(alloc, b"fault ")?;
    text.extend_from_slice(name.bytes())?;
    text.push(b' ')?;
    text.push(level_byte(graded.value))?;
    append_detection(&mut text, graded.line)?;
    Ok(text)
}

// Appends whether a fault is detected, and at which line.
fn append_detection(text: &mut Vec<u8>, line: Option<u32>) -> Result<(), AllocError>
    ensures { OnOk result (text.new.items ≡ text.old.items ++ detection_text line) }
{
    match line {
        Some(line) => {
            text.extend_from_slice(b" detected ")?;
            append_decimal(text, i128::from(line))
        }
        None => Ok(text.extend_from_slice(b" undetected")?),
    }
}

// How many of the grades are of faults that are detected.
fn count_detected(grades: &[Graded]) -> usize
    ensures { result ≡ count_by is_detected grades.now }
{
    grades.iter().filter(|graded| graded.line.is_some()).count()
}

// How many faults there are, and how many of them are detected.
fn coverage_text(alloc: Global, cell: &Name, grades: &[Graded]) -> Result<Vec<u8>, AllocError>
    ensures { IfOk result (λ text. text.items ≡ coverage_text cell.now grades.now) }
{
    let detected = count_detected(grades);
    let mut text = Vec::from_slice(alloc, b"grade ")?;
    text.extend_from_slice(cell.bytes())?;
    text.extend_from_slice(b": ")?;
    append_decimal(&mut text, grades.len() as i128)?;
    text.extend_from_slice(b" faults ")?;
    append_decimal(&mut text, detected as i128)?;
    text.extend_from_slice(b" detected")?;
    Ok(text)
}
