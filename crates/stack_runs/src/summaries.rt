//! Reports of a stack.
ghost use Rattle.std.specs.Prelude.{◌≡◌, ◌++◌, ◌+ℤ◌, pos, IfOk, OnOk};
ghost use Rattle.finite_sets.specs.Total.{sum_on};
ghost use Rattle.text_scan.specs.Decimal.{decimal};
ghost use Rattle.stack_runs.specs.Summaries.{area_of, circuit_text, count_text, element_count, layout_text, measures_text, outcome_text};
ghost use Rattle.stack_runs.specs.Summaries.{perimeter_of, summary_of, summary_text};

use crate::outcomes::Outcome;
use ext_model::{Circuit, NodeRec};
use std::alloc::{AllocError, Global};
use text_scan::append_decimal;

/// What is reported of a stack of so many rows with as many tiles: how many nodes and transistors its circuit has, their areas and
/// perimeters in all classes together, and what came of its vectors.
#[derive(Clone, Copy, Debug, PartialEq, Eq)]
pub struct Summary {
    pub rows: u32,
    pub nodes: usize,
    pub transistors: usize,
    pub area: i128,
    pub perimeter: i128,
    pub outcome: Outcome,
}

/// The areas and the perimeters of some nodes in all classes.
#[derive(Drop)]
struct Sums {
    area: i128,
    perimeter: i128,
}

/// The report of the circuit of a stack of n rows, and of the run of its vectors. A sum of more than 128 bits can't be told, and counts as
/// want of memory.
pub fn summary_of(n: u32, circuit: &Circuit, outcome: Outcome) -> Result<Summary, AllocError>
    ensures { IfOk result (λ summary. summary ≡ summary_of n circuit.now outcome) }
{
    let nodes = circuit.nodes.items();
    let sums = sums_of(nodes)?;
    Ok(Summary {
        rows: n,
        nodes: nodes.len(),
        transistors: circuit.fets.items().len(),
        area: sums.area,
        perimeter: sums.perimeter,
        outcome,
    })
}

// The sums of all nodes.
fn sums_of(nodes: &[NodeRec]) -> Result<Sums, AllocError>
    ensures area { IfOk result (λ sums. sums.area ≡ sum_on area_of nodes.now) }
    ensures perimeter { IfOk result (λ sums. sums.perimeter ≡ sum_on perimeter_of nodes.now) }
{
    let mut sums = Sums {
        area: 0,
        perimeter: 0,
    };
    for node in nodes {
        sums.add_node(node)?;
    }
    Ok(sums)
}

impl Sums {
    // One more node.
    fn add_node(&mut self, node: &NodeRec) -> Result<(), AllocError>
        ensures area { OnOk result (self.new.area ≡ self.old.area +ℤ area_of node.now) }
        ensures perimeter { OnOk result (self.new.perimeter ≡ self.old.perimeter +ℤ perimeter_of node.now) }
    {
        self.add_measures(node.measures.items())
    }

    // An area and a perimeter for each class.
    fn add_measures(&mut self, measures: &[(i128, i128)]) -> Result<(), AllocError>
        ensures area { OnOk result (self.new.area ≡ self.old.area +ℤ sum_on (λ measure. measure.0) measures.now) }
        ensures perimeter { OnOk result (self.new.perimeter ≡ self.old.perimeter +ℤ sum_on (λ measure. measure.1) measures.now) }
    {
        for measure in measures {
            self.add_measure(measure)?;
        }
        Ok(())
    }

    // One more area and perimeter.
    fn add_measure(&mut self, measure: &(i128, i128)) -> Result<(), AllocError>
        ensures area { OnOk result (self.new.area ≡ self.old.area +ℤ measure.now.0) }
        ensures perimeter { OnOk result (self.new.perimeter ≡ self.old.perimeter +ℤ measure.now.1) }
    {
        self.area = added(self.area, measure.0)?;
        self.perimeter = added(self.perimeter, measure.1)?;
        Ok(())
    }
}

// The sum of two numbers, where it fits.
fn added(number: i128, more: i128) -> Result<i128, AllocError>
    ensures { IfOk result (λ sum. sum ≡ number +ℤ more) }
{
    match number.checked_add(more) {
        Some(sum) => Ok(sum),
        None => Err(AllocError),
    }
}

impl Summary {
    /// The line of the report, without a line feed:
    /// `generate N: cells 3 elements E nodes N transistors F area A perimeter P steps S zeros Z ones O`.
    pub fn text(&self, alloc: Global) -> Result<Vec<u8>, AllocError>
        ensures { IfOk result (λ text. text.items ≡ summary_text self.now) }
    {
        let mut text = Vec::from_slice(alloc, b"generate ")?;
        append_decimal(&mut text, i128::from(self.rows))?;
        text.push(b':')?;
        append_layout(&mut text, self)?;
        append_circuit(&mut text, self)?;
        append_measures(&mut text, self)?;
        append_outcome(&mut text, &self.outcome)?;
        Ok(text)
    }
}

// Writes what is written of the layout.
fn append_layout(text: &mut Vec<u8>, summary: &Summary) -> Result<(), AllocError>
    ensures { OnOk result (text.new.items ≡ text.old.items ++ layout_text summary.now) }
{
    append_count(text, b"cells", 3)?;
    append_sum(text, b"elements", &element_count(summary.rows))
}

// How many elements a stack of so many rows has.
fn element_count(rows: u32) -> i128
    ensures { result ≡ pos (element_count rows) }
{
    let rows = i128::from(rows);
    1 + rows + rows * rows
}

// Writes what is written of the circuit.
fn append_circuit(text: &mut Vec<u8>, summary: &Summary) -> Result<(), AllocError>
    ensures { OnOk result (text.new.items ≡ text.old.items ++ circuit_text summary.now) }
{
    append_count(text, b"nodes", summary.nodes)?;
    append_count(text, b"transistors", summary.transistors)
}

// Writes what is written of its measures.
fn append_measures(text: &mut Vec<u8>, summary: &Summary) -> Result<(), AllocError>
    ensures { OnOk result (text.new.items ≡ text.old.items ++ measures_text summary.now) }
{
    append_sum(text, b"area", &summary.area)?;
    append_sum(text, b"perimeter", &summary.perimeter)
}

// Writes what is written of the run.
fn append_outcome(text: &mut Vec<u8>, outcome: &Outcome) -> Result<(), AllocError>
    ensures { OnOk result (text.new.items ≡ text.old.items ++ outcome_text outcome.now) }
{
    append_count(text, b"steps", outcome.steps as usize)?;
    append_count(text, b"zeros", outcome.zeros)?;
    append_count(text, b"ones", outcome.ones)
}

// Writes ` WORD N`.
fn append_count(text: &mut Vec<u8>, word: &[u8], count: usize) -> Result<(), AllocError>
    ensures { OnOk result (text.new.items ≡ text.old.items ++ count_text word.now (pos count)) }
{
    text.push(b' ')?;
    text.extend_from_slice(word)?;
    text.push(b' ')?;
    append_decimal(text, count as i128)
}

// Writes the same of a sum.
fn append_sum(text: &mut Vec<u8>, word: &[u8], sum: &i128) -> Result<(), AllocError>
    ensures { OnOk result (text.new.items ≡ text.old.items ++ count_text word.now sum.now) }
{
    text.push(b' ')?;
    text.extend_from_slice(word)?;
    text.push(b' ')?;
    append_decimal(text, *sum)
}
