// Circuits of const tables.
use ext_model::{Circuit, FetRec, NodeRec, TermRec};
use names_lists::{List, Name};
use std::alloc::Global;
use std::test::Fail;

pub type Measures = &'static [(i128, i128)];

// A node: its preferred name and its others, its capacitance, its least place, the type there, and its measures.
pub struct NodeRow {
    pub name: &'static [u8],
    pub aliases: &'static [&'static [u8]],
    pub cap: i128,
    pub at: (i64, i64),
    pub kind: &'static [u8],
    pub measures: Measures,
}

// A transistor of type efet or dfet over the substrate GND!: its point, area, perimeter, gate and terminals.
pub struct FetRow {
    pub kind: &'static [u8],
    pub at: (i64, i64),
    pub size: (i128, i128),
    pub gate: (&'static [u8], i128),
    pub terminals: &'static [(&'static [u8], i128)],
}

// A flat circuit in the technology nm.
pub struct CircuitRow {
    pub classes: &'static [u64],
    pub nodes: &'static [NodeRow],
    pub fets: &'static [FetRow],
}

fn node(alloc: Global, row: &NodeRow) -> Result<NodeRec, Fail> {
    let mut aliases = Vec::new(alloc);
    for alias in row.aliases {
        aliases.push(Name::of(alloc, alias)?)?;
    }
    Ok(NodeRec {
        name: Name::of(alloc, row.name)?,
        aliases: List::of(aliases),
        cap: row.cap,
        x: row.at.0,
        y: row.at.1,
        kind: Name::of(alloc, row.kind)?,
        measures: List::of(Vec::from_slice(alloc, row.measures)?),
    })
}

fn side(alloc: Global, row: (&[u8], i128)) -> Result<TermRec, Fail> {
    Ok(TermRec {
        node: Name::of(alloc, row.0)?,
        length: row.1,
    })
}

fn fet(alloc: Global, row: &FetRow) -> Result<FetRec, Fail> {
    let mut terminals = Vec::new(alloc);
    for terminal in row.terminals {
        terminals.push(side(alloc, *terminal)?)?;
    }
    Ok(FetRec {
        kind: Name::of(alloc, row.kind)?,
        x: row.at.0,
        y: row.at.1,
        area: row.size.0,
        perimeter: row.size.1,
        substrate: Name::of(alloc, b"GND!")?,
        gate: side(alloc, row.gate)?,
        terminals: List::of(terminals),
    })
}

fn nodes(alloc: Global, rows: &[NodeRow]) -> Result<List<NodeRec>, Fail> {
    let mut nodes = Vec::new(alloc);
    for row in rows {
        nodes.push(node(alloc, row)?)?;
    }
    Ok(List::of(nodes))
}

fn fets(alloc: Global, rows: &[FetRow]) -> Result<List<FetRec>, Fail> {
    let mut fets = Vec::new(alloc);
    for row in rows {
        fets.push(fet(alloc, row)?)?;
    }
    Ok(List::of(fets))
}

// The flat circuit of a row.
pub fn circuit(alloc: Global, row: &CircuitRow) -> Result<Circuit, Fail> {
    Ok(Circuit {
        tech: Name::of(alloc, b"nm")?,
        classes: List::of(Vec::from_slice(alloc, row.classes)?),
        nodes: nodes(alloc, row.nodes)?,
        fets: fets(alloc, row.fets)?,
    })
}
