//! The records of nodes.
ghost use Rattle.std.specs.Prelude.{◌≡◌, ◌≢◌, ◌∷◌, [], All, IfOk, IsTrue, length};
ghost use Rattle.tech_model.specs.Types.{is_type};
ghost use Rattle.layout_model.specs.Technologies.{rules_of};
ghost use Rattle.measures.specs.Bounds.{IsSmallMeasure};
ghost use Rattle.cell_nodes.specs.steps.Records.{IsRecordOf};

use crate::capacitances::capacitance_of;
use ext_model::NodeRec;
use names::NamedNode;
use names_lists::{List, Name};
use std::alloc::{AllocError, Global};
use tech_model::Tech;

/// Equal names.
fn copies(alloc: Global, names: &[Name]) -> Result<Vec<Name>, AllocError>
    ensures { IfOk result (λ copies. copies.items ≡ names.now) }
{
    let mut copies = Vec::with_capacity(alloc, names.len())?;
    for name in names {
        copies.push(name.copy(alloc)?)?;
    }
    Ok(copies)
}

/// The first name, and the others.
fn names_of(alloc: Global, names: &[Name]) -> Result<(Name, Vec<Name>), AllocError>
    requires { names.now ≢ [] }
    ensures { IfOk result (λ made. made.0 ∷ made.1.items ≡ names.now) }
{
    match names {
        [first, others @ ..] => Ok((first.copy(alloc)?, copies(alloc, others)?)),
        [] => Err(AllocError),
    }
}

/// The record of a node with these measures.
pub fn record_of(
    alloc: Global,
    tech: &Tech,
    node: &NamedNode,
    measures: &[(i128, i128)],
) -> Result<NodeRec, AllocError>
    requires kind { IsTrue (is_type tech.now node.now.kind.0) }
    requires named { node.now.names ≢ [] }
    requires one_each { length measures.now ≡ length tech.now.classes }
    requires small { All IsSmallMeasure measures.now }
    ensures { IfOk result (λ made. IsRecordOf tech.now node.now measures.now made) }
{
    let (name, aliases) = names_of(alloc, node.names.items())?;
    let kind = Name::of(alloc, tech.word(node.kind))?;
    let measured = Vec::from_slice(alloc, measures)?;
    Ok(NodeRec {
        name,
        aliases: List::of(aliases),
        cap: capacitance_of(tech, measures),
        x: node.least.x,
        y: node.least.y,
        kind,
        measures: List::of(measured),
    })
}
