//! `nodes c`: the lines of the nodes of the own paint of c.
ghost use Rattle.std.specs.Prelude.{◌≡◌, ◌<◌, length, IfOk};
ghost use Rattle.cell_library.specs.Libraries.{seen};
ghost use Rattle.ext_text.specs.NodeLines.{node_line};
ghost use Rattle.line_answers.specs.LineEffects.{IsOfInside, reply};
ghost use Rattle.look_commands.specs.CommandNodes.{TellsNodes, node_lines};

use cell_library::Library;
use ext_model::{CellKey, NodeRec};
use ext_text::append_node_line;
use library_trees::cell_nodes::cell_nodes;
use line_answers::reply;
use session_model::ReportLine;
use std::alloc::{AllocError, Global};

/// The lines of the nodes of a cell's paint.
pub fn nodes(alloc: Global, library: &Library, cell: CellKey) -> Result<Vec<ReportLine>, AllocError>
    requires { cell.0 < length library.now.contents }
    ensures lines { IfOk result (λ lines. TellsNodes (seen library.now) cell.0 lines.items) }
    ensures inside { IfOk result (λ lines. IsOfInside lines.items) }
{
    library.lawful();
    let found = cell_nodes(
        alloc,
        library.tech(),
        library.paint_of(cell),
        library.labels_of(cell),
    )?;
    lines_of(alloc, found.nodes.items())
}

// The lines of these nodes.
fn lines_of(alloc: Global, nodes: &[NodeRec]) -> Result<Vec<ReportLine>, AllocError>
    ensures { IfOk result (λ lines. lines.items ≡ node_lines nodes.now) }
{
    let mut lines = Vec::with_capacity(alloc, nodes.len())?;
    for node in nodes {
        lines.push(line_of(alloc, node)?)?;
    }
    Ok(lines)
}

// The line of a node.
fn line_of(alloc: Global, node: &NodeRec) -> Result<ReportLine, AllocError>
    ensures { IfOk result (λ line. line ≡ reply (node_line node.now)) }
{
    let mut text = Vec::new(alloc);
    append_node_line(&mut text, node)?;
    Ok(reply(text))
}
