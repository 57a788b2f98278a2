//! The lines of nodes.
ghost use Rattle.std.specs.Prelude.{◌≡◌, ◌++◌, OnOk};
ghost use Rattle.ext_text.specs.steps.Appended.{whole_line};
ghost use Rattle.ext_text.specs.NodeLines.{node_line, node_words};
ghost use Rattle.ext_text.specs.WrittenTexts.{equiv_words};

use crate::words::{append_coordinate, append_measures, append_number, append_quoted, append_word};
use ext_model::NodeRec;
use names_lists::Name;
use std::alloc::AllocError;

/// Puts the line of a node, `node "NAME" 0 C x y TYPE a1 p1 .. aN pN` without an end of line, at the end of a text. Want of
/// memory alone refuses, and part of the line may then stand there.
pub fn append_node_line(out: &mut Vec<u8>, node: &NodeRec) -> Result<(), AllocError>
    ensures { OnOk result (out.new.items ≡ out.old.items ++ node_line node.now) }
{
    out.extend_from_slice(b"node")?;
    append_quoted(out, node.name.bytes())?;
    out.extend_from_slice(b" 0")?;
    append_number(out, &node.cap)?;
    append_coordinate(out, &node.x)?;
    append_coordinate(out, &node.y)?;
    append_word(out, node.kind.bytes())?;
    append_measures(out, node.measures.items())?;
    Ok(())
}

/// Puts the line of a node with its end at the end of a text.
#[tactic(auto, unfolding(crate::specs::NodeLines::node_line))]
pub fn write_node(out: &mut Vec<u8>, node: &NodeRec) -> Result<(), AllocError>
    ensures { OnOk result (out.new.items ≡ out.old.items ++ whole_line (node_words node.now)) }
{
    append_node_line(out, node)?;
    out.push(b'\n')?;
    Ok(())
}

/// Puts the line of an alias with its end at the end of a text.
pub fn write_alias(out: &mut Vec<u8>, name: &Name, alias: &Name) -> Result<(), AllocError>
    ensures { OnOk result (out.new.items ≡ out.old.items ++ whole_line (equiv_words name.now alias.now)) }
{
    out.extend_from_slice(b"equiv")?;
    append_quoted(out, name.bytes())?;
    append_quoted(out, alias.bytes())?;
    out.push(b'\n')?;
    Ok(())
}
