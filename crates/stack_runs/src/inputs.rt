//! The vectors of a stack.
ghost use Rattle.std.specs.Prelude.{◌≡◌, ◌++◌, IfOk, OnOk};
ghost use Rattle.switch_net.specs.declared.switches.Level.TheVariants.{Zero, One};
ghost use Rattle.stack_runs.specs.StackVectors.{column_lines, column_name, row_lines, row_name, set_named, stack_vectors};

use names_lists::List;
use std::alloc::{AllocError, Global};
use switch_net::Level;
use text_scan::append_decimal;
use vector_files::{NodeNames, VecLine, Vectors};

/// The vectors of the number n for a network with these names.
pub fn stack_vectors(alloc: Global, names: &NodeNames, n: u32) -> Result<Vectors, AllocError>
    ensures { IfOk result (λ vectors. vectors ≡ stack_vectors names.now n) }
{
    let mut lines = row_lines(alloc, names, n)?;
    let mut columns = column_lines(alloc, names, n)?;
    lines.append(&mut columns)?;
    lines.push((0, VecLine::Phase))?;
    Ok(Vectors {
        lines: List::of(lines),
    })
}

// The lines that set rows to one.
fn row_lines(alloc: Global, names: &NodeNames, n: u32) -> Result<Vec<(u32, VecLine)>, AllocError>
    ensures { IfOk result (λ lines. lines.items ≡ row_lines names.now n) }
{
    let mut lines = Vec::new(alloc);
    for row in 0..n {
        let name = row_name(alloc, row)?;
        set_named(names, Level::One, &name, &mut lines)?;
    }
    Ok(lines)
}

// The lines that set columns to zero.
fn column_lines(alloc: Global, names: &NodeNames, n: u32) -> Result<Vec<(u32, VecLine)>, AllocError>
    ensures { IfOk result (λ lines. lines.items ≡ column_lines names.now n) }
{
    let mut lines = Vec::new(alloc);
    for column in 0..n {
        let name = column_name(alloc, column)?;
        set_named(names, Level::Zero, &name, &mut lines)?;
    }
    Ok(lines)
}

// Adds the line that sets the node of the name, where the network has the name.
fn set_named(
    names: &NodeNames,
    level: Level,
    name: &[u8],
    lines: &mut Vec<(u32, VecLine)>,
) -> Result<(), AllocError>
    ensures { OnOk result (lines.new.items ≡ lines.old.items ++ set_named names.now level name.now) }
{
    if let Some(node) = names.find(name) {
        lines.push((0, VecLine::Set(node, level)))?;
    }
    Ok(())
}

// The name of the poly of a row in its first tile.
fn row_name(alloc: Global, row: u32) -> Result<Vec<u8>, AllocError>
    ensures { IfOk result (λ name. name.items ≡ row_name row) }
{
    let mut name = Vec::from_slice(alloc, b"r[0,")?;
    append_decimal(&mut name, i128::from(row))?;
    name.extend_from_slice(b"]/t[0,0]/w")?;
    Ok(name)
}

// The name of the diffusion of a column in its lowest tile.
fn column_name(alloc: Global, column: u32) -> Result<Vec<u8>, AllocError>
    ensures { IfOk result (λ name. name.items ≡ column_name column) }
{
    let mut name = Vec::from_slice(alloc, b"r[0,0]/t[")?;
    append_decimal(&mut name, i128::from(column))?;
    name.extend_from_slice(b",0]/b")?;
    Ok(name)
}
