//! The lines of uses, transistors and merges, and those of a header.
ghost use Rattle.text_scan.specs.Written.{behind_blanks};
ghost use Rattle.std.specs.Prelude.{◌≡◌, ◌++◌, flat_map, OnOk};
ghost use Rattle.ext_model.specs.LawfulArrays.{IsMergeRow};
ghost use Rattle.ext_text.specs.steps.Appended.{whole_line};
ghost use Rattle.ext_text.specs.WrittenTexts.{header_words, use_words, term_words, square_words, fet_words, merge_words, lines_text};

use crate::names::{append_row_path, append_use_name};
use crate::words::{
    append_coordinate, append_coordinates, append_measures, append_next, append_number,
    append_quoted, append_values, append_word,
};
use ext_model::{ArrayUse, FetRec, MergeRow, TermRec};
use names_lists::Name;
use std::alloc::AllocError;

/// Puts the lines of a header of this version at the end of a text.
pub fn write_header(
    out: &mut Vec<u8>,
    version: &[u8],
    tech: &Name,
    classes: &[u64],
) -> Result<(), AllocError>
    ensures { OnOk result (out.new.items ≡ out.old.items ++ lines_text (header_words version.now tech.now classes.now)) }
{
    out.extend_from_slice(b"tech")?;
    append_word(out, tech.bytes())?;
    out.extend_from_slice(b"\ntimestamp 0\nversion")?;
    append_word(out, version)?;
    out.extend_from_slice(b"\nstyle")?;
    append_word(out, tech.bytes())?;
    out.extend_from_slice(b"\nscale 1 1 1\nresistclasses")?;
    append_values(out, classes)?;
    out.push(b'\n')?;
    Ok(())
}

/// Puts the line of a use at the end of a text.
pub fn write_use(out: &mut Vec<u8>, used: &ArrayUse) -> Result<(), AllocError>
    ensures { OnOk result (out.new.items ≡ out.old.items ++ whole_line (use_words used.now)) }
{
    out.extend_from_slice(b"use")?;
    append_word(out, used.cell.bytes())?;
    append_use_name(out, used.id.bytes(), &used.grid)?;
    append_coordinates(out, &used.six)?;
    out.push(b'\n')?;
    Ok(())
}

// Puts a gate or a terminal at the end of a text.
fn append_term(out: &mut Vec<u8>, side: &TermRec) -> Result<(), AllocError>
    ensures { OnOk result (out.new.items ≡ out.old.items ++ behind_blanks (term_words side.now)) }
{
    append_quoted(out, side.node.bytes())?;
    append_number(out, &side.length)?;
    out.extend_from_slice(b" 0")?;
    Ok(())
}

// Puts terminals at the end of a text.
fn append_terms(out: &mut Vec<u8>, sides: &[TermRec]) -> Result<(), AllocError>
    ensures { OnOk result (out.new.items ≡ out.old.items ++ behind_blanks (flat_map term_words sides.now)) }
{
    for side in sides {
        append_term(out, side)?;
    }
    Ok(())
}

// Puts the point of a transistor and the far corner of its square at the end of a text.
fn append_square(out: &mut Vec<u8>, fet: &FetRec) -> Result<(), AllocError>
    ensures { OnOk result (out.new.items ≡ out.old.items ++ behind_blanks (square_words fet.now)) }
{
    append_coordinate(out, &fet.x)?;
    append_coordinate(out, &fet.y)?;
    append_next(out, &fet.x)?;
    append_next(out, &fet.y)?;
    Ok(())
}

/// Puts the line of a transistor at the end of a text.
pub fn write_fet(out: &mut Vec<u8>, fet: &FetRec) -> Result<(), AllocError>
    ensures { OnOk result (out.new.items ≡ out.old.items ++ whole_line (fet_words fet.now)) }
{
    out.extend_from_slice(b"fet")?;
    append_word(out, fet.kind.bytes())?;
    append_square(out, fet)?;
    append_number(out, &fet.area)?;
    append_number(out, &fet.perimeter)?;
    append_quoted(out, fet.substrate.bytes())?;
    append_term(out, &fet.gate)?;
    append_terms(out, fet.terminals.items())?;
    out.push(b'\n')?;
    Ok(())
}

/// Puts the line of a row of merges at the end of a text.
pub fn write_merge(out: &mut Vec<u8>, row: &MergeRow) -> Result<(), AllocError>
    requires { IsMergeRow row.now }
    ensures { OnOk result (out.new.items ≡ out.old.items ++ whole_line (merge_words row.now)) }
{
    out.extend_from_slice(b"merge")?;
    append_quoted(out, row.first.bytes())?;
    append_row_path(out, row.second.bytes(), row.count)?;
    append_number(out, &row.cap)?;
    append_measures(out, row.measures.items())?;
    out.push(b'\n')?;
    Ok(())
}
