//! Writes single commands, each behind what a text has already.
ghost use Rattle.std.specs.Prelude.{◌≡◌, ◌∷◌, ◌++◌, [], pos, ◌+ℤ◌, ◌-ℤ◌, ◌*ℤ◌, map, codes, OnOk};
ghost use Rattle.text_scan.specs.Decimal.{decimal};
ghost use Rattle.text_scan.specs.Written.{behind_blanks, text_of};
ghost use Rattle.cif_writing.specs.Commands.{start_command, name_command, layer_command, box_command};
ghost use Rattle.cif_writing.specs.Commands.{is_reflection, mirror_words, direction, stays, turn_words, shift_words, call_command};
ghost use Rattle.cif_writing.specs.Commands.{finish_command, plain_call, end_line};

use geo_core::{Orient, Rect, Transform};
use std::alloc::AllocError;
use text_scan::append_decimal;

// Puts a blank and a word at the end of a text.
fn append_word(out: &mut Vec<u8>, word: &[u8]) -> Result<(), AllocError>
    ensures { OnOk result (out.new.items ≡ out.old.items ++ 32 ∷ word.now) }
{
    out.push(b' ')?;
    out.extend_from_slice(word)
}

// Puts a blank and a number at the end of a text.
fn append_number(out: &mut Vec<u8>, value: &i128) -> Result<(), AllocError>
    ensures { OnOk result (out.new.items ≡ out.old.items ++ 32 ∷ decimal value.now) }
{
    out.push(b' ')?;
    append_decimal(out, *value)
}

// Puts a blank and a count at the end of a text.
fn append_count(out: &mut Vec<u8>, count: usize) -> Result<(), AllocError>
    ensures { OnOk result (out.new.items ≡ out.old.items ++ 32 ∷ decimal (pos count)) }
{
    append_number(out, &(count as i128))
}

// Puts a blank and twice a number at the end of a text.
fn append_twice(out: &mut Vec<u8>, value: &i64) -> Result<(), AllocError>
    ensures { OnOk result (out.new.items ≡ out.old.items ++ 32 ∷ decimal (pos 2 *ℤ value.now)) }
{
    append_number(out, &(2 * i128::from(*value)))
}

// Puts a blank and twice the way from one number to another at the end of a text.
fn append_way(out: &mut Vec<u8>, from: &i64, to: &i64) -> Result<(), AllocError>
    ensures { OnOk result (out.new.items ≡ out.old.items ++ 32 ∷ decimal (pos 2 *ℤ (to.now -ℤ from.now))) }
{
    append_number(out, &(2 * (i128::from(*to) - i128::from(*from))))
}

// Puts a blank and the sum of two numbers at the end of a text.
fn append_sum(out: &mut Vec<u8>, one: &i64, other: &i64) -> Result<(), AllocError>
    ensures { OnOk result (out.new.items ≡ out.old.items ++ 32 ∷ decimal (one.now +ℤ other.now)) }
{
    append_number(out, &(i128::from(*one) + i128::from(*other)))
}

// Ends a command and its line.
fn end_command(out: &mut Vec<u8>) -> Result<(), AllocError>
    ensures { OnOk result (out.new.items ≡ out.old.items ++ codes ";\n") }
{
    out.extend_from_slice(b";\n")
}

/// Begins the symbol of this number.
pub fn write_start(out: &mut Vec<u8>, number: usize) -> Result<(), AllocError>
    ensures { OnOk result (out.new.items ≡ out.old.items ++ text_of (start_command number ∷ [])) }
{
    out.extend_from_slice(b"DS")?;
    append_count(out, number)?;
    out.extend_from_slice(b" 1 2;\n")?;
    Ok(())
}

/// Writes the name of a symbol's cell.
pub fn write_name(out: &mut Vec<u8>, name: &[u8]) -> Result<(), AllocError>
    ensures { OnOk result (out.new.items ≡ out.old.items ++ text_of (name_command name.now ∷ [])) }
{
    out.push(b'9')?;
    append_word(out, name)?;
    end_command(out)?;
    Ok(())
}

/// Writes that the boxes behind are of the part of this number.
pub fn write_layer(out: &mut Vec<u8>, part: usize) -> Result<(), AllocError>
    ensures { OnOk result (out.new.items ≡ out.old.items ++ text_of (layer_command part ∷ [])) }
{
    out.extend_from_slice(b"L P")?;
    append_decimal(out, part as i128)?;
    end_command(out)?;
    Ok(())
}

/// Writes a box.
pub fn write_box(out: &mut Vec<u8>, area: &Rect) -> Result<(), AllocError>
    ensures { OnOk result (out.new.items ≡ out.old.items ++ text_of (box_command area.now ∷ [])) }
{
    out.push(b'B')?;
    append_way(out, &area.xlo, &area.xhi)?;
    append_way(out, &area.ylo, &area.yhi)?;
    append_sum(out, &area.xlo, &area.xhi)?;
    append_sum(out, &area.ylo, &area.yhi)?;
    end_command(out)?;
    Ok(())
}

// Whether the orientation mirrors.
fn is_reflection(orient: Orient) -> bool
    ensures { result ≡ is_reflection orient }
{
    matches!(
        orient,
        Orient::Mx | Orient::My | Orient::Mx90 | Orient::My90
    )
}

// Where the x axis goes, if it was not turned round first.
fn direction(orient: Orient) -> (i128, i128)
    ensures { result ≡ direction orient }
{
    match orient {
        Orient::R0 | Orient::My => (1, 0),
        Orient::R90 | Orient::My90 => (0, 1),
        Orient::R180 | Orient::Mx => (-1, 0),
        Orient::R270 | Orient::Mx90 => (0, -1),
    }
}

// Whether the x axis goes where it was then.
fn stays(orient: Orient) -> bool
    ensures { result ≡ stays orient }
{
    matches!(orient, Orient::R0 | Orient::My)
}

fn append_mirror(out: &mut Vec<u8>, orient: Orient) -> Result<(), AllocError>
    ensures { OnOk result (out.new.items ≡ out.old.items ++ behind_blanks (mirror_words orient)) }
{
    if is_reflection(orient) {
        out.extend_from_slice(b" M X")?;
    }
    Ok(())
}

fn append_direction(out: &mut Vec<u8>, orient: Orient) -> Result<(), AllocError>
    ensures { OnOk result (out.new.items ≡ out.old.items ++ behind_blanks (map decimal ((direction orient).0 ∷ (direction orient).1 ∷ []))) }
{
    let (p, q) = direction(orient);
    append_number(out, &p)?;
    append_number(out, &q)?;
    Ok(())
}

fn append_turn(out: &mut Vec<u8>, orient: Orient) -> Result<(), AllocError>
    ensures { OnOk result (out.new.items ≡ out.old.items ++ behind_blanks (turn_words orient)) }
{
    if stays(orient) {
        return Ok(());
    }
    out.extend_from_slice(b" R")?;
    append_direction(out, orient)?;
    Ok(())
}

fn append_shift(out: &mut Vec<u8>, element: &Transform) -> Result<(), AllocError>
    ensures { OnOk result (out.new.items ≡ out.old.items ++ behind_blanks (shift_words element.now)) }
{
    out.extend_from_slice(b" T")?;
    append_twice(out, &element.dx)?;
    append_twice(out, &element.dy)?;
    Ok(())
}

/// Calls the symbol of this number as an element stands.
pub fn write_call(out: &mut Vec<u8>, number: usize, element: &Transform) -> Result<(), AllocError>
    ensures { OnOk result (out.new.items ≡ out.old.items ++ text_of (call_command number element.now ∷ [])) }
{
    out.push(b'C')?;
    append_count(out, number)?;
    append_mirror(out, element.orient)?;
    append_turn(out, element.orient)?;
    append_shift(out, element)?;
    end_command(out)?;
    Ok(())
}

/// Ends a symbol.
pub fn write_finish(out: &mut Vec<u8>) -> Result<(), AllocError>
    ensures { OnOk result (out.new.items ≡ out.old.items ++ text_of (finish_command ∷ [])) }
{
    out.extend_from_slice(b"DF;\n")
}

/// Calls the symbol of this number as it is, and ends the text.
pub fn write_end(out: &mut Vec<u8>, number: usize) -> Result<(), AllocError>
    ensures { OnOk result (out.new.items ≡ out.old.items ++ text_of (plain_call number ∷ end_line ∷ [])) }
{
    out.push(b'C')?;
    append_count(out, number)?;
    end_command(out)?;
    out.extend_from_slice(b"E\n")?;
    Ok(())
}
