//! Words behind what a line has already.
ghost use Rattle.std.specs.Prelude.{◌≡◌, ◌∷◌, ◌++◌, ◌+ℤ◌, pos, map, OnOk};
ghost use Rattle.text_scan.specs.Decimal.{decimal};
ghost use Rattle.text_scan.specs.Written.{behind_blanks};
ghost use Rattle.ext_text.specs.NodeLines.{quoted, measure_words};

use std::alloc::AllocError;
use text_scan::append_decimal;

/// Puts a blank and a word at the end of a text.
pub fn append_word(out: &mut Vec<u8>, word: &[u8]) -> Result<(), AllocError>
    ensures { OnOk result (out.new.items ≡ out.old.items ++ 32 ∷ word.now) }
{
    out.push(b' ')?;
    out.extend_from_slice(word)
}

/// Puts a blank and a name between quotes at the end of a text.
pub fn append_quoted(out: &mut Vec<u8>, name: &[u8]) -> Result<(), AllocError>
    ensures { OnOk result (out.new.items ≡ out.old.items ++ 32 ∷ quoted name.now) }
{
    out.extend_from_slice(b" \"")?;
    out.extend_from_slice(name)?;
    out.push(b'"')?;
    Ok(())
}

/// Puts a blank and a number at the end of a text.
pub fn append_number(out: &mut Vec<u8>, value: &i128) -> Result<(), AllocError>
    ensures { OnOk result (out.new.items ≡ out.old.items ++ 32 ∷ decimal value.now) }
{
    out.push(b' ')?;
    append_decimal(out, *value)
}

/// Puts a blank and a coordinate at the end of a text.
pub fn append_coordinate(out: &mut Vec<u8>, value: &i64) -> Result<(), AllocError>
    ensures { OnOk result (out.new.items ≡ out.old.items ++ 32 ∷ decimal value.now) }
{
    append_number(out, &i128::from(*value))
}

/// Puts a blank and the coordinate behind this one at the end of a text.
pub fn append_next(out: &mut Vec<u8>, value: &i64) -> Result<(), AllocError>
    ensures { OnOk result (out.new.items ≡ out.old.items ++ 32 ∷ decimal (value.now +ℤ pos 1)) }
{
    append_number(out, &(i128::from(*value) + 1))
}

// Puts a blank and the value of a class at the end of a text.
fn append_value(out: &mut Vec<u8>, value: u64) -> Result<(), AllocError>
    ensures { OnOk result (out.new.items ≡ out.old.items ++ 32 ∷ decimal (pos value)) }
{
    append_number(out, &i128::from(value))
}

/// Puts coordinates at the end of a text, a blank before each.
pub fn append_coordinates(out: &mut Vec<u8>, values: &[i64]) -> Result<(), AllocError>
    ensures { OnOk result (out.new.items ≡ out.old.items ++ behind_blanks (map decimal values.now)) }
{
    for value in values {
        append_coordinate(out, value)?;
    }
    Ok(())
}

/// Puts the values of classes at the end of a text, a blank before each.
pub fn append_values(out: &mut Vec<u8>, values: &[u64]) -> Result<(), AllocError>
    ensures { OnOk result (out.new.items ≡ out.old.items ++ behind_blanks (map (λ value. decimal (pos value)) values.now)) }
{
    for &value in values {
        append_value(out, value)?;
    }
    Ok(())
}

/// Puts areas and perimeters at the end of a text, a blank before each number.
pub fn append_measures(out: &mut Vec<u8>, measures: &[(i128, i128)]) -> Result<(), AllocError>
    ensures { OnOk result (out.new.items ≡ out.old.items ++ behind_blanks (measure_words measures.now)) }
{
    for measure in measures {
        append_number(out, &measure.0)?;
        append_number(out, &measure.1)?;
    }
    Ok(())
}
