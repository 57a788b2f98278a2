//! What the further words of the commands say.
ghost use Rattle.std.specs.Prelude.{◌≡◌, ◌≢◌, ◌∷◌, [], length, map, replicate, Ok, Err, IfOk, IfErr, OnOk};
ghost use Rattle.text_scan.specs.Words.{words_of};
ghost use Rattle.script_lines.specs.declared.faults.LineFault.TheVariants.{Memory as OutOfMemory};
ghost use Rattle.script_lines.specs.Arguments.{Plain, Layer, UseId, Number, Position, Count, Text, Word, Value, read_words, words_and_text};
ghost use Rattle.script_lines.specs.Arguments.{area_given, label_given};
ghost use Rattle.script_lines.specs.Commands.{two_numbers, four_numbers, six_numbers, label_kinds};

use crate::arguments::{
    is_between, last_numbers, next_numbers, next_plain, next_use_id, next_word, no_more,
};
use crate::faults::LineFault;
use crate::limits::MOST_GENERATED;
use cell_bodies::{LAST_POSITION, is_label_text, without_outer_blanks};
use geo_core::Rect;
use names_lists::Name;
use std::alloc::Global;

// The rectangle of four numbers.
fn area_of(four: [i64; 4]) -> Rect
    ensures { map Value four ≡ area_given result }
{
    let [xlo, ylo, xhi, yhi] = four;
    Rect { xlo, ylo, xhi, yhi }
}

// The rectangle and the position of five numbers.
fn area_and_position_of(five: [i64; 5]) -> (Rect, i64)
    ensures { five ≡ result.0.xlo ∷ result.0.ylo ∷ result.0.xhi ∷ result.0.yhi ∷ result.1 ∷ [] }
{
    let [xlo, ylo, xhi, yhi, position] = five;
    (Rect { xlo, ylo, xhi, yhi }, position)
}

fn pair_of(two: [i64; 2]) -> (i64, i64)
    ensures { two ≡ result.0 ∷ result.1 ∷ [] }
{
    let [first, second] = two;
    (first, second)
}

fn number_of(one: [i64; 1]) -> i64
    ensures { one ≡ result ∷ [] }
{
    let [number] = one;
    number
}

/// No further word.
pub(crate) fn nothing(line: &[u8]) -> Result<(), LineFault>
    ensures read { OnOk result (read_words [] (words_of line.now) ≡ Ok []) }
    ensures refused { IfErr result (λ fault. fault ≢ OutOfMemory → read_words [] (words_of line.now) ≡ Err fault) }
{
    no_more(line)
}

/// The name of a cell or of a file.
pub(crate) fn plain_alone(alloc: Global, line: &[u8]) -> Result<Name, LineFault>
    ensures read { IfOk result (λ name.
        read_words (Plain ∷ []) (words_of line.now) ≡ Ok (Word name ∷ [])) }
    ensures refused { IfErr result (λ fault.
        fault ≢ OutOfMemory → read_words (Plain ∷ []) (words_of line.now) ≡ Err fault) }
{
    let mut rest = line;
    let name = next_plain(&mut rest)?;
    no_more(rest)?;
    Ok(Name::of(alloc, name)?)
}

/// Two names of cells or files.
pub(crate) fn plain_pair(alloc: Global, line: &[u8]) -> Result<(Name, Name), LineFault>
    ensures read { IfOk result (λ names.
        read_words (Plain ∷ Plain ∷ []) (words_of line.now) ≡ Ok (Word names.0 ∷ Word names.1 ∷ [])) }
    ensures refused { IfErr result (λ fault.
        fault ≢ OutOfMemory → read_words (Plain ∷ Plain ∷ []) (words_of line.now) ≡ Err fault) }
{
    let mut rest = line;
    let first = next_plain(&mut rest)?;
    let second = plain_alone(alloc, rest)?;
    Ok((Name::of(alloc, first)?, second))
}

/// A layer and a rectangle.
pub(crate) fn layer_and_area(alloc: Global, line: &[u8]) -> Result<(Name, Rect), LineFault>
    ensures read { IfOk result (λ found.
        read_words (Layer ∷ four_numbers) (words_of line.now) ≡ Ok (Word found.0 ∷ area_given found.1)) }
    ensures refused { IfErr result (λ fault.
        fault ≢ OutOfMemory → read_words (Layer ∷ four_numbers) (words_of line.now) ≡ Err fault) }
{
    let mut rest = line;
    let layer = next_word(&mut rest)?;
    let area = area_of(last_numbers(rest)?);
    Ok((Name::of(alloc, layer)?, area))
}

/// The id of a use.
pub(crate) fn id_alone(alloc: Global, line: &[u8]) -> Result<Name, LineFault>
    ensures read { IfOk result (λ id.
        read_words (UseId ∷ []) (words_of line.now) ≡ Ok (Word id ∷ [])) }
    ensures refused { IfErr result (λ fault.
        fault ≢ OutOfMemory → read_words (UseId ∷ []) (words_of line.now) ≡ Err fault) }
{
    let mut rest = line;
    let id = next_use_id(&mut rest)?;
    no_more(rest)?;
    Ok(Name::of(alloc, id)?)
}

/// The id of a use and `N` numbers.
pub(crate) fn id_and_numbers<const N: usize>(
    alloc: Global,
    line: &[u8],
) -> Result<(Name, [i64; N]), LineFault>
    ensures read { IfOk result (λ found.
        read_words (UseId ∷ replicate N Number) (words_of line.now) ≡ Ok (Word found.0 ∷ map Value found.1)) }
    ensures size { IfOk result (λ found. length found.1 ≡ N) }
    ensures refused { IfErr result (λ fault.
        fault ≢ OutOfMemory → read_words (UseId ∷ replicate N Number) (words_of line.now) ≡ Err fault) }
{
    let mut rest = line;
    let id = next_use_id(&mut rest)?;
    let numbers = last_numbers(rest)?;
    Ok((Name::of(alloc, id)?, numbers))
}

/// The id of a use and two numbers.
pub(crate) fn id_and_pair(alloc: Global, line: &[u8]) -> Result<(Name, i64, i64), LineFault>
    ensures read { IfOk result (λ found. read_words (UseId ∷ two_numbers) (words_of line.now)
        ≡ Ok (Word found.0 ∷ Value found.1 ∷ Value found.2 ∷ [])) }
    ensures refused { IfErr result (λ fault.
        fault ≢ OutOfMemory → read_words (UseId ∷ two_numbers) (words_of line.now) ≡ Err fault) }
{
    let (id, numbers) = id_and_numbers(alloc, line)?;
    let (first, second) = pair_of(numbers);
    Ok((id, first, second))
}

/// The name of a cell, the id of a use and six numbers.
pub(crate) fn cell_id_and_six(
    alloc: Global,
    line: &[u8],
) -> Result<(Name, Name, [i64; 6]), LineFault>
    ensures read { IfOk result (λ found. read_words (Plain ∷ UseId ∷ six_numbers) (words_of line.now)
        ≡ Ok (Word found.0 ∷ Word found.1 ∷ map Value found.2)) }
    ensures size { IfOk result (λ found. length found.2 ≡ 6) }
    ensures refused { IfErr result (λ fault.
        fault ≢ OutOfMemory → read_words (Plain ∷ UseId ∷ six_numbers) (words_of line.now) ≡ Err fault) }
{
    let mut rest = line;
    let cell = next_plain(&mut rest)?;
    let (id, six) = id_and_numbers::<6>(alloc, rest)?;
    Ok((Name::of(alloc, cell)?, id, six))
}

/// How many are to be made.
pub(crate) fn count(line: &[u8]) -> Result<i64, LineFault>
    ensures read { IfOk result (λ count.
        read_words (Count ∷ []) (words_of line.now) ≡ Ok (Value count ∷ [])) }
    ensures refused { IfErr result (λ fault. read_words (Count ∷ []) (words_of line.now) ≡ Err fault) }
{
    let count = number_of(last_numbers(line)?);
    if !is_between(1, MOST_GENERATED, count) {
        return Err(LineFault::NumberRange);
    }
    Ok(count)
}

/// The text of a label, which is all of the line.
pub(crate) fn text_alone(alloc: Global, line: &[u8]) -> Result<Name, LineFault>
    ensures read { IfOk result (λ text.
        read_words (Text ∷ []) (words_and_text 0 line.now) ≡ Ok (Word text ∷ [])) }
    ensures refused { IfErr result (λ fault.
        fault ≢ OutOfMemory → read_words (Text ∷ []) (words_and_text 0 line.now) ≡ Err fault) }
{
    let text = without_outer_blanks(line);
    if !is_label_text(text) {
        return Err(LineFault::BadForm);
    }
    Ok(Name::of(alloc, text)?)
}

/// A label: its layer, its rectangle, its position and its text.
pub(crate) fn label(alloc: Global, line: &[u8]) -> Result<(Name, Rect, i64, Name), LineFault>
    ensures read { IfOk result (λ found. read_words label_kinds (words_and_text 6 line.now)
        ≡ Ok (label_given found.0 found.1 found.2 found.3)) }
    ensures refused { IfErr result (λ fault.
        fault ≢ OutOfMemory → read_words label_kinds (words_and_text 6 line.now) ≡ Err fault) }
{
    let mut rest = line;
    let layer = next_word(&mut rest)?;
    let numbers = next_numbers::<5>(&mut rest)?;
    let text = without_outer_blanks(rest);
    if !is_label_text(text) {
        return Err(LineFault::BadForm);
    }
    let (area, position) = area_and_position_of(numbers.ok_or(LineFault::NumberRange)?);
    if !is_between(0, i64::from(LAST_POSITION), position) {
        return Err(LineFault::NumberRange);
    }
    Ok((
        Name::of(alloc, layer)?,
        area,
        position,
        Name::of(alloc, text)?,
    ))
}
