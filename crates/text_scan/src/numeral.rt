// The number that a word writes in decimal.
ghost use Rattle.std.specs.Prelude.{◌≡◌, ◌-◌, ◌^◌, min};
ghost use Rattle.std.specs.Result.{result_map_both};
ghost use Rattle.std.specs.Str.Parse.{starts_with_minus};
ghost use Rattle.text_scan.specs.Numbers.{natural_of, without_minus, with_sign, within, number_of, wide_of};

/// Why a word is no number.
#[derive(Clone, Copy, Debug, PartialEq, Eq)]
pub enum NumFault {
    /// No byte follows the optional minus.
    Empty,
    /// A byte after the optional minus is no digit.
    Digit,
    /// The word is decimal, and its number is outside the type.
    Range,
}

/// The number that a word writes in decimal: digits, and one `-` before them or none. There may be
/// any number of leading zeros. A word with a byte that is no digit is a
/// [`Digit`](NumFault::Digit) fault, however long it is.
pub fn number(word: &[u8]) -> Result<i64, NumFault>
    ensures { result ≡ number_of word.now }
{
    narrow(wide(word)?)
}

/// The same as [`number`], for a number of 128 bits.
pub fn wide(word: &[u8]) -> Result<i128, NumFault>
    ensures { result ≡ wide_of word.now }
{
    let (negative, digits) = split_minus(word);
    with_sign(negative, magnitude(digits)?)
}

fn split_minus(word: &[u8]) -> (bool, &[u8])
    ensures negative { result.0 ≡ starts_with_minus word.now }
    ensures digits { result.1.now ≡ without_minus word.now }
{
    match word {
        [b'-', digits @ ..] => (true, digits),
        _ => (false, word),
    }
}

// The number that the digits write, or the largest `u128` where it is larger. The digits after that
// one are read all the same, since a fault among them comes first.
fn magnitude(digits: &[u8]) -> Result<u128, NumFault>
    ensures { result
        ≡ result_map_both (λ n. min n (2 ^ 128 - 1)) (λ fault. fault) (natural_of digits.now) }
{
    if digits.is_empty() {
        return Err(NumFault::Empty);
    }
    let mut value: u128 = 0;
    for &byte in digits {
        if !byte.is_ascii_digit() {
            return Err(NumFault::Digit);
        }
        let digit = u128::from(byte - b'0');
        value = value.saturating_mul(10).saturating_add(digit);
    }
    Ok(value)
}

fn with_sign(negative: bool, magnitude: u128) -> Result<i128, NumFault>
    ensures { result ≡ within (2 ^ 127) (with_sign negative magnitude) }
{
    let value = if negative {
        0i128.checked_sub_unsigned(magnitude)
    } else {
        0i128.checked_add_unsigned(magnitude)
    };
    value.ok_or(NumFault::Range)
}

fn narrow(value: i128) -> Result<i64, NumFault>
    ensures { result ≡ within (2 ^ 63) value }
{
    i64::try_from(value).map_err(|_| NumFault::Range)
}
