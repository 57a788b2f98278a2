// Lines, words, names and numbers as a person would find them.
use std::alloc::{AllocError, Global};
use std::test::Fail;
use text_scan::{NumFault, append_decimal, is_plain_name, lines, number, wide, words};

// A question, and its answer. Lines and words are shown between brackets.
#[derive(Clone, Copy)]
enum Asked {
    Lines(&'static [u8], &'static [u8]),
    Words(&'static [u8], &'static [u8]),
    Number(&'static [u8], Result<i64, NumFault>),
    Wide(&'static [u8], Result<i128, NumFault>),
    Decimal(i128, &'static [u8]),
    PlainName(&'static [u8], bool),
}

const QUESTIONS: &[Asked] = &[
    Asked::Lines(b"", b""),
    Asked::Lines(b"one", b"[one]"),
    Asked::Lines(b"one\n", b"[one]"),
    Asked::Lines(b"one\ntwo", b"[one][two]"),
    Asked::Lines(b"\n", b"[]"),
    Asked::Lines(b"\n\none\n\n", b"[][][one][]"),
    Asked::Lines(b"one\r\ntwo\r\n", b"[one][two]"),
    Asked::Lines(b"one\r\r\n", b"[one\r]"),
    Asked::Lines(b"one\rtwo\n", b"[one\rtwo]"),
    Asked::Lines(b"one\r", b"[one]"),
    Asked::Lines(b"\r\n\r", b"[][]"),
    Asked::Words(b"", b""),
    Asked::Words(b" \t ", b""),
    Asked::Words(b"rect", b"[rect]"),
    Asked::Words(b"rect 1 2", b"[rect][1][2]"),
    Asked::Words(b"\trect \t1  2 ", b"[rect][1][2]"),
    Asked::Words(b"a\tb\tc", b"[a][b][c]"),
    Asked::Words(b"a\rb\x0bc", b"[a\rb\x0bc]"),
    Asked::Number(b"0", Ok(0)),
    Asked::Number(b"-0", Ok(0)),
    Asked::Number(b"007", Ok(7)),
    Asked::Number(b"-12", Ok(-12)),
    Asked::Number(b"", Err(NumFault::Empty)),
    Asked::Number(b"-", Err(NumFault::Empty)),
    Asked::Number(b"--1", Err(NumFault::Digit)),
    Asked::Number(b"+1", Err(NumFault::Digit)),
    Asked::Number(b"12x4", Err(NumFault::Digit)),
    Asked::Number(b"1 2", Err(NumFault::Digit)),
    Asked::Number(b"9223372036854775807", Ok(i64::MAX)),
    Asked::Number(b"9223372036854775808", Err(NumFault::Range)),
    Asked::Number(b"-9223372036854775808", Ok(i64::MIN)),
    Asked::Number(b"-9223372036854775809", Err(NumFault::Range)),
    Asked::Number(
        b"340282366920938463463374607431768211457",
        Err(NumFault::Range),
    ),
    Asked::Number(b"000000000000000000000000000000000000000000009", Ok(9)),
    Asked::Number(
        b"9999999999999999999999999999999999999999x",
        Err(NumFault::Digit),
    ),
    Asked::Wide(b"-00000000000000000000000000000000000000000007", Ok(-7)),
    Asked::Wide(b"-", Err(NumFault::Empty)),
    Asked::Wide(b"1-", Err(NumFault::Digit)),
    Asked::Wide(b"170141183460469231731687303715884105727", Ok(i128::MAX)),
    Asked::Wide(
        b"170141183460469231731687303715884105728",
        Err(NumFault::Range),
    ),
    Asked::Wide(b"-170141183460469231731687303715884105728", Ok(i128::MIN)),
    Asked::Wide(
        b"-170141183460469231731687303715884105729",
        Err(NumFault::Range),
    ),
    Asked::Wide(
        b"9999999999999999999999999999999999999999x",
        Err(NumFault::Digit),
    ),
    Asked::Decimal(0, b"0"),
    Asked::Decimal(7, b"7"),
    Asked::Decimal(-7, b"-7"),
    Asked::Decimal(10, b"10"),
    Asked::Decimal(-100, b"-100"),
    Asked::Decimal(i128::MAX, b"170141183460469231731687303715884105727"),
    Asked::Decimal(i128::MIN, b"-170141183460469231731687303715884105728"),
    Asked::PlainName(b"poly", true),
    Asked::PlainName(b"n-well_2", true),
    Asked::PlainName(b"7", true),
    Asked::PlainName(b"", false),
    Asked::PlainName(b"pc/metal", false),
    Asked::PlainName(b"GND!", false),
    Asked::PlainName(
        b"a_name_of_sixty-four_bytes_which_is_no_longer_than_it_may_be_1234",
        false,
    ),
    Asked::PlainName(
        b"a_name_of_sixty-four_bytes_which_is_as_long_as_it_may_be_1234567",
        true,
    ),
];

fn add_bracketed(shown: &mut Vec<u8>, part: &[u8]) -> Result<(), AllocError> {
    shown.push(b'[')?;
    shown.extend_from_slice(part)?;
    shown.push(b']')?;
    Ok(())
}

fn shown_lines(alloc: Global, text: &[u8]) -> Result<Vec<u8>, AllocError> {
    let mut shown = Vec::new(alloc);
    for line in lines(text) {
        add_bracketed(&mut shown, line)?;
    }
    Ok(shown)
}

fn shown_words(alloc: Global, line: &[u8]) -> Result<Vec<u8>, AllocError> {
    let mut shown = Vec::new(alloc);
    for word in words(line) {
        add_bracketed(&mut shown, word)?;
    }
    Ok(shown)
}

fn decimal(alloc: Global, value: i128) -> Result<Vec<u8>, AllocError> {
    let mut out = Vec::new(alloc);
    append_decimal(&mut out, value)?;
    Ok(out)
}

fn is_answered(alloc: Global, asked: Asked) -> Result<bool, AllocError> {
    match asked {
        Asked::Lines(text, want) => Ok(shown_lines(alloc, text)?.as_slice() == want),
        Asked::Words(line, want) => Ok(shown_words(alloc, line)?.as_slice() == want),
        Asked::Number(word, want) => Ok(number(word) == want),
        Asked::Wide(word, want) => Ok(wide(word) == want),
        Asked::Decimal(value, want) => Ok(decimal(alloc, value)?.as_slice() == want),
        Asked::PlainName(word, want) => Ok(is_plain_name(word) == want),
    }
}

#[test]
fn questions_are_answered(rt: HostRuntime) -> Result<(), Fail> {
    for asked in QUESTIONS {
        let answered = is_answered(rt.alloc(), *asked)?;
        assert!(rt; answered);
    }
    Ok(())
}
