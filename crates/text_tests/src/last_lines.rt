// A reader of a small form: no line is longer than the context says, and there is some line. What it keeps is the last line's number.
ghost use Rattle.std.specs.Prelude.{Err, Ok, ◌==◌, nat_lt, length, if◌then◌else◌};

use std::test::Fail;
use text_form::{At, LineReader, read_text};

#[derive(Clone, Copy, Debug, Drop, PartialEq, Eq)]
enum Lapse {
    TooLong,
    Empty,
    Memory,
}

#[derive(Drop)]
struct LastLine {
    number: usize,
}

impl LineReader for LastLine {
    ghost use Rattle.text_tests.specs.declared.last_lines.Lapse.TheVariants.{TooLong, Empty, Memory};

    type Context = usize;

    type Fault = Lapse;

    ghost memory = { Memory };

    ghost step = { λ longest number last line. if nat_lt longest (length line) then Err TooLong else Ok (record { number = number }) };

    ghost finish = { λ longest last. if last.number == 0 then Err Empty else Ok last };

    fn memory() -> Lapse {
        Lapse::Memory
    }

    fn read_line(&mut self, longest: &usize, number: usize, line: &[u8]) -> Result<(), Lapse> {
        if line.len() > *longest {
            return Err(Lapse::TooLong);
        }
        self.number = number;
        Ok(())
    }

    fn end(&mut self, _longest: &usize) -> Result<(), Lapse> {
        if self.number == 0 {
            return Err(Lapse::Empty);
        }
        Ok(())
    }
}

// A text, and the number of its last line or its first faulty line with its fault.
type Row = (&'static [u8], Result<usize, (u32, Lapse)>);

const TEXTS: &[Row] = &[
    (b"one\ntwo", Ok(2)),
    (b"one\n\n", Ok(2)),
    (b"\n", Ok(1)),
    (b"", Err((1, Lapse::Empty))),
    (b"three", Err((1, Lapse::TooLong))),
    (b"one\ntwo\nthree\nfour\n", Err((3, Lapse::TooLong))),
];

fn is_read(text: &[u8], wanted: Result<usize, (u32, Lapse)>) -> bool {
    let mut last = LastLine { number: 0 };
    match (read_text(&mut last, &4, text), wanted) {
        (Ok(()), Ok(number)) => last.number == number,
        (Err(At { line, fault }), Err(first)) => line == first.0 && fault == first.1,
        _ => false,
    }
}

#[test]
fn texts_are_read_up_to_the_first_fault(rt: HostRuntime) -> Result<(), Fail> {
    for (text, wanted) in TEXTS {
        assert!(rt; is_read(text, *wanted));
    }
    Ok(())
}
