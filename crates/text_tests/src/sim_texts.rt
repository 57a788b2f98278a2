// What short texts are read as.
use sim_text::{SimFault, read_sim, write_sim};
use std::alloc::{AllocError, Global};
use std::test::Fail;

// A text or a part of one, and what it is read as: it is written again, each line in its place and with one blank between two words.
#[derive(Clone, Copy)]
enum Asked {
    // A whole text; or its first faulty line, with the fault.
    Text(&'static [u8], Result<&'static [u8], (u32, SimFault)>),
    // The first line, without its end.
    First(&'static [u8], Result<&'static [u8], SimFault>),
    // A line behind a good first one.
    Further(&'static [u8], Result<&'static [u8], SimFault>),
}

const HEADER: &[u8] = b"| units: 1 tech: nm format: MIT\n";

const INVERTER: &[u8] = b"\
| units: 1 tech: nm format: MIT\n\
e in GND! out 2 2 2 4\n\
d out Vdd! out 2 2 2 12\n\
C GND! GND! 12\n\
C Vdd! GND! 17\n\
C in GND! 4\n\
C out GND! 24\n";

const QUESTIONS: &[Asked] = &[
    Asked::Text(INVERTER, Ok(INVERTER)),
    // Without a line, and without a last line feed.
    Asked::Text(b"", Err((1, SimFault::Header))),
    Asked::Text(b"\n", Err((1, SimFault::Header))),
    Asked::Text(b"| units: 1 tech: nm format: MIT", Ok(HEADER)),
    Asked::Text(
        b"| units: 1 tech: nm format: MIT\r\n= a b\r\n",
        Ok(b"| units: 1 tech: nm format: MIT\n= a b\n"),
    ),
    // The lines may stand in any order, and are written in theirs.
    Asked::Text(
        b"| units: 1 tech: nm format: MIT\n= a b\nC a GND! 0\n| note\n\np g a c 1 2 3 4\nC c GND! -7\nn g c d 5 6 7 8\n= c d",
        Ok(
            b"| units: 1 tech: nm format: MIT\np g a c 1 2 3 4\nn g c d 5 6 7 8\nC a GND! 0\nC c GND! -7\n= a b\n= c d\n",
        ),
    ),
    // The first faulty line counts.
    Asked::Text(
        b"| units: 1 tech: nm format: MIT\n= a b\n\n= a\nx a b c 1 2 3 4\n",
        Err((4, SimFault::BadLine)),
    ),
    Asked::Text(
        b"| units: 1 tech: nm format: MIT\nx a b c 1 2 3 4\n= a\n",
        Err((2, SimFault::Letter)),
    ),
    Asked::Text(
        b"= a b\n| units: 1 tech: nm format: MIT\n",
        Err((1, SimFault::Header)),
    ),
    // A header stands on the first line alone: a further one is read over.
    Asked::Text(
        b"| units: 1 tech: nm format: MIT\n| units: 1 tech: scmos format: MIT\n",
        Ok(HEADER),
    ),
    Asked::First(b"| units:  1\ttech: nm \t format: MIT ", Ok(HEADER)),
    Asked::First(b"|  units: 1 tech: nm format: MIT", Err(SimFault::Header)),
    Asked::First(b"|\tunits: 1 tech: nm format: MIT", Err(SimFault::Header)),
    Asked::First(b" | units: 1 tech: nm format: MIT", Err(SimFault::Header)),
    Asked::First(b"| units:1 tech: nm format: MIT", Err(SimFault::Header)),
    Asked::First(b"| units: 01 tech: nm format: MIT", Err(SimFault::Header)),
    Asked::First(b"| units: 1 tec: nm format: MIT", Err(SimFault::Header)),
    Asked::First(b"| units: 1 tech: nm form: MIT", Err(SimFault::Header)),
    Asked::First(b"| units: 1 tech: nm format: LBL", Err(SimFault::Header)),
    Asked::First(b"| units: 1 tech: format: MIT", Err(SimFault::Header)),
    Asked::First(b"| units: 1 tech: n m format: MIT", Err(SimFault::Header)),
    Asked::First(b"| units: 1 tech: nm format:", Err(SimFault::Header)),
    // The earlier word counts, once there are seven.
    Asked::First(b"| units: 1 tech: n\x07 format: MIT", Err(SimFault::Name)),
    Asked::First(b"| units: 1 tech: n\x7f format: LBL", Err(SimFault::Name)),
    Asked::First(b"| units: 2 tech: n\x07 format: MIT", Err(SimFault::Header)),
    Asked::First(
        b"| units: 1 tech: n\x07 format: MIT x",
        Err(SimFault::Header),
    ),
    // Lines that are read over.
    Asked::Further(b"", Ok(b"")),
    Asked::Further(b" \t", Ok(b"")),
    Asked::Further(b"|", Ok(b"")),
    Asked::Further(b"|e a b c 1 2 3 4 \x07", Ok(b"")),
    Asked::Further(b" | e", Err(SimFault::BadLine)),
    // Transistors.
    Asked::Further(b"\te  a b c 1 -2 03 -0 ", Ok(b"e a b c 1 -2 3 0\n")),
    Asked::Further(b"d ! ~ | 0 0 0 0", Ok(b"d ! ~ | 0 0 0 0\n")),
    Asked::Further(
        b"n a b c 170141183460469231731687303715884105727 0 0 -170141183460469231731687303715884105728",
        Ok(
            b"n a b c 170141183460469231731687303715884105727 0 0 -170141183460469231731687303715884105728\n",
        ),
    ),
    Asked::Further(b"E a b c 1 2 3 4", Err(SimFault::Letter)),
    Asked::Further(b"ep a b c 1 2 3 4", Err(SimFault::Letter)),
    Asked::Further(b"C a GND! 1 2 3 4 5", Err(SimFault::Letter)),
    Asked::Further(b"e a b c 1 2 3", Err(SimFault::BadLine)),
    Asked::Further(b"e a b c 1 2 3 4 5", Err(SimFault::BadLine)),
    Asked::Further(b"e a b c 1", Err(SimFault::BadLine)),
    Asked::Further(b"e a b\x80 c 1 2 3 4", Err(SimFault::Name)),
    Asked::Further(b"e a b c 1 2 3 +4", Err(SimFault::BadLine)),
    Asked::Further(b"e a b c 1 2 3 -", Err(SimFault::BadLine)),
    Asked::Further(
        b"e a b c 1 2 3 170141183460469231731687303715884105728",
        Err(SimFault::Range),
    ),
    Asked::Further(
        b"e a b c -170141183460469231731687303715884105729 2 3 4",
        Err(SimFault::Range),
    ),
    // Of two faults in a transistor's line the earlier word's.
    Asked::Further(b"x a\x01 b c 1 2 3 4", Err(SimFault::Letter)),
    Asked::Further(b"e a b c\x01 x 2 3 4", Err(SimFault::Name)),
    Asked::Further(
        b"e a b c 1 x 3 170141183460469231731687303715884105728",
        Err(SimFault::BadLine),
    ),
    Asked::Further(
        b"e a b c 1 170141183460469231731687303715884105728 x 4",
        Err(SimFault::Range),
    ),
    // Capacitances are below 2^120 in absolute value.
    Asked::Further(
        b"C a GND! 1329227995784915872903807060280344575",
        Ok(b"C a GND! 1329227995784915872903807060280344575\n"),
    ),
    Asked::Further(
        b"C a GND! -1329227995784915872903807060280344575",
        Ok(b"C a GND! -1329227995784915872903807060280344575\n"),
    ),
    Asked::Further(
        b"C a GND! 1329227995784915872903807060280344576",
        Err(SimFault::Range),
    ),
    Asked::Further(
        b"C a GND! -1329227995784915872903807060280344576",
        Err(SimFault::Range),
    ),
    Asked::Further(
        b"C a GND! 170141183460469231731687303715884105728",
        Err(SimFault::Range),
    ),
    Asked::Further(b"C a GND! 0x1", Err(SimFault::BadLine)),
    Asked::Further(b"C a Vdd! 1", Err(SimFault::BadLine)),
    Asked::Further(b"c a GND! 1", Err(SimFault::BadLine)),
    Asked::Further(b"C a GND!", Err(SimFault::BadLine)),
    Asked::Further(b"C a\x01 GND! 1", Err(SimFault::Name)),
    Asked::Further(b"C a\x01 Vdd! x", Err(SimFault::Name)),
    Asked::Further(
        b"C a Vdd! 1329227995784915872903807060280344576",
        Err(SimFault::BadLine),
    ),
    // Aliases.
    Asked::Further(b"= a/b C", Ok(b"= a/b C\n")),
    Asked::Further(b"= a", Err(SimFault::BadLine)),
    Asked::Further(b"=", Err(SimFault::BadLine)),
    Asked::Further(b"== a b", Err(SimFault::BadLine)),
    Asked::Further(b"= a b\x1f", Err(SimFault::Name)),
    Asked::Further(b"x a b\x1f", Err(SimFault::BadLine)),
];

// Whether a text is read as a text is written, or is refused at this line.
fn is_read(
    alloc: Global,
    text: &[u8],
    want: Result<&[u8], (u32, SimFault)>,
) -> Result<bool, SimFault> {
    match (read_sim(alloc, text), want) {
        (Ok(sim), Ok(written)) => Ok(write_sim(alloc, &sim)?.as_slice() == written),
        (Err(at), Err((line, fault))) => Ok(at.line == line && at.fault == fault),
        (Ok(_), Err(_)) | (Err(_), Ok(_)) => Ok(false),
    }
}

fn joined(alloc: Global, first: &[u8], second: &[u8]) -> Result<Vec<u8>, AllocError> {
    let mut text = Vec::from_slice(alloc, first)?;
    text.extend_from_slice(second)?;
    Ok(text)
}

fn is_further_read(
    alloc: Global,
    line: &[u8],
    want: Result<&[u8], SimFault>,
) -> Result<bool, SimFault> {
    let text = joined(alloc, HEADER, line)?;
    match want {
        Ok(written) => is_read(alloc, &text, Ok(&joined(alloc, HEADER, written)?)),
        Err(fault) => is_read(alloc, &text, Err((2, fault))),
    }
}

fn is_first_read(
    alloc: Global,
    line: &[u8],
    want: Result<&[u8], SimFault>,
) -> Result<bool, SimFault> {
    let text = joined(alloc, line, b"\nx\n")?;
    match want {
        Ok(written) => is_read(alloc, line, Ok(written)),
        Err(fault) => is_read(alloc, &text, Err((1, fault))),
    }
}

fn is_answered(alloc: Global, asked: Asked) -> Result<bool, SimFault> {
    match asked {
        Asked::Text(text, want) => is_read(alloc, text, want),
        Asked::First(line, want) => is_first_read(alloc, line, want),
        Asked::Further(line, want) => is_further_read(alloc, line, want),
    }
}

#[test]
fn texts_are_read_as_what_they_spell(rt: HostRuntime) -> Result<(), Fail> {
    for asked in QUESTIONS {
        let answered = is_answered(rt.alloc(), *asked)?;
        assert!(rt; answered);
    }
    Ok(())
}
