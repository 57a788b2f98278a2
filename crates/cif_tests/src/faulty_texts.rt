//! Where CIF texts are refused, and for which fault.

use cif_reading::{CifFault, read_cif};
use std::alloc::Global;
use std::test::Fail;

/// A fault, and texts each of which has it on its first line.
type Faulty = (CifFault, &'static [&'static [u8]]);

const ON_LINE_ONE: &[Faulty] = &[
    (
        CifFault::LeftOut,
        &[
            b"P 0 0 2 0 2 2;E",
            b"P",
            b"P )-;E",
            b"W 2 0 0 2 0;E",
            b"R 2 0 0;E",
            b"DD 1;E",
            b"DD",
            b"B 2 2 0 0 1 0;E",
            b"B 0 2 0 0 1 0;E",
            b"B 2 2 0 0 1 0",
            b"C 1 R 1 1;E",
            b"C 1 R 0 0;E",
            b"C 1 R 10000000000 1;E",
            b"C 1 R 1 1 X;E",
            b"C 1 R 5 5",
        ],
    ),
    (
        CifFault::Form,
        &[
            b"X;E",
            b"DS;E",
            b"DS 1 2;E",
            b"DS 1 0 1;E",
            b"DS 1 1 0;E",
            b"DS 1 -1 1;E",
            b"DS 1 1000001 1;E",
            b"DS 1 1 1000001;E",
            b"DS 1 10000000000 1;E",
            b"DS 10000000000 0 1;E",
            b"DS 1 1 1 1;E",
            b"DS 1;DS 2;DF;DF;E",
            b"DS 1;DS 1;DF;DF;E",
            b"DS 1;E",
            b"DF;E",
            b"DF 1;E",
            b"DFX;E",
            b"D 1;E",
            b"L;E",
            b"L Ap1;E",
            b"L ABCDE;E",
            b"L P 1;E",
            b"L A(x)B;E",
            b"L P-1;E",
            b"L P1",
            b"B 2 2 0;E",
            b"B 2 2 0 0 1;E",
            b"B 2 2 0 0 X;E",
            b"B 0 2 0 0;E",
            b"B 2 0 0 0;E",
            b"B -2 2 0 0;E",
            b"B -10000000000 2 0 0;E",
            b"B 8-2 4 1;E",
            b"B 8A2 4 1;E",
            b"B 8 2 4 -;E",
            b"B 8 2 4 );E",
            b"B 2 2 0 0",
            b"C;E",
            b"C X;E",
            b"C 1 M;E",
            b"C 1 M R;E",
            b"C 1 T 1;E",
            b"C 1 R 1;E",
            b"C 1 2;E",
            b"C 1 X R 1 1;E",
            b"C 1 R 1 1 -;E",
            b"C 1",
            b"9 name",
            b");E",
            b"-;E",
            b"(;)X;E",
            b"(a(b)c)X;E",
        ],
    ),
    (
        CifFault::Range,
        &[
            b"DS 2147483648;DF;E",
            b"DS -2147483649;DF;E",
            b"DS 99999999999999999999999999;DF;E",
            b"B 2147483648 2 0 0;E",
            b"B 2 10000000000 0 0;E",
            b"B 2 2 2147483648 0;E",
            b"B 2 2 0 -99999999999999999999;E",
            b"C 2147483648;E",
            b"C 1 T 2147483648 0;E",
            b"C 1 T 0 -2147483649;E",
            b"C 1 R 2147483648 0;E",
        ],
    ),
    (
        CifFault::SymbolTwice,
        &[b"DS 1;DF;DS 1;DF;E", b"DS -7;DF;DS 8;DF;DS -7 3 4;DF;E"],
    ),
    (
        CifFault::NoSymbol,
        &[
            b"C 1;E",
            b"C 2;DS 2;DF;E",
            b"DS 1;C 1;DF;E",
            b"DS 1;C 2;DF;DS 2;DF;E",
            b"C -1 R -0 2;E",
            b"DS 1 1 2;C 9 T 1 0;DF;E",
        ],
    ),
    (
        CifFault::NoLayer,
        &[
            b"B 2 2 0 0;E",
            b"B 3 2 0 0;E",
            b"L A;DS 1;B 2 2 0 0;DF;E",
            b"DS 1;L A;DF;B 2 2 0 0;E",
        ],
    ),
    (
        CifFault::NotWhole,
        &[
            b"L A;B 3 2 0 0;E",
            b"L A;B 2 1 0 0;E",
            b"DS 1 1 2;L A;B 2 2 0 0;DF;E",
            b"DS 1 3 2;L A;B 2 2 0 0;DF;E",
            b"DS 1 1 2;L A;B 8 2 4 2;DF;E",
            b"DS 1;DF;DS 2 1 2;C 1 T 1 0;DF;E",
            b"DS 1;DF;DS 2 1 3;C 1 T 3 -1;DF;E",
        ],
    ),
    (
        CifFault::NoEnd,
        &[
            b"",
            b"\n",
            b" ",
            b"x",
            b"DS 1;DF;",
            b"DS 1;",
            b";;;",
            b"L A;\n",
            b"(E",
            b"9 E;",
        ],
    ),
];

/// A text, the line of its first fault, and the fault.
type Located = (&'static [u8], u32, CifFault);

const LOCATED: &[Located] = &[
    (b"\n\n\n", 3, CifFault::NoEnd),
    (b"DS 1;\nDF;\n\nC 1;", 4, CifFault::NoEnd),
    (b"\n(\n)\n x X;E", 4, CifFault::Form),
    (b"DS 1;\nDF;\nDS 1;\nDF;\nE", 3, CifFault::SymbolTwice),
    (b"DS 1;\nDF;DS\n\n1;\nDF;\nE", 2, CifFault::SymbolTwice),
    (b"L A;\r\nB 3\r\n2 0 0;\r\nE", 2, CifFault::NotWhole),
    (b"0 (\n;\n);E", 3, CifFault::Form),
    (b"L A;(\n;\n)\nB 2 2;E", 4, CifFault::Form),
    (b"DS 1;\nE;\nX;", 2, CifFault::Form),
    (b"X;\nP;", 1, CifFault::Form),
];

fn is_refused(alloc: Global, text: &[u8], line: u32, fault: CifFault) -> bool {
    match read_cif(alloc, text) {
        Ok(_) => false,
        Err(at) => at.line == line && at.fault == fault,
    }
}

#[test]
fn texts_are_refused_at_their_first_faulty_command(rt: HostRuntime) -> Result<(), Fail> {
    for (fault, texts) in ON_LINE_ONE {
        for text in *texts {
            assert!(rt; is_refused(rt.alloc(), text, 1, *fault));
        }
    }
    for (text, line, fault) in LOCATED {
        assert!(rt; is_refused(rt.alloc(), text, *line, *fault));
    }
    Ok(())
}
