//! What CIF texts say.

use cif_model::{Cif, CifItem, CifMove};
use cif_reading::read_cif;
use geo_core::Rect;
use std::alloc::Global;
use std::test::Fail;

/// A text, its layers in order, each of its symbols by its number with how many items it has, and how many items stand at the top level.
type Text = (
    &'static [u8],
    &'static [&'static [u8]],
    &'static [(i64, usize)],
    usize,
);

const TEXTS: &[Text] = &[
    (b"E", &[], &[], 0),
    (b"EX(", &[], &[], 0),
    (b"E;B;", &[], &[], 0),
    (b" ; ;\n;(;)E", &[], &[], 0),
    (b"9 a(b;E", &[], &[], 0),
    (b"(x)9 a(b;E", &[], &[], 0),
    (b"L (;) P1;B 2 2 1 1;E", &[b"P1"], &[], 1),
    (b"L P1 (x) ;B 2 2 1 1;E", &[b"P1"], &[], 1),
    (b"L 12A4;B 2 2 1 1;E", &[b"12A4"], &[], 1),
    (b"L p1 layer;B 2 2 1 1;E", &[b"1"], &[], 1),
    (b"L A;L B;E", &[], &[], 0),
    (b"DS1;DF;C1T20 0;E", &[], &[(1, 0)], 1),
    (b"DS1;DF;C1MXMYR-1 0;E", &[], &[(1, 0)], 1),
    (b"DS -5 1 2;DF;C -5;E", &[], &[(-5, 0)], 1),
    (b"lower DS 1;x;DF;C 1;E", &[], &[(1, 0)], 1),
    (
        b"DS 1;L B;B 2 2 1 1;DF;L A;C 1;B 2 2 0 0;E",
        &[b"B", b"A"],
        &[(1, 1)],
        2,
    ),
    (
        b"L A;DS 1;L B;B 2 2 1 1;DF;B 2 2 1 1;E",
        &[b"B", b"A"],
        &[(1, 1)],
        1,
    ),
    (b"(a(b)c)L A;(;(;);)B 2 2 0 0;B 2 2 0 0;E", &[b"A"], &[], 2),
    (
        b"DS 7;L A;B 2 2 1 1;L B;B 2 2 1 1;L A;B 2 2 1 1;DF;DS 3;C 7;C 7;DF;E",
        &[b"A", b"B"],
        &[(7, 3), (3, 2)],
        0,
    ),
];

/// A text whose top level is one box, and the edges of the box: left, lower, right and upper.
type OneBox = (&'static [u8], (i64, i64, i64, i64));

const TOP_BOXES: &[OneBox] = &[
    (b"L A;B 8 2 4 1;E", (0, 0, 8, 2)),
    (b"L A;B8 2 4 1;E", (0, 0, 8, 2)),
    (b"L A;B 2 4 -3 -5;E", (-4, -7, -2, -3)),
    (
        b"L A;B 2147483646 2 0 0;E",
        (-1073741823, -1, 1073741823, 1),
    ),
];

/// A text whose first symbol is one box, and the edges of the box.
const SYMBOL_BOXES: &[OneBox] = &[
    (b"DS 1 1 2;L P4;B 8 2 4 1;DF;E", (0, 0, 4, 1)),
    (b"DS 1 3 2;L A;B 4 4 2 2;DF;E", (0, 0, 6, 6)),
    (b"DS 1 2 1;L A;B 1 1 0 0;DF;E", (-1, -1, 1, 1)),
    (b"DS 1 2 4;L A;B 4 4 2 -2;DF;E", (0, -2, 2, 0)),
];

/// A text whose last item at the top level is a call, and the place of the symbol with the steps.
type OneCall = (&'static [u8], u32, &'static [CifMove]);

const CALLS: &[OneCall] = &[
    (b"DS 1;DF;C 1;E", 0, &[]),
    (
        b"DS 4;DF;DS 1;DF;C 1 M X M Y R 0 1 R -3 0 R 0 -2 R 7 0 T 20 -4;E",
        1,
        &[
            CifMove::MirrorX,
            CifMove::MirrorY,
            CifMove::Turn(1),
            CifMove::Turn(2),
            CifMove::Turn(3),
            CifMove::Turn(0),
            CifMove::Shift(20, -4),
        ],
    ),
    (
        b"DS 1 1 2;DF;C 1 T 3 -2147483648;E",
        0,
        &[CifMove::Shift(3, -2147483648)],
    ),
    (b"DS 1;DF;C 1 R -0 2;E", 0, &[CifMove::Turn(1)]),
];

fn are_layers(cif: &Cif, want: &[&[u8]]) -> bool {
    let layers = cif.layers();
    layers.len() == want.len()
        && layers
            .iter()
            .zip(want)
            .all(|(layer, want)| layer.bytes() == *want)
}

fn are_symbols(cif: &Cif, want: &[(i64, usize)]) -> bool {
    let symbols = cif.symbols();
    symbols.len() == want.len()
        && symbols.iter().zip(want).all(|(symbol, want)| symbol.number == want.0
            && symbol.items.items().len() == want.1)
}

fn is_said(alloc: Global, text: &Text) -> bool {
    match read_cif(alloc, text.0) {
        Ok(cif) => {
            are_layers(&cif, text.1) && are_symbols(&cif, text.2) && cif.top().len() == text.3
        }
        Err(_) => false,
    }
}

fn is_box(items: &[CifItem], want: (i64, i64, i64, i64)) -> bool {
    let (xlo, ylo, xhi, yhi) = want;
    match items {
        [CifItem::Area { layer: 0, area }] => { *area == Rect { xlo, ylo, xhi, yhi } }
        _ => false,
    }
}

fn has_top_box(alloc: Global, text: &OneBox) -> bool {
    match read_cif(alloc, text.0) {
        Ok(cif) => is_box(cif.top(), text.1),
        Err(_) => false,
    }
}

fn has_symbol_box(alloc: Global, text: &OneBox) -> bool {
    match read_cif(alloc, text.0) {
        Ok(cif) => match cif.symbols() {
            [symbol, ..] => is_box(symbol.items.items(), text.1),
            [] => false,
        },
        Err(_) => false,
    }
}

fn has_call(alloc: Global, text: &OneCall) -> bool {
    match read_cif(alloc, text.0) {
        Ok(cif) => match cif.top() {
            [.., CifItem::Call { symbol, moves }] => {
                *symbol == text.1 && moves.items() == text.2
            }
            _ => false,
        },
        Err(_) => false,
    }
}

#[test]
fn texts_say_their_boxes_and_calls(rt: HostRuntime) -> Result<(), Fail> {
    for text in TEXTS {
        assert!(rt; is_said(rt.alloc(), text));
    }
    for text in TOP_BOXES {
        assert!(rt; has_top_box(rt.alloc(), text));
    }
    for text in SYMBOL_BOXES {
        assert!(rt; has_symbol_box(rt.alloc(), text));
    }
    for text in CALLS {
        assert!(rt; has_call(rt.alloc(), text));
    }
    Ok(())
}
