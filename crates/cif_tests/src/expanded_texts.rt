//! What CIF texts expand to, layer by layer, and where they leave the range.

use cif_expansion::{ExpansionFault, LayerStrips, expand};
use cif_reading::read_cif;
use geo_core::Rect;
use std::alloc::Global;
use std::test::Fail;

/// The edges of a strip: left, lower, right and upper.
type Strip = (i64, i64, i64, i64);

/// A layer's name and its strips in order.
type Layer = (&'static [u8], &'static [Strip]);

/// A text and its layers in order.
type Expanded = (&'static [u8], &'static [Layer]);

const EXPANDED: &[Expanded] = &[
    (b"E", &[]),
    (b"DS 1;DF;C 1;E", &[]),
    // Boxes that touch or overlap make strips together.
    (b"L A;B 2 2 1 1;B 2 2 3 1;E", &[(b"A", &[(0, 0, 4, 2)])]),
    (b"L A;B 2 2 1 3;B 2 2 1 1;E", &[(b"A", &[(0, 0, 2, 4)])]),
    (b"L A;B 2 2 1 1;B 2 2 1 1;E", &[(b"A", &[(0, 0, 2, 2)])]),
    (
        b"L A;B 4 4 2 2;B 4 4 4 4;E",
        &[(b"A", &[(0, 0, 4, 2), (0, 2, 6, 4), (2, 4, 6, 6)])],
    ),
    (
        b"L A;B 2 2 1 1;L B;B 2 2 3 1;L A;B 2 2 5 1;E",
        &[
            (b"A", &[(0, 0, 2, 2), (4, 0, 6, 2)]),
            (b"B", &[(2, 0, 4, 2)]),
        ],
    ),
    // A box is moved as its symbol is called.
    (b"DS 1;L A;B 4 2 2 1;DF;C 1;E", &[(b"A", &[(0, 0, 4, 2)])]),
    (
        b"DS 1;L A;B 4 2 2 1;DF;C 1 T 10 20;E",
        &[(b"A", &[(10, 20, 14, 22)])],
    ),
    (
        b"DS 1;L A;B 4 2 2 1;DF;C 1 R 0 1;E",
        &[(b"A", &[(-2, 0, 0, 4)])],
    ),
    (
        b"DS 1;L A;B 4 2 2 1;DF;C 1 R -1 0;E",
        &[(b"A", &[(-4, -2, 0, 0)])],
    ),
    (
        b"DS 1;L A;B 4 2 2 1;DF;C 1 R 0 -1;E",
        &[(b"A", &[(0, -4, 2, 0)])],
    ),
    (
        b"DS 1;L A;B 4 2 2 1;DF;C 1 M X;E",
        &[(b"A", &[(-4, 0, 0, 2)])],
    ),
    (
        b"DS 1;L A;B 4 2 2 1;DF;C 1 M Y;E",
        &[(b"A", &[(0, -2, 4, 0)])],
    ),
    // The steps of a call go from left to right.
    (
        b"DS 1;L A;B 4 2 2 1;DF;C 1 M X R 0 1;E",
        &[(b"A", &[(-2, -4, 0, 0)])],
    ),
    (
        b"DS 1;L A;B 4 2 2 1;DF;C 1 R 0 1 M X;E",
        &[(b"A", &[(0, 0, 2, 4)])],
    ),
    (
        b"DS 1;L A;B 4 2 2 1;DF;C 1 T 10 0 R 0 1;E",
        &[(b"A", &[(-2, 10, 0, 14)])],
    ),
    (
        b"DS 1;L A;B 4 2 2 1;DF;C 1 R 0 1 T 10 0;E",
        &[(b"A", &[(8, 0, 10, 4)])],
    ),
    // The inner call moves first.
    (
        b"DS 1;L A;B 4 2 2 1;DF;DS 2;C 1 T 10 0;DF;C 2 R 0 1;E",
        &[(b"A", &[(-2, 10, 0, 14)])],
    ),
    (
        b"DS 1;L A;B 4 2 2 1;DF;DS 2;C 1 R 0 1;DF;C 2 T 10 0;E",
        &[(b"A", &[(8, 0, 10, 4)])],
    ),
    (
        b"DS 1;L A;B 4 2 2 1;DF;DS 2;C 1 R 0 1 T 10 0;DF;C 2 M X;E",
        &[(b"A", &[(-10, 0, -8, 4)])],
    ),
    (
        b"DS 1;L A;B 4 2 2 1;DF;DS 2;C 1;C 1 M Y T 0 10;DF;C 2 R 0 1;C 2 T 100 0;E",
        &[(
            b"A",
            &[
                (-10, 0, -8, 4),
                (-2, 0, 0, 4),
                (100, 0, 104, 2),
                (100, 8, 104, 10),
            ],
        )],
    ),
    // Instances make strips together, with each other and with boxes of the top level.
    (
        b"DS 1;L A;B 4 2 2 1;DF;C 1;C 1 T 2 0;E",
        &[(b"A", &[(0, 0, 6, 2)])],
    ),
    (
        b"DS 1;L A;B 4 2 2 1;DF;L A;B 4 2 6 1;C 1;E",
        &[(b"A", &[(0, 0, 8, 2)])],
    ),
    // A caller's scale multiplies its shifts, and not what stands in the symbol that it calls.
    (
        b"DS 1 1 2;L P4;B 8 2 4 1;DF;C 1;E",
        &[(b"P4", &[(0, 0, 4, 1)])],
    ),
    (
        b"DS 1;L A;B 4 2 2 1;DF;DS 2 3 1;C 1 T 1 0;DF;C 2;E",
        &[(b"A", &[(3, 0, 7, 2)])],
    ),
    // Layers stand in the order of their first boxes in the text, and are told where none of their boxes is reached.
    (
        b"DS 1;L B;B 2 2 1 1;DF;L A;B 2 2 5 5;C 1;E",
        &[(b"B", &[(0, 0, 2, 2)]), (b"A", &[(4, 4, 6, 6)])],
    ),
    (
        b"DS 1;L A;B 2 2 1 1;DF;DS 2;L B;B 2 2 1 1;DF;C 2;E",
        &[(b"A", &[]), (b"B", &[(0, 0, 2, 2)])],
    ),
    (
        b"DS 1;L A;B 2 2 1 1;DF;DS 2;C 1;L B;B 2 2 1 1;DF;C 1;E",
        &[(b"A", &[(0, 0, 2, 2)]), (b"B", &[])],
    ),
    // Boxes reach to the ends of the range.
    (
        b"L A;B 2 2 67108857 0;E",
        &[(b"A", &[(67108856, -1, 67108858, 1)])],
    ),
    (
        b"L A;B 2 2 0 -67108857;E",
        &[(b"A", &[(-1, -67108858, 1, -67108856)])],
    ),
    (
        b"DS 1;L A;B 2 2 1 1;DF;C 1 T -67108858 67108856;E",
        &[(b"A", &[(-67108858, 67108856, -67108856, 67108858)])],
    ),
    // Steps and calls that go far out and come back leave no range, nor does a symbol that nothing calls or that has no box.
    (
        b"DS 1;L A;B 2 2 1 1;DF;C 1 T 2147483647 2147483647 T -2147483647 -2147483640;E",
        &[(b"A", &[(0, 7, 2, 9)])],
    ),
    (
        b"DS 1;L A;B 2 2 1 1;DF;C 1 T 2147483647 0 T 2147483647 0 T -2147483647 0 T -2147483647 0;E",
        &[(b"A", &[(0, 0, 2, 2)])],
    ),
    (
        b"DS 1;L A;B 2 2 1 1;DF;DS 2;C 1 T 2147483647 0;DF;C 2 T -2147483647 0;E",
        &[(b"A", &[(0, 0, 2, 2)])],
    ),
    (
        b"DS 1;L A;B 2 2 1 1;DF;DS 2;C 1 T 2147483647 0;DF;C 2 M X T 2147483647 0;E",
        &[(b"A", &[(-2, 0, 0, 2)])],
    ),
    (
        b"DS 1;L A;B 2 2 2147483646 0;DF;C 1 T -2147483646 0;E",
        &[(b"A", &[(-1, -1, 1, 1)])],
    ),
    (b"DS 1;L A;B 2 2 2147483646 0;DF;E", &[(b"A", &[])]),
    (
        b"DS 1 1000000 1;L A;B 2 2 2147483646 0;DF;E",
        &[(b"A", &[])],
    ),
    (b"DS 1;DF;C 1 T 2147483647 0;E", &[]),
];

/// Texts with a box outside the range.
const OUTSIDE: &[&[u8]] = &[
    b"L A;B 2 2 67108858 0;E",
    b"L A;B 2 2 -67108858 0;E",
    b"L A;B 2 2 0 67108858;E",
    b"L A;B 2 2 0 -67108858;E",
    b"L A;B 2 2 0 0;L B;B 2 2 67108858 0;E",
    b"DS 1;L A;B 2 2 1 1;DF;C 1 T 67108857 0;E",
    b"DS 1;L A;B 2 2 1 1;DF;C 1;C 1 T 0 -67108859;E",
    b"DS 1;L A;B 2 2 1 1;DF;C 1 T 67108857 0 M X;E",
    b"DS 1;L A;B 2 2 1 1;DF;DS 2;C 1 T 67108857 0;DF;C 2 R 0 1;E",
    b"DS 1;L A;B 2 2 1 1;DF;DS 2;C 1 T 2147483647 0;DF;C 2 T -2147483647 67108857;E",
    b"DS 1 1000000 1;L A;B 2 2 2147483646 0;DF;C 1;E",
];

fn is_strip(area: &Rect, want: Strip) -> bool {
    (area.xlo, area.ylo, area.xhi, area.yhi) == want
}

fn are_strips(areas: &[Rect], want: &[Strip]) -> bool {
    areas.len() == want.len()
        && areas
            .iter()
            .zip(want)
            .all(|(area, want)| is_strip(area, *want))
}

fn are_layers(layers: &[LayerStrips], want: &[(&[u8], &[Strip])]) -> bool {
    layers.len() == want.len()
        && layers.iter().zip(want).all(|(layer, want)| layer.name.bytes() == want.0
            && are_strips(layer.strips.items(), want.1))
}

fn is_expanded(alloc: Global, text: &Expanded) -> bool {
    match read_cif(alloc, text.0) {
        Ok(cif) => match expand(alloc, &cif) {
            Ok(layers) => are_layers(layers.as_slice(), text.1),
            Err(_) => false,
        },
        Err(_) => false,
    }
}

fn is_outside(alloc: Global, text: &[u8]) -> bool {
    match read_cif(alloc, text) {
        Ok(cif) => match expand(alloc, &cif) {
            Ok(_) => false,
            Err(fault) => fault == ExpansionFault::OutOfRange,
        },
        Err(_) => false,
    }
}

#[test]
fn texts_expand_to_the_strips_of_their_layers(rt: HostRuntime) -> Result<(), Fail> {
    for text in EXPANDED {
        assert!(rt; is_expanded(rt.alloc(), text));
    }
    for text in OUTSIDE {
        assert!(rt; is_outside(rt.alloc(), text));
    }
    Ok(())
}
