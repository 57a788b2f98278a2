//! Whole technologies, each worked out by hand from its text.

use crate::nm::NM;
use crate::technology_questions::are_types;
use names_lists::Name;
use std::test::Fail;
use tech_file::read_tech;
use tech_model::{ClassRec, FetRule, LayerRec, RawTech, TypeId, TypeRec};

/// A layer: its names, and its images by their numbers.
struct Layer {
    names: &'static [&'static [u8]],
    images: &'static [u8],
}

/// A type: its plane, its layer and its set, where the mark of a contact is the bit 64 and the number of its layer.
type Kind = (u8, u8, u128);

/// A class: its three numbers, and its types.
struct Class {
    numbers: [u64; 3],
    types: &'static [u8],
}

/// A transistor type.
struct Fet {
    kind: u8,
    terminals: &'static [u8],
    name: &'static [u8],
    substrate: &'static [u8],
}

/// A text, and the lists of its technology.
struct Whole {
    text: &'static [u8],
    name: &'static [u8],
    planes: &'static [&'static [u8]],
    layers: &'static [Layer],
    types: &'static [Kind],
    pairs: &'static [(u8, u8)],
    classes: &'static [Class],
    fets: &'static [Fet],
}

/// The pairs of the first line of `connect` are those of poly, pc, efet and dfet with each of them, in this order.
const NM_WHOLE: Whole = Whole {
    text: NM,
    name: b"nm",
    planes: &[b"active", b"metal"],
    layers: &[
        Layer {
            names: &[b"poly", b"p", b"red"],
            images: &[1],
        },
        Layer {
            names: &[b"diff", b"d", b"green"],
            images: &[2],
        },
        Layer {
            names: &[b"efet"],
            images: &[3],
        },
        Layer {
            names: &[b"dfet"],
            images: &[4],
        },
        Layer {
            names: &[b"pc"],
            images: &[5, 8],
        },
        Layer {
            names: &[b"dc"],
            images: &[6, 9],
        },
        Layer {
            names: &[b"metal", b"m", b"blue"],
            images: &[7],
        },
    ],
    types: &[
        (0, 0, 1),
        (0, 1, 2),
        (0, 2, 1 | 2),
        (0, 3, 8),
        (0, 4, 1 | 1 << 68),
        (0, 5, 2 | 1 << 69),
        (1, 6, 64),
        (1, 4, 64 | 1 << 68),
        (1, 5, 64 | 1 << 69),
    ],
    pairs: &[
        (1, 1),
        (1, 5),
        (1, 3),
        (1, 4),
        (5, 1),
        (5, 5),
        (5, 3),
        (5, 4),
        (3, 1),
        (3, 5),
        (3, 3),
        (3, 4),
        (4, 1),
        (4, 5),
        (4, 3),
        (4, 4),
        (2, 2),
        (2, 6),
        (6, 2),
        (6, 6),
        (7, 7),
        (7, 8),
        (7, 9),
        (8, 7),
        (8, 8),
        (8, 9),
        (9, 7),
        (9, 8),
        (9, 9),
    ],
    classes: &[
        Class {
            numbers: [30_000, 400, 100],
            types: &[1, 5],
        },
        Class {
            numbers: [10_000, 1_000, 200],
            types: &[2, 6],
        },
        Class {
            numbers: [30, 300, 100],
            types: &[7, 8, 9],
        },
    ],
    fets: &[
        Fet {
            kind: 3,
            terminals: &[2, 6, 9],
            name: b"efet",
            substrate: b"GND!",
        },
        Fet {
            kind: 4,
            terminals: &[2, 6, 9],
            name: b"dfet",
            substrate: b"GND!",
        },
    ],
};

/// The contact stands on the second plane, and gets its images on the first and the third when its line is read.
const THREE_PLANES: Whole = Whole {
    text: b"\
tech\n three\nend\n\
planes\n low\n mid\n high\nend\n\
types\n low x\n mid y\n mid via,v\n high z\nend\n\
contact\n via x y z\nend\n\
connect\n x,v/low x,via/low\n y,v/mid y,via/mid\n z,v/high z,via/high\nend\n\
extract\n resist via 7\nend\n",
    name: b"three",
    planes: &[b"low", b"mid", b"high"],
    layers: &[
        Layer {
            names: &[b"x"],
            images: &[1],
        },
        Layer {
            names: &[b"y"],
            images: &[2],
        },
        Layer {
            names: &[b"via", b"v"],
            images: &[3, 5, 6],
        },
        Layer {
            names: &[b"z"],
            images: &[4],
        },
    ],
    types: &[
        (0, 0, 1),
        (1, 1, 2),
        (1, 2, 2 | 1 << 66),
        (2, 3, 8),
        (0, 2, 1 | 1 << 66),
        (2, 2, 8 | 1 << 66),
    ],
    pairs: &[
        (1, 1),
        (1, 5),
        (5, 1),
        (5, 5),
        (2, 2),
        (2, 3),
        (3, 2),
        (3, 3),
        (4, 4),
        (4, 6),
        (6, 4),
        (6, 6),
    ],
    classes: &[Class {
        numbers: [7, 0, 0],
        types: &[3, 5, 6],
    }],
    fets: &[],
};

/// The residue of the contact is composed after the contact's line, and the image has the set that it gets then.
const COMPOSED_RESIDUE: Whole = Whole {
    text: b"\
tech\n composed\nend\n\
planes\n a\n b\nend\n\
types\n a p\n a q\n a both\n b m\n a k\nend\n\
contact\n k both m\nend\n\
compose\n compose both p q\nend\n\
connect\nend\n\
extract\nend\n",
    name: b"composed",
    planes: &[b"a", b"b"],
    layers: &[
        Layer {
            names: &[b"p"],
            images: &[1],
        },
        Layer {
            names: &[b"q"],
            images: &[2],
        },
        Layer {
            names: &[b"both"],
            images: &[3],
        },
        Layer {
            names: &[b"m"],
            images: &[4],
        },
        Layer {
            names: &[b"k"],
            images: &[5, 6],
        },
    ],
    types: &[
        (0, 0, 1),
        (0, 1, 2),
        (0, 2, 1 | 2),
        (1, 3, 8),
        (0, 4, 1 | 2 | 1 << 68),
        (1, 4, 8 | 1 << 68),
    ],
    pairs: &[],
    classes: &[],
    fets: &[],
};

const WHOLES: &[Whole] = &[NM_WHOLE, THREE_PLANES, COMPOSED_RESIDUE];

fn are_names(names: &[Name], want: &[&[u8]]) -> bool {
    names.len() == want.len()
        && names
            .iter()
            .zip(want)
            .all(|(name, want)| name.bytes() == *want)
}

fn is_layer(layer: &LayerRec, want: &Layer) -> bool {
    are_names(layer.names.items(), want.names) && are_types(layer.images.items(), want.images)
}

fn are_layers(layers: &[LayerRec], want: &[Layer]) -> bool {
    layers.len() == want.len()
        && layers
            .iter()
            .zip(want)
            .all(|(layer, want)| is_layer(layer, want))
}

fn is_kind(kind: &TypeRec, want: &Kind) -> bool {
    kind.plane == want.0 && kind.layer.0 == want.1 && kind.parts.0 == want.2
}

fn are_kinds(kinds: &[TypeRec], want: &[Kind]) -> bool {
    kinds.len() == want.len()
        && kinds
            .iter()
            .zip(want)
            .all(|(kind, want)| is_kind(kind, want))
}

fn are_pairs(pairs: &[(TypeId, TypeId)], want: &[(u8, u8)]) -> bool {
    pairs.len() == want.len()
        && pairs
            .iter()
            .zip(want)
            .all(|(pair, want)| pair.0.0 == want.0 && pair.1.0 == want.1)
}

fn is_class(class: &ClassRec, want: &Class) -> bool {
    [class.value, class.per_area, class.per_perimeter] == want.numbers
        && are_types(class.types.items(), want.types)
}

fn are_classes(classes: &[ClassRec], want: &[Class]) -> bool {
    classes.len() == want.len()
        && classes
            .iter()
            .zip(want)
            .all(|(class, want)| is_class(class, want))
}

fn is_fet(fet: &FetRule, want: &Fet) -> bool {
    fet.kind.0 == want.kind
        && are_types(fet.terminals.items(), want.terminals)
        && fet.name.bytes() == want.name
        && fet.substrate.bytes() == want.substrate
}

fn are_fets(fets: &[FetRule], want: &[Fet]) -> bool {
    fets.len() == want.len() && fets.iter().zip(want).all(|(fet, want)| is_fet(fet, want))
}

fn is_whole(raw: &RawTech, want: &Whole) -> bool {
    raw.name.bytes() == want.name
        && are_names(raw.planes.items(), want.planes)
        && are_layers(raw.layers.items(), want.layers)
        && are_kinds(raw.types.items(), want.types)
        && are_pairs(raw.pairs.items(), want.pairs)
        && are_classes(raw.classes.items(), want.classes)
        && are_fets(raw.fets.items(), want.fets)
}

#[test]
fn texts_give_technologies(rt: HostRuntime) -> Result<(), Fail> {
    for want in WHOLES {
        let tech = read_tech(rt.alloc(), want.text)?;
        assert!(rt; is_whole(tech.raw(), want));
    }
    Ok(())
}
