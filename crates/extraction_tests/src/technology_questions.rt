//! What a technology answers.
ghost use Rattle.std.specs.Prelude.{◌<◌, length};

use crate::nm::NM;
use std::alloc::AllocError;
use std::test::Fail;
use tech_file::read_tech;
use tech_model::{Brush, LayerId, LayerIndex, MOST_PLANES, PartSet, Tech, TypeId};

/// A question to a technology, and its answer. Types, layers and planes are told by their numbers.
enum Asked {
    /// The layer of a name or alias.
    Layer(&'static [u8], Option<u8>),
    /// The image of a layer on a plane.
    Image(u8, u8, Option<u8>),
    /// The type of a plane that has a set.
    Joined(u8, u128, Option<u8>),
    Connects(u8, u8, bool),
    Within(u8, u8, bool),
    /// The word of a type.
    Word(u8, &'static [u8]),
    /// The column over two types after paint of a layer, and after it was erased.
    Painted(u8, [u8; 2], [u8; 2]),
    Erased(u8, [u8; 2], [u8; 2]),
    /// The plane and the layer of a type.
    Kind(u8, u8, u8),
    /// The numbers of a class, and its types.
    Class(usize, [u64; 3], &'static [u8]),
    /// The type, the terminals and the name of a transistor.
    Fet(usize, u8, &'static [u8], &'static [u8]),
    /// How many planes, layers, types, classes and transistors there are.
    Counts([usize; 5]),
}

const QUESTIONS: &[Asked] = &[
    Asked::Layer(b"red", Some(0)),
    Asked::Layer(b"poly", Some(0)),
    Asked::Layer(b"metal", Some(6)),
    Asked::Layer(b"blue", Some(6)),
    Asked::Layer(b"space", None),
    Asked::Layer(b"pol", None),
    Asked::Layer(b"", None),
    Asked::Image(4, 0, Some(5)),
    Asked::Image(4, 1, Some(8)),
    Asked::Image(0, 1, None),
    Asked::Image(0, 7, None),
    Asked::Joined(0, 3, Some(3)),
    Asked::Joined(0, 0, Some(0)),
    Asked::Joined(0, 9, None),
    Asked::Joined(1, 3, None),
    Asked::Joined(1, 1 << 6, Some(7)),
    Asked::Connects(5, 1, true),
    Asked::Connects(1, 5, true),
    Asked::Connects(5, 8, true),
    Asked::Connects(8, 9, true),
    Asked::Connects(6, 8, false),
    Asked::Connects(1, 2, false),
    Asked::Connects(2, 2, true),
    Asked::Connects(0, 0, false),
    Asked::Connects(200, 200, false),
    Asked::Within(1, 3, true),
    Asked::Within(3, 1, false),
    Asked::Within(2, 3, false),
    Asked::Within(7, 8, true),
    Asked::Within(0, 0, true),
    Asked::Within(0, 1, false),
    Asked::Word(3, b"efet"),
    Asked::Word(8, b"pc"),
    Asked::Painted(0, [2, 0], [3, 0]),
    Asked::Painted(0, [6, 9], [1, 7]),
    Asked::Painted(4, [0, 0], [5, 8]),
    Asked::Painted(6, [1, 0], [1, 7]),
    Asked::Erased(0, [5, 8], [0, 7]),
    Asked::Erased(1, [3, 0], [1, 0]),
    Asked::Erased(0, [2, 7], [2, 7]),
    Asked::Erased(4, [5, 8], [0, 0]),
    Asked::Kind(3, 0, 2),
    Asked::Kind(7, 1, 6),
    Asked::Kind(9, 1, 5),
    Asked::Class(0, [30_000, 400, 100], &[1, 5]),
    Asked::Class(1, [10_000, 1_000, 200], &[2, 6]),
    Asked::Class(2, [30, 300, 100], &[7, 8, 9]),
    Asked::Fet(0, 3, &[2, 6, 9], b"efet"),
    Asked::Fet(1, 4, &[2, 6, 9], b"dfet"),
    Asked::Counts([2, 7, 9, 3, 2]),
];

fn is_image(tech: &Tech, layer: LayerId, plane: u8, want: Option<u8>) -> bool {
    usize::from(layer.0) < tech.raw().layers.items().len()
        && tech.image(layer, plane) == want.map(TypeId)
}

fn is_word(tech: &Tech, kind: u8, want: &[u8]) -> bool {
    1 <= kind
        && usize::from(kind) <= tech.raw().types.items().len()
        && tech.word(TypeId(kind)) == want
}

/// The column of these types on the first two planes.
fn column(kinds: [u8; 2]) -> [TypeId; MOST_PLANES] {
    let mut column = [TypeId(0); MOST_PLANES];
    column[0] = TypeId(kinds[0]);
    column[1] = TypeId(kinds[1]);
    column
}

fn is_brushed(tech: &Tech, brush: Brush, layer: LayerId, below: [u8; 2], want: [u8; 2]) -> bool {
    let mut brushed = column(below);
    if usize::from(layer.0) < tech.raw().layers.items().len() {
        tech.brush_column(brush, &mut brushed, layer);
    }
    brushed == column(want)
}

fn is_kind(tech: &Tech, kind: u8, plane: u8, layer: u8) -> bool {
    let place = usize::from(kind).wrapping_sub(1);
    match tech.raw().types.items().get(place) {
        Some(record) => record.plane == plane && record.layer == LayerId(layer),
        None => false,
    }
}

/// Whether these are the types of these numbers.
pub fn are_types(kinds: &[TypeId], want: &[u8]) -> bool {
    kinds.len() == want.len() && kinds.iter().zip(want).all(|(kind, want)| kind.0 == *want)
}

fn is_class(tech: &Tech, place: usize, numbers: [u64; 3], kinds: &[u8]) -> bool {
    match tech.raw().classes.items().get(place) {
        Some(class) => {
            [class.value, class.per_area, class.per_perimeter] == numbers
                && are_types(class.types.items(), kinds)
        }
        None => false,
    }
}

fn is_fet(tech: &Tech, place: usize, kind: u8, terminals: &[u8], name: &[u8]) -> bool {
    match tech.raw().fets.items().get(place) {
        Some(fet) => {
            fet.kind == TypeId(kind)
                && are_types(fet.terminals.items(), terminals)
                && fet.name.bytes() == name
                && fet.substrate.bytes() == b"GND!".as_slice()
        }
        None => false,
    }
}

fn counts(tech: &Tech) -> [usize; 5] {
    let raw = tech.raw();
    [
        raw.planes.items().len(),
        raw.layers.items().len(),
        raw.types.items().len(),
        raw.classes.items().len(),
        raw.fets.items().len(),
    ]
}

fn is_answered(tech: &Tech, asked: &Asked) -> bool {
    match asked {
        Asked::Layer(name, want) => tech.layer(name) == want.map(LayerId),
        Asked::Image(layer, plane, want) => is_image(tech, LayerId(*layer), *plane, *want),
        Asked::Joined(plane, set, want) => tech.joined(*plane, PartSet(*set)) == want.map(TypeId),
        Asked::Connects(s, t, want) => tech.connects(TypeId(*s), TypeId(*t)) == *want,
        Asked::Within(s, t, want) => tech.within(TypeId(*s), TypeId(*t)) == *want,
        Asked::Word(kind, want) => is_word(tech, *kind, want),
        Asked::Painted(layer, below, want) => is_brushed(
            tech,
            Brush::Paint,
            LayerId(*layer),
            *below,
            *want,
        ),
        Asked::Erased(layer, below, want) => is_brushed(
            tech,
            Brush::Erase,
            LayerId(*layer),
            *below,
            *want,
        ),
        Asked::Kind(kind, plane, layer) => is_kind(tech, *kind, *plane, *layer),
        Asked::Class(place, numbers, kinds) => is_class(tech, *place, *numbers, kinds),
        Asked::Fet(place, kind, terminals, name) => is_fet(tech, *place, *kind, terminals, name),
        Asked::Counts(want) => counts(tech) == *want,
    }
}

#[test]
fn a_technology_answers(rt: HostRuntime) -> Result<(), Fail> {
    let tech = read_tech(rt.alloc(), NM)?;
    for asked in QUESTIONS {
        assert!(rt; is_answered(&tech, asked));
    }
    Ok(())
}

/// A call of an index of layers, and its answer.
enum Call {
    Add(&'static [u8], u8),
    Find(&'static [u8], Option<u8>),
}

const CALLS: &[Call] = &[
    Call::Find(b"poly", None),
    Call::Add(b"poly", 3),
    Call::Find(b"poly", Some(3)),
    Call::Find(b"pol", None),
    Call::Add(b"red", 3),
    Call::Add(b"diff", 0),
    Call::Find(b"red", Some(3)),
    Call::Find(b"diff", Some(0)),
];

fn is_done(index: &mut LayerIndex, call: &Call) -> Result<bool, AllocError> {
    match call {
        Call::Add(word, layer) => {
            let is_new = index.find(word).is_none();
            if is_new {
                index.add(word, LayerId(*layer))?;
            }
            Ok(is_new)
        }
        Call::Find(word, want) => Ok(index.find(word) == want.map(LayerId)),
    }
}

#[test]
fn an_index_finds_words(rt: HostRuntime) -> Result<(), Fail> {
    let mut index = LayerIndex::new(rt.alloc());
    for call in CALLS {
        assert!(rt; is_done(&mut index, call)?);
    }
    Ok(())
}
