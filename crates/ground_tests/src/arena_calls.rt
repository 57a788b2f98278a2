// Calls on one arena, one after another, with what each is to answer.
use std::alloc::Global;
use std::test::Fail;
use tile_arena::{Arena, ArenaFault, Id, MOST_VALUES};

// A call, and its answer. Ids are numbered in the order in which an arena hands them out.
#[derive(Clone, Copy)]
enum Asked {
    Reserve(u32, bool),
    TooMany(u32),
    Insert(u64, u32),
    Remove(u32, u64),
    Value(u32, Option<u64>),
    Set(u32, u64),
    Next(Option<u32>, Option<u32>),
}

const CALLS: &[Asked] = &[
    Asked::Next(None, None),
    Asked::Value(0, None),
    Asked::Reserve(0, true),
    Asked::Reserve(3, true),
    Asked::Insert(10, 0),
    Asked::Insert(20, 1),
    Asked::Insert(30, 2),
    Asked::Value(0, Some(10)),
    Asked::Value(2, Some(30)),
    Asked::Value(3, None),
    Asked::Set(1, 21),
    Asked::Value(0, Some(10)),
    Asked::Value(1, Some(21)),
    Asked::Value(2, Some(30)),
    Asked::Next(None, Some(0)),
    Asked::Next(Some(0), Some(1)),
    Asked::Remove(1, 21),
    Asked::Value(1, None),
    Asked::Next(Some(0), Some(2)),
    Asked::Next(Some(2), None),
    Asked::Remove(0, 10),
    Asked::Next(None, Some(2)),
    Asked::Insert(40, 0),
    Asked::Insert(50, 1),
    Asked::Insert(60, 3),
    Asked::Value(2, Some(30)),
    Asked::Next(Some(2), Some(3)),
    Asked::TooMany(MOST_VALUES - 3),
    Asked::Reserve(100, true),
    Asked::Value(1, Some(50)),
];

fn value_of(arena: &Arena<u64>, id: u32) -> Option<u64> {
    if arena.is_live(Id(id)) {
        Some(*arena.get(Id(id)))
    } else {
        None
    }
}

fn is_inserted(arena: &mut Arena<u64>, value: u64, id: u32) -> bool {
    arena.reserve(1).is_ok() && arena.insert_reserved(value) == Id(id)
}

fn is_removed(arena: &mut Arena<u64>, id: u32, value: u64) -> bool {
    arena.is_live(Id(id)) && arena.remove(Id(id)) == value
}

fn is_set(arena: &mut Arena<u64>, id: u32, value: u64) -> bool {
    if !arena.is_live(Id(id)) {
        return false;
    }
    *arena.get_mut(Id(id)) = value;
    true
}

fn is_answered(arena: &mut Arena<u64>, asked: Asked) -> bool {
    match asked {
        Asked::Reserve(count, is_made) => arena.reserve(count).is_ok() == is_made,
        Asked::TooMany(count) => arena.reserve(count) == Err(ArenaFault::Full),
        Asked::Insert(value, id) => is_inserted(arena, value, id),
        Asked::Remove(id, value) => is_removed(arena, id, value),
        Asked::Value(id, value) => value_of(arena, id) == value,
        Asked::Set(id, value) => is_set(arena, id, value),
        Asked::Next(after, next) => arena.next_live(after.map(Id)) == next.map(Id),
    }
}

fn new_arena(alloc: Global) -> Arena<u64> {
    Arena::new(alloc)
}

#[test]
fn calls_are_answered(rt: HostRuntime) -> Result<(), Fail> {
    let mut arena = new_arena(rt.alloc());
    for asked in CALLS {
        assert!(rt; is_answered(&mut arena, *asked));
    }
    Ok(())
}
