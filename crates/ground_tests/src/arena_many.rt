// Many values, in many blocks: none moves or is lost while others come and go, and what an arena took is given back when it ends.
use std::alloc::Global;
use std::test::Fail;
use tile_arena::{Arena, ArenaFault, Id};

const VALUES: u32 = 100_000;

fn filled(alloc: Global) -> Result<Arena<u32>, ArenaFault> {
    let mut arena = Arena::new(alloc);
    for value in 0..VALUES {
        arena.reserve(1)?;
        let _id = arena.insert_reserved(value);
    }
    Ok(arena)
}

fn without_odd_ids(arena: &mut Arena<u32>) {
    for number in 0..VALUES {
        if number % 2 == 1 && arena.is_live(Id(number)) {
            let _value = arena.remove(Id(number));
        }
    }
}

fn count_live_equal_to_id(arena: &Arena<u32>) -> u32 {
    let mut count = 0u32;
    let mut after = None;
    for _ in 0..VALUES {
        let Some(id) = arena.next_live(after) else {
            return count;
        };
        if arena.is_live(id) && *arena.get(id) == id.0 {
            count = count.saturating_add(1);
        }
        after = Some(id);
    }
    count
}

#[test]
fn values_stay_while_others_go(rt: HostRuntime) -> Result<(), Fail> {
    let mut arena = filled(rt.alloc())?;
    assert_eq!(rt; count_live_equal_to_id(&arena), VALUES);
    let copy = arena.copy()?;
    without_odd_ids(&mut arena);
    assert_eq!(rt; count_live_equal_to_id(&arena), VALUES / 2);
    assert_eq!(rt; count_live_equal_to_id(&copy), VALUES);
    Ok(())
}

#[test]
fn arenas_end(rt: HostRuntime) -> Result<(), Fail> {
    for _ in 0..100 {
        let arena = filled(rt.alloc())?;
        assert!(rt; arena.is_live(Id(VALUES - 1)));
    }
    Ok(())
}
