// Many entries, in room that was reserved at once, under keys far apart: each is found again.
use crate::record_tables::{class_of, new_entry};
use ext_model::{CellKey, ExtTable};
use std::alloc::Global;
use std::test::Fail;

const ENTRIES: usize = 65_535;

const STRIDE: usize = 1 << 47;

fn filled(alloc: Global) -> Result<ExtTable, Fail> {
    let mut table = ExtTable::new(alloc);
    table.reserve(ENTRIES)?;
    for number in 0..ENTRIES {
        let entry = new_entry(alloc, number as u64, 1)?;
        let _old = table.put(CellKey(number * STRIDE), entry);
    }
    Ok(table)
}

fn count_found(table: &ExtTable) -> usize {
    let mut count = 0usize;
    for number in 0..ENTRIES {
        if class_of(table.get(CellKey(number * STRIDE))) == Some(number as u64) {
            count = count.saturating_add(1);
        }
    }
    count
}

#[test]
fn entries_are_found_again(rt: HostRuntime) -> Result<(), Fail> {
    let table = filled(rt.alloc())?;
    assert_eq!(rt; count_found(&table), ENTRIES);
    Ok(())
}
