// Calls on one table, one after another, with what each is to answer.
use ext_model::{ArrayExt, CellKey, ExtEntry, ExtTable};
use names_lists::{List, Name};
use std::alloc::Global;
use std::test::Fail;

// A call on the cell with a key, and its answer. Entries are told apart by their serials, records by their one class, which is
// the serial too.
#[derive(Clone, Copy)]
enum Asked {
    Reserve(usize),
    Put(usize, u64, u64, Option<u64>),
    Replace(usize, u64, u64, Option<u64>),
    Take(usize, Option<u64>),
    Record(usize, Option<u64>),
    Stamp(usize, Option<u64>),
}

const CALLS: &[Asked] = &[
    Asked::Record(0, None),
    Asked::Stamp(0, None),
    Asked::Take(0, None),
    Asked::Reserve(0),
    Asked::Reserve(3),
    Asked::Put(4, 1, 10, None),
    Asked::Put(0, 2, 11, None),
    Asked::Put(usize::MAX, 3, 12, None),
    Asked::Record(4, Some(1)),
    Asked::Stamp(4, Some(10)),
    Asked::Record(0, Some(2)),
    Asked::Stamp(usize::MAX, Some(12)),
    Asked::Record(1, None),
    Asked::Replace(4, 4, 13, Some(1)),
    Asked::Replace(1, 9, 9, None),
    Asked::Record(1, None),
    Asked::Record(4, Some(4)),
    Asked::Stamp(4, Some(13)),
    Asked::Stamp(0, Some(11)),
    Asked::Take(4, Some(4)),
    Asked::Take(4, None),
    Asked::Record(4, None),
    Asked::Stamp(4, None),
    Asked::Record(usize::MAX, Some(3)),
    Asked::Reserve(100),
    Asked::Stamp(0, Some(11)),
    Asked::Put(4, 5, 14, None),
    Asked::Record(4, Some(5)),
    Asked::Take(usize::MAX, Some(3)),
    Asked::Take(0, Some(2)),
    Asked::Record(4, Some(5)),
];

pub(crate) fn new_entry(alloc: Global, serial: u64, stamp: u64) -> Result<ExtEntry, Fail> {
    let classes = List::of(vec![in alloc; serial]?);
    let ext = ArrayExt {
        cell: Name::empty(alloc),
        tech: Name::empty(alloc),
        classes,
        uses: List::of(Vec::new(alloc)),
        nodes: List::of(Vec::new(alloc)),
        fets: List::of(Vec::new(alloc)),
        merges: List::of(Vec::new(alloc)),
    };
    Ok(ExtEntry { ext, serial, stamp })
}

pub(crate) fn class_of(ext: Option<&ArrayExt>) -> Option<u64> {
    ext?.classes.items().first().copied()
}

fn serial_of(entry: Option<ExtEntry>) -> Option<u64> {
    match entry {
        Some(entry) => Some(entry.serial),
        None => None,
    }
}

fn put(
    table: &mut ExtTable,
    alloc: Global,
    key: usize,
    serial: u64,
    stamp: u64,
) -> Result<Option<u64>, Fail> {
    let entry = new_entry(alloc, serial, stamp)?;
    table.reserve(1)?;
    Ok(serial_of(table.put(CellKey(key), entry)))
}

// the same without more room, where the cell has an entry
fn replace(
    table: &mut ExtTable,
    alloc: Global,
    key: usize,
    serial: u64,
    stamp: u64,
) -> Result<Option<u64>, Fail> {
    let entry = new_entry(alloc, serial, stamp)?;
    if table.get(CellKey(key)).is_none() {
        return Ok(None);
    }
    Ok(serial_of(table.put(CellKey(key), entry)))
}

fn is_answered(table: &mut ExtTable, alloc: Global, asked: Asked) -> Result<bool, Fail> {
    Ok(match asked {
        Asked::Reserve(count) => table.reserve(count).is_ok(),
        Asked::Put(key, serial, stamp, old) => put(table, alloc, key, serial, stamp)? == old,
        Asked::Replace(key, serial, stamp, old) => {
            replace(table, alloc, key, serial, stamp)? == old
        }
        Asked::Take(key, old) => serial_of(table.take(CellKey(key))) == old,
        Asked::Record(key, class) => class_of(table.get(CellKey(key))) == class,
        Asked::Stamp(key, stamp) => table.stamp(CellKey(key)) == stamp,
    })
}

fn new_table(alloc: Global) -> ExtTable {
    ExtTable::new(alloc)
}

#[test]
fn calls_are_answered(rt: HostRuntime) -> Result<(), Fail> {
    let mut table = new_table(rt.alloc());
    for asked in CALLS {
        assert!(rt; is_answered(&mut table, rt.alloc(), *asked)?);
    }
    Ok(())
}
