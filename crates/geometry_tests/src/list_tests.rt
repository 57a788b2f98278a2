//! What no clause says of names and lists: that memory is enough for them.
ghost use Rattle.std.specs.Prelude.{◌≡◌, ◌<◌, length, slice_set};

use names_lists::{List, Name};
use std::alloc::{AllocError, Global};
use std::test::Fail;

/// Two names, and whether they are the same.
const NAMES: &[(&[u8], &[u8], bool)] = &[
    (b"u1/Vdd!", b"u1/Vdd!", true),
    (b"u1/Vdd!", b"u1/Vdd", false),
    (b"", b"", true),
    (b"", b"a", false),
];

/// Whether the name and a copy of it have the bytes.
fn has_bytes(alloc: Global, bytes: &[u8]) -> Result<bool, AllocError> {
    let name = Name::of(alloc, bytes)?;
    let copy = name.copy(alloc)?;
    Ok(name.bytes() == bytes && copy.bytes() == bytes && copy == name)
}

fn are_told_apart(alloc: Global, row: (&[u8], &[u8], bool)) -> Result<bool, AllocError> {
    let (first, second, same) = row;
    let told = (Name::of(alloc, first)? == Name::of(alloc, second)?) == same;
    Ok(told && has_bytes(alloc, first)?)
}

#[test]
fn names_are_told_apart_by_their_bytes(rt: HostRuntime) -> Result<(), Fail> {
    for row in NAMES {
        assert!(rt; are_told_apart(rt.alloc(), *row)?);
    }
    Ok(())
}

/// What is written to the items is in the list afterwards.
fn set_first(list: &mut List<u32>, item: u32)
    requires { 0 < length list.old }
    ensures { list.new ≡ slice_set list.old 0 item }
{
    list.items_mut()[0] = item;
}

/// A list of three items, turned round and with another first one.
fn changed(alloc: Global) -> Result<Vec<u32>, AllocError> {
    let mut list = List::of(Vec::from_slice(alloc, [3u32, 1, 2].as_slice())?);
    list.items_mut().reverse();
    if !list.items().is_empty() {
        set_first(&mut list, 7);
    }
    Ok(list.into_vec())
}

#[test]
fn lists_have_what_is_written_to_them(rt: HostRuntime) -> Result<(), Fail> {
    assert_eq!(rt; changed(rt.alloc())?.as_slice(), [7u32, 1, 3].as_slice());
    Ok(())
}
