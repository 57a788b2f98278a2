// Pairs of names and which stands first, and names and their kinds, worked by hand.
use ext_model::{NameKind, compare_names, kind_of_name};
use std::cmp::Ordering;
use std::test::Fail;

const PAIRS: &[(&'static [u8], &'static [u8], Ordering)] = &[
    (b"in", b"in", Ordering::Equal),
    (b"", b"", Ordering::Equal),
    (b"", b"a", Ordering::Less),
    (b"GND!", b"Vdd!", Ordering::Less),
    (b"Vdd!", b"in", Ordering::Less),
    (b"out", b"a_0_0#", Ordering::Less),
    (b"x#", b"x!", Ordering::Greater),
    (b"in", b"out", Ordering::Less),
    (b"b", b"aa", Ordering::Less),
    (b"ab", b"aa", Ordering::Greater),
    (b"B", b"a", Ordering::Less),
    (b"out", b"a/b", Ordering::Less),
    (b"a_long_name", b"a/b", Ordering::Less),
    (b"a/b/c", b"one/longer_name", Ordering::Greater),
    (b"one/GND!", b"in", Ordering::Less),
    (b"one/GND!", b"GND!", Ordering::Greater),
    (b"one!/in", b"out", Ordering::Greater),
    (b"diff_n1_n2#", b"diff_10_20#", Ordering::Greater),
    (b"diff_0_0#", b"one/diff_0_0#", Ordering::Less),
    (b"cell[0,1]/x", b"cell[0,0]/y", Ordering::Greater),
    (b"a\x7f", b"a\x80", Ordering::Less),
];

fn is_ordered(first: &[u8], second: &[u8], order: Ordering) -> bool {
    compare_names(first, second) == order && compare_names(second, first) == order.reverse()
}

#[test]
fn names_are_in_order(rt: HostRuntime) -> Result<(), Fail> {
    for (first, second, order) in PAIRS {
        assert!(rt; is_ordered(first, second, *order));
    }
    Ok(())
}

const KINDS: &[(&'static [u8], NameKind)] = &[
    (b"GND!", NameKind::Global),
    (b"!", NameKind::Global),
    (b"one/two/Vdd!", NameKind::Global),
    (b"#!", NameKind::Global),
    (b"in", NameKind::Label),
    (b"!in", NameKind::Label),
    (b"one#/in", NameKind::Label),
    (b"", NameKind::Label),
    (b"diff_n3_4#", NameKind::Generated),
    (b"one/diff_n3_4#", NameKind::Generated),
    (b"!#", NameKind::Generated),
];

#[test]
fn kinds_are_told(rt: HostRuntime) -> Result<(), Fail> {
    for (name, kind) in KINDS {
        assert!(rt; kind_of_name(name) == *kind);
    }
    Ok(())
}
