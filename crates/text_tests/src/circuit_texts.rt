// Flat circuits and their files, which are of version 1.
use crate::circuit_records::{CircuitRow, FetRow, NodeRow, circuit};
use ext_text::write_flat;
use std::test::Fail;

struct Row {
    circuit: CircuitRow,
    text: &'static [u8],
}

const FLAT: &[Row] = &[Row {
    circuit: CircuitRow {
        classes: &[30],
        nodes: &[NodeRow {
            name: b"a/metal_0_0#",
            aliases: &[b"b/metal_0_0#", b"c/d/metal_0_0#"],
            cap: 2200,
            at: (-3, 0),
            kind: b"metal",
            measures: &[(4, 10)],
        }],
        fets: &[FetRow {
            kind: b"dfet",
            at: (-1, -9),
            size: (4, 8),
            gate: (b"a/metal_0_0#", 8),
            terminals: &[],
        }],
    },
    text: b"tech nm\ntimestamp 0\nversion 1\nstyle nm\nscale 1 1 1\nresistclasses 30\n\
        node \"a/metal_0_0#\" 0 2200 -3 0 metal 4 10\n\
        equiv \"a/metal_0_0#\" \"b/metal_0_0#\"\n\
        equiv \"a/metal_0_0#\" \"c/d/metal_0_0#\"\n\
        fet dfet -1 -9 0 -8 4 8 \"GND!\" \"a/metal_0_0#\" 8 0\n",
}];

#[test]
fn circuits_are_written(rt: HostRuntime) -> Result<(), Fail> {
    for row in FLAT {
        let written = write_flat(rt.alloc(), &circuit(rt.alloc(), &row.circuit)?)?;
        assert!(rt; written.as_slice() == row.text);
    }
    Ok(())
}
