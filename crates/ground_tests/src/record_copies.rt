// A record with a part of every kind, and its copy.
use ext_model::{ArrayExt, ArrayUse, FetRec, MergeRow, NodeRec, TermRec};
use geo_core::Grid;
use names_lists::{List, Name};
use std::alloc::Global;
use std::test::Fail;

fn array(alloc: Global) -> Result<ArrayUse, Fail> {
    let cell = Name::of(alloc, b"inv")?;
    let id = Name::of(alloc, b"gate")?;
    let grid = Grid {
        xlo: 0,
        xhi: 7,
        xsep: 12,
        ylo: 1,
        yhi: -1,
        ysep: -20,
    };
    Ok(ArrayUse {
        cell,
        id,
        six: [0, -1, 12, 1, 0, -7],
        grid: Some(grid),
    })
}

fn node(alloc: Global) -> Result<NodeRec, Fail> {
    let aliases = List::of(vec![in alloc;
        Name::of(alloc, b"carry")?,
        Name::of(alloc, b"carry_out")?,
    ]?);
    let measures = List::of(vec![in alloc; (8, 12), (-12, 16), (0, 0)]?);
    Ok(NodeRec {
        name: Name::of(alloc, b"out")?,
        aliases,
        cap: 24800,
        x: 2,
        y: -6,
        kind: Name::of(alloc, b"diff")?,
        measures,
    })
}

fn side(alloc: Global, node: &[u8], length: i128) -> Result<TermRec, Fail> {
    Ok(TermRec {
        node: Name::of(alloc, node)?,
        length,
    })
}

fn transistor(alloc: Global) -> Result<FetRec, Fail> {
    let terminals = List::of(vec![in alloc; side(alloc, b"GND!", 2)?, side(alloc, b"out", 3)?]?);
    Ok(FetRec {
        kind: Name::of(alloc, b"efet")?,
        x: 2,
        y: 4,
        area: 4,
        perimeter: 8,
        substrate: Name::of(alloc, b"GND!")?,
        gate: side(alloc, b"in", 3)?,
        terminals,
    })
}

fn row(alloc: Global) -> Result<MergeRow, Fail> {
    let measures = List::of(vec![in alloc; (-3, -4), (5, 6)]?);
    Ok(MergeRow {
        first: Name::of(alloc, b"out")?,
        second: Name::of(alloc, b"gate[0,1]/in")?,
        count: 8,
        cap: -17,
        measures,
    })
}

fn record(alloc: Global) -> Result<ArrayExt, Fail> {
    let uses = List::of(vec![in alloc; array(alloc)?]?);
    let nodes = List::of(vec![in alloc; node(alloc)?]?);
    let fets = List::of(vec![in alloc; transistor(alloc)?]?);
    let merges = List::of(vec![in alloc; row(alloc)?]?);
    Ok(ArrayExt {
        cell: Name::of(alloc, b"top")?,
        tech: Name::of(alloc, b"nm")?,
        classes: List::of(vec![in alloc; 30000, 10000, 30]?),
        uses,
        nodes,
        fets,
        merges,
    })
}

#[test]
fn a_copy_prints_as_its_record(rt: HostRuntime) -> Result<(), Fail> {
    let record = record(rt.alloc())?;
    let copy = record.copy(rt.alloc())?;
    let printed = format!(in rt.alloc(); "{record:?}")?;
    assert!(rt; format!(in rt.alloc(); "{copy:?}")? == printed);
    Ok(())
}
