//! Which limits texts pass that stand for much.

use cif_expansion::{CifLimit, ExpansionFault, expand};
use cif_reading::read_cif;
use std::alloc::{AllocError, Global};
use std::test::Fail;
use text_scan::append_decimal;

/// How far away nothing lies within the range any more.
const FAR: i128 = 2_147_483_647;

/// A text of symbols one above the other, and whether it is expanded.
struct Tower {
    /// How many boxes the first symbol has.
    boxes: u32,
    /// How many symbols there are.
    symbols: i128,
    /// How often each symbol after the first calls the one before it.
    calls: u32,
    /// Which symbol the top level calls.
    top: i128,
    /// How often it does.
    top_calls: u32,
    /// How many boxes stand at the top level.
    top_boxes: u32,
    /// How far to the right the calls of the top level move.
    shift: i128,
    want: Result<(), ExpansionFault>,
}

const TOO_DEEP: ExpansionFault = ExpansionFault::TooMany(CifLimit::Depth);

const TOO_MANY_INSTANCES: ExpansionFault = ExpansionFault::TooMany(CifLimit::Elements);

const TOO_MANY_BOXES: ExpansionFault = ExpansionFault::TooMany(CifLimit::Boxes);

// One box in one symbol, which is called once where it stands.
const ONE: Tower = Tower {
    boxes: 1,
    symbols: 1,
    calls: 1,
    top: 1,
    top_calls: 1,
    top_boxes: 0,
    shift: 0,
    want: Ok(()),
};

const TOWERS: &[Tower] = &[
    ONE,
    // Chains of calls.
    Tower {
        symbols: 64,
        top: 64,
        ..ONE
    },
    Tower {
        symbols: 65,
        top: 65,
        want: Err(TOO_DEEP),
        ..ONE
    },
    Tower {
        symbols: 65,
        top: 64,
        ..ONE
    },
    Tower {
        symbols: 65,
        top_calls: 0,
        ..ONE
    },
    Tower {
        symbols: 1000,
        top: 1000,
        want: Err(TOO_DEEP),
        ..ONE
    },
    // Instances: 1,000 calls of a symbol with 999 calls, and 101 of one with 9,900.
    Tower {
        boxes: 0,
        symbols: 2,
        calls: 999,
        top: 2,
        top_calls: 1000,
        ..ONE
    },
    Tower {
        boxes: 0,
        symbols: 2,
        calls: 9900,
        top: 2,
        top_calls: 101,
        want: Err(TOO_MANY_INSTANCES),
        ..ONE
    },
    // 16,383 instances and 8,192 boxes, and 1,048,575 instances.
    Tower {
        symbols: 14,
        calls: 2,
        top: 14,
        ..ONE
    },
    Tower {
        symbols: 20,
        calls: 2,
        top: 20,
        want: Err(TOO_MANY_INSTANCES),
        ..ONE
    },
    Tower {
        symbols: 20,
        calls: 2,
        top: 1,
        ..ONE
    },
    // 2,048 instances of 2,048 boxes, and one box more.
    Tower {
        boxes: 2048,
        symbols: 12,
        calls: 2,
        top: 12,
        top_boxes: 1,
        want: Err(TOO_MANY_BOXES),
        ..ONE
    },
    // Past several limits, and far out.
    Tower {
        symbols: 65,
        calls: 2,
        top: 65,
        shift: FAR,
        want: Err(TOO_DEEP),
        ..ONE
    },
    Tower {
        symbols: 64,
        calls: 2,
        top: 64,
        shift: FAR,
        want: Err(TOO_MANY_INSTANCES),
        ..ONE
    },
    Tower {
        boxes: 2048,
        symbols: 12,
        calls: 2,
        top: 12,
        top_calls: 2,
        shift: FAR,
        want: Err(TOO_MANY_BOXES),
        ..ONE
    },
    Tower {
        symbols: 64,
        top: 64,
        shift: FAR,
        want: Err(ExpansionFault::OutOfRange),
        ..ONE
    },
];

fn append_boxes(text: &mut Vec<u8>, count: u32) -> Result<(), AllocError> {
    text.extend_from_slice(b"L A;")?;
    for _ in 0..count {
        text.extend_from_slice(b"B 2 2 1 1;")?;
    }
    Ok(())
}

fn append_calls(
    text: &mut Vec<u8>,
    symbol: i128,
    count: u32,
    shift: i128,
) -> Result<(), AllocError> {
    for _ in 0..count {
        text.extend_from_slice(b"C ")?;
        append_decimal(text, symbol)?;
        text.extend_from_slice(b" T ")?;
        append_decimal(text, shift)?;
        text.extend_from_slice(b" 0;")?;
    }
    Ok(())
}

fn append_start(text: &mut Vec<u8>, symbol: i128) -> Result<(), AllocError> {
    text.extend_from_slice(b"DS ")?;
    append_decimal(text, symbol)?;
    text.extend_from_slice(b";")
}

fn append_symbols(text: &mut Vec<u8>, tower: &Tower) -> Result<(), AllocError> {
    append_start(text, 1)?;
    append_boxes(text, tower.boxes)?;
    text.extend_from_slice(b"DF;")?;
    for below in 1..tower.symbols {
        append_start(text, below + 1)?;
        append_calls(text, below, tower.calls, 0)?;
        text.extend_from_slice(b"DF;")?;
    }
    Ok(())
}

fn text_of(alloc: Global, tower: &Tower) -> Result<Vec<u8>, AllocError> {
    let mut text = Vec::new(alloc);
    append_symbols(&mut text, tower)?;
    append_boxes(&mut text, tower.top_boxes)?;
    append_calls(&mut text, tower.top, tower.top_calls, tower.shift)?;
    text.extend_from_slice(b"E")?;
    Ok(text)
}

fn is_answered(alloc: Global, tower: &Tower) -> Result<bool, AllocError> {
    let text = text_of(alloc, tower)?;
    match read_cif(alloc, text.as_slice()) {
        Ok(cif) => match expand(alloc, &cif) {
            Ok(_) => Ok(tower.want.is_ok()),
            Err(fault) => Ok(tower.want == Err(fault)),
        },
        Err(_) => Ok(false),
    }
}

#[test]
fn texts_that_stand_for_too_much_are_refused(rt: HostRuntime) -> Result<(), Fail> {
    for tower in TOWERS {
        let answered = is_answered(rt.alloc(), tower)?;
        assert!(rt; answered);
    }
    Ok(())
}
