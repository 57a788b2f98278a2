// Long names and long texts.
use names_lists::{List, Name};
use sim_text::{LONGEST_SIM_NAME, LONGEST_TEXT, SimFault, SimFile, read_sim, write_sim};
use std::alloc::{AllocError, Global};
use std::test::Fail;
use text_scan::append_decimal;

const HEADER: &[u8] = b"| units: 1 tech: nm format: MIT\n";

// How many bytes stand in a header around the technology's name, with the line feed.
const AROUND_TECH: usize = 30;

// How long a node's name is, and whether it is one.
const NAMES: &[(usize, Result<(), SimFault>)] = &[
    (1, Ok(())),
    (LONGEST_SIM_NAME, Ok(())),
    (LONGEST_SIM_NAME + 1, Err(SimFault::Name)),
];

// How long the text of a circuit is, and whether it is written.
const LENGTHS: &[(usize, Result<(), SimFault>)] = &[
    (LONGEST_TEXT, Ok(())),
    (LONGEST_TEXT + 1, Err(SimFault::TooLong)),
];

fn text_with_name(alloc: Global, length: usize) -> Result<Vec<u8>, AllocError> {
    let name = vec![in alloc; b'x'; length]?;
    let mut text = Vec::from_slice(alloc, HEADER)?;
    text.extend_from_slice(b"= a ")?;
    text.extend_from_slice(&name)?;
    Ok(text)
}

fn is_name_read(
    alloc: Global,
    length: usize,
    want: Result<(), SimFault>,
) -> Result<bool, AllocError> {
    let text = text_with_name(alloc, length)?;
    match read_sim(alloc, &text) {
        Ok(sim) => Ok(want.is_ok() && sim.aliases.items().len() == 1),
        Err(at) => Ok(want == Err(at.fault) && at.line == 2),
    }
}

#[test]
fn names_have_a_greatest_length(rt: HostRuntime) -> Result<(), Fail> {
    for (length, want) in NAMES {
        let read = is_name_read(rt.alloc(), *length, *want)?;
        assert!(rt; read);
    }
    Ok(())
}

// A circuit of a technology's name alone, whose text has so many bytes.
fn circuit_of_length(alloc: Global, length: usize) -> Result<SimFile, SimFault> {
    let tech = vec![in alloc; b'x'; length.saturating_sub(AROUND_TECH)]?;
    Ok(SimFile {
        tech: Name::of(alloc, &tech)?,
        fets: List::of(Vec::new(alloc)),
        caps: List::of(Vec::new(alloc)),
        aliases: List::of(Vec::new(alloc)),
    })
}

fn is_written(alloc: Global, length: usize, want: Result<(), SimFault>) -> Result<bool, SimFault> {
    let sim = circuit_of_length(alloc, length)?;
    match write_sim(alloc, &sim) {
        Ok(text) => Ok(want.is_ok() && text.len() == length),
        Err(fault) => Ok(want == Err(fault)),
    }
}

#[test]
fn texts_have_a_greatest_length(rt: HostRuntime) -> Result<(), Fail> {
    for (length, want) in LENGTHS {
        let written = is_written(rt.alloc(), *length, *want)?;
        assert!(rt; written);
    }
    Ok(())
}

// How many lines a long text has behind the first.
const LONG: u32 = 100_000;

fn long_text(alloc: Global) -> Result<Vec<u8>, AllocError> {
    let mut text = Vec::from_slice(alloc, HEADER)?;
    for number in 0..LONG {
        text.extend_from_slice(b"e in")?;
        append_decimal(&mut text, i128::from(number))?;
        text.extend_from_slice(b" GND! out 2 2 2 4\n")?;
    }
    Ok(text)
}

fn is_read_and_written(alloc: Global) -> Result<bool, SimFault> {
    let text = long_text(alloc)?;
    match read_sim(alloc, &text) {
        Ok(sim) => Ok(write_sim(alloc, &sim)?.as_slice() == text.as_slice()),
        Err(_) => Ok(false),
    }
}

#[test]
fn a_long_text_is_read_and_written_again(rt: HostRuntime) -> Result<(), Fail> {
    let same = is_read_and_written(rt.alloc())?;
    assert!(rt; same);
    Ok(())
}
