//! A case whose calls of one kind are let fail, one in each run.
//!
//! However a call fails, the run ends there: with the status of that fault, with a beginning of the case's report, with the
//! stores that were made before, and without a call of any kind behind it. A failed read leaves no report at all, and where
//! a write moves one byte, there is one byte for each write before the one that failed.

use crate::cases::{Call, Case, Numbered};
use crate::differences::What;
use crate::findings::Findings;
use crate::runs::{Outcome, Setting, run_case, shelf_after};
use anyhow::Result;
use magex_top::Status;
use std::alloc::{AllocError, Global};

/// Lets each call of a kind fail that the run of the case made.
pub fn sweep(
    findings: &mut Findings,
    setting: Setting<'_>,
    case: &Case,
    call: Call,
    calm: &Outcome,
) -> Result<()> {
    let calls = calm.calls(call);
    if calls == 0 {
        findings.add(What::NothingSwept(call))?;
    }
    for before in 0..calls {
        let number = before.saturating_add(1);
        check_failing(findings, setting, case, Numbered { call, number })?;
    }
    Ok(())
}

/// Runs the case with one more call failing.
fn check_failing(
    findings: &mut Findings,
    setting: Setting<'_>,
    case: &Case,
    failing: Numbered,
) -> Result<()> {
    findings.swept = Some(failing);
    let outcome = run_case(findings.alloc, setting, case, &[failing])?;
    findings.check_status(outcome.status, status_of(failing.call).code())?;
    findings.check_calls(&outcome, failing)?;
    check_end(findings, setting, case, failing, &outcome)?;
    check_report(findings, case, failing, &outcome)?;
    let stores = stores_before(failing, &outcome);
    let wanted = shelf_after(findings.alloc, setting, case, stores)?;
    let lost = lost_by(findings.alloc, case, failing)?;
    findings.check_shelf(&outcome, &wanted, &lost)?;
    findings.swept = None;
    Ok(())
}

/// No call of another kind is to follow the one that failed. It is enough to ask this of the last one of each kind.
fn check_end(
    findings: &mut Findings,
    setting: Setting<'_>,
    case: &Case,
    failing: Numbered,
    outcome: &Outcome,
) -> Result<()> {
    for call in [Call::Read, Call::Write, Call::Fetch, Call::Store] {
        let number = outcome.calls(call);
        if call != failing.call && number != 0 {
            check_before(findings, setting, case, Numbered { call, number }, failing)?;
        }
    }
    Ok(())
}

/// A call is to be made before the one that failed: where it fails too, the other is not reached.
fn check_before(
    findings: &mut Findings,
    setting: Setting<'_>,
    case: &Case,
    last: Numbered,
    failing: Numbered,
) -> Result<()> {
    let outcome = run_case(findings.alloc, setting, case, &[last, failing])?;
    if outcome.calls(failing.call) >= failing.number {
        findings.add(What::CallAfter(last))?;
    }
    Ok(())
}

/// The status of a run in which a call of this kind failed.
fn status_of(call: Call) -> Status {
    match call {
        Call::Read | Call::Fetch => Status::ReadFault,
        Call::Write | Call::Store => Status::WriteFault,
    }
}

/// The report is to be the beginning that was written before the call failed.
fn check_report(
    findings: &mut Findings,
    case: &Case,
    failing: Numbered,
    outcome: &Outcome,
) -> Result<(), AllocError> {
    findings.check_beginning(&outcome.report, &case.report)?;
    match failing.call {
        Call::Read => findings.check_report(&outcome.report, b""),
        Call::Write if case.piece == 1 => {
            let before = failing.number.saturating_sub(1);
            findings.check_report(&outcome.report, first_bytes(&case.report, before))
        }
        Call::Write | Call::Fetch | Call::Store => Ok(()),
    }
}

/// The first bytes of a text.
fn first_bytes(text: &[u8], count: u64) -> &[u8] {
    let count = usize::try_from(count).unwrap_or(usize::MAX);
    text.get(..count).unwrap_or(text)
}

/// How many stores were made whole.
fn stores_before(failing: Numbered, outcome: &Outcome) -> u64 {
    match failing.call {
        Call::Store => failing.number.saturating_sub(1),
        Call::Read | Call::Write | Call::Fetch => outcome.calls(Call::Store),
    }
}

/// The name whose store failed, if one did.
fn lost_by(alloc: Global, case: &Case, failing: Numbered) -> Result<Vec<Vec<u8>>, AllocError> {
    let mut lost = Vec::new(alloc);
    if failing.call == Call::Store {
        let place = usize::try_from(failing.number.saturating_sub(1)).unwrap_or(usize::MAX);
        if let Some(file) = case.stored.get(place) {
            lost.push(Vec::from_slice(alloc, &file.name)?)?;
        }
    }
    Ok(lost)
}
