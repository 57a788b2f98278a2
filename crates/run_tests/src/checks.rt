//! Whether a run is as its case says.

use crate::cases::{Call, Case, Numbered};
use crate::differences::Difference;
use crate::findings::Findings;
use crate::runs::{Setting, run_case, shelf_after};
use crate::sweeps::sweep;
use anyhow::Result;
use std::alloc::Global;

/// How many stores a case names, those that fail among them.
fn stores_of(case: &Case) -> Numbered {
    let made = case.stored.len() as u64;
    Numbered {
        call: Call::Store,
        number: made.saturating_add(case.lost.len() as u64),
    }
}

/// What is not as the case says. There is nothing where all is.
pub fn differences_of(alloc: Global, setting: Setting<'_>, case: &Case) -> Result<Vec<Difference>> {
    let mut findings = Findings {
        alloc,
        swept: None,
        differences: Vec::new(alloc),
    };
    let outcome = run_case(alloc, setting, case, &case.failing)?;
    findings.check_report(&outcome.report, &case.report)?;
    findings.check_status(outcome.status, case.status)?;
    findings.check_calls(&outcome, stores_of(case))?;
    for count in &case.counts {
        findings.check_calls(&outcome, *count)?;
    }
    let wanted = shelf_after(alloc, setting, case, u64::MAX)?;
    findings.check_shelf(&outcome, &wanted, &case.lost)?;
    for call in &case.sweeps {
        sweep(&mut findings, setting, case, *call, &outcome)?;
    }
    Ok(findings.differences)
}
