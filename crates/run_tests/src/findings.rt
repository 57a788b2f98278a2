//! What was found that is not as a case says.

use crate::cases::{Numbered, are_same};
use crate::differences::{Difference, What};
use crate::runs::Outcome;
use anyhow::Result;
use names_lists::Name;
use outside_io::FaultlessShelf;
use std::alloc::{AllocError, Global};

/// The differences between a run and its case that were found so far.
#[derive(Drop)]
pub struct Findings {
    pub alloc: Global,
    /// The call that fails beside those of the case.
    pub swept: Option<Numbered>,
    pub differences: Vec<Difference>,
}

impl Findings {
    /// One more difference.
    pub fn add(&mut self, what: What) -> Result<(), AllocError> {
        let swept = self.swept;
        self.differences.push(Difference { swept, what })?;
        Ok(())
    }

    /// The status is to be this one.
    pub fn check_status(&mut self, found: u8, wanted: u8) -> Result<(), AllocError> {
        if found != wanted {
            self.add(What::Status(found, wanted))?;
        }
        Ok(())
    }

    /// There are to be so many calls of a kind.
    pub fn check_calls(&mut self, outcome: &Outcome, wanted: Numbered) -> Result<(), AllocError> {
        let found = outcome.calls(wanted.call);
        if found != wanted.number {
            self.add(What::Calls(wanted.call, found, wanted.number))?;
        }
        Ok(())
    }

    /// The report is to be this one.
    pub fn check_report(&mut self, found: &[u8], wanted: &[u8]) -> Result<(), AllocError> {
        if !are_same(found, wanted) {
            let found = Vec::from_slice(self.alloc, found)?;
            let wanted = Vec::from_slice(self.alloc, wanted)?;
            self.add(What::Report(found, wanted))?;
        }
        Ok(())
    }

    /// The report is to be a beginning of this one.
    pub fn check_beginning(&mut self, found: &[u8], wanted: &[u8]) -> Result<(), AllocError> {
        if !wanted.starts_with(found) {
            let found = Vec::from_slice(self.alloc, found)?;
            let wanted = Vec::from_slice(self.alloc, wanted)?;
            self.add(What::ReportBeginning(found, wanted))?;
        }
        Ok(())
    }

    /// The shelf is to hold what this one holds, and no other file; but what the lost ones hold is not known.
    pub fn check_shelf(
        &mut self,
        outcome: &Outcome,
        wanted: &FaultlessShelf,
        lost: &[Vec<u8>],
    ) -> Result<()> {
        for name in &wanted.names(self.alloc)? {
            if !is_lost(lost, name) {
                self.check_file(name, outcome.shelf.file(name), wanted.file(name))?;
            }
        }
        for name in &outcome.shelf.names(self.alloc)? {
            if !is_lost(lost, name) && wanted.file(name).is_none() {
                let name = Vec::from_slice(self.alloc, name.bytes())?;
                self.add(What::NewFile(name))?;
            }
        }
        Ok(())
    }

    /// The file of that name is to have these bytes.
    fn check_file(
        &mut self,
        name: &Name,
        found: Option<&[u8]>,
        wanted: Option<&[u8]>,
    ) -> Result<(), AllocError> {
        let name = Vec::from_slice(self.alloc, name.bytes())?;
        match (found, wanted) {
            (Some(found), Some(wanted)) => {
                if !are_same(found, wanted) {
                    let found = Vec::from_slice(self.alloc, found)?;
                    let wanted = Vec::from_slice(self.alloc, wanted)?;
                    self.add(What::File(name, found, wanted))?;
                }
            }
            (None, Some(_)) => self.add(What::NoFile(name))?,
            (_, None) => {}
        }
        Ok(())
    }
}

fn is_lost(lost: &[Vec<u8>], name: &Name) -> bool {
    lost.iter().any(|other| are_same(other, name.bytes()))
}
