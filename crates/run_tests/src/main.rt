//! Tries whole runs of the top call: each is a case of a text file, which says what a run over files in memory leaves.
//!
//! Each word after the program's name names a file of the folder where it runs. One that ends in `.cases` holds cases,
//! which are tried; any other lies on the shelf of each case of the files that are named after it. A line is written for
//! each thing that is not as its case says, and at the end how many cases were tried and how many differ. `CASES.md`,
//! beside the cases, says how they are written.
#![tactic(auto)]

mod bytes;
mod case_lines;
mod case_reader;
mod cases;
mod checks;
mod differences;
mod findings;
mod runs;
mod sweeps;

use anyhow::Result;
use case_reader::read_suite;
use cases::{Case, File, Suite};
use checks::differences_of;
use differences::{Difference, text_of};
use names_lists::Name;
use outside_io::{FolderShelf, Shelf};
use runs::Setting;
use std::env;

/// How many cases were tried, and how many of them differ from what they say.
#[derive(Clone, Copy)]
struct Total {
    tried: u64,
    differing: u64,
}

impl Total {
    const NONE: Total = Total {
        tried: 0,
        differing: 0,
    };

    /// These cases, and others.
    fn and(self, other: Total) -> Total {
        Total {
            tried: self.tried.saturating_add(other.tried),
            differing: self.differing.saturating_add(other.differing),
        }
    }
}

fn main(rt: HostRuntime) -> Result<()> {
    let mut folder = Vec::new(rt.alloc());
    let mut total = Total::NONE;
    for word in env::args(&rt)?.skip(1) {
        let file = fetched(&rt, word.as_str())?;
        if file.name.ends_with(b".cases") {
            let tried = try_file(&rt, &folder, &file)?;
            let place = file.name.escape_ascii();
            println!(rt;
                "{place}: {} cases, {} differ",
                tried.tried, tried.differing
            )?;
            total = total.and(tried);
        } else {
            folder.push(file)?;
        }
    }
    println!(rt; "{} cases, {} differ", total.tried, total.differing)?;
    Ok(())
}

/// A file of the folder where the program runs.
fn fetched(rt: &HostRuntime, name: &str) -> Result<File> {
    let folder = String::from_str(rt.alloc(), ".")?;
    let mut shelf = FolderShelf::new(rt.alloc(), rt, folder);
    let bytes = shelf.fetch(rt.alloc(), &Name::of(rt.alloc(), name.as_bytes())?)?;
    let name = Vec::from_slice(rt.alloc(), name.as_bytes())?;
    Ok(File { name, bytes })
}

/// Tries the cases of a file.
fn try_file(rt: &HostRuntime, folder: &[File], file: &File) -> Result<Total> {
    match read_suite(rt.alloc(), folder, &file.bytes) {
        Ok(suite) => try_suite(rt, folder, file, &suite),
        Err(at) => {
            let place = file.name.escape_ascii();
            println!(rt; "{place}: line {}: {}", at.line, at.fault)?;
            Ok(Total::NONE)
        }
    }
}

/// Tries the cases of a suite.
fn try_suite(rt: &HostRuntime, folder: &[File], file: &File, suite: &Suite) -> Result<Total> {
    let setting = Setting {
        folder,
        suite: &suite.shared,
    };
    let mut total = Total::NONE;
    for case in &suite.cases {
        let differences = differences_of(rt.alloc(), setting, case)?;
        for difference in &differences {
            tell(rt, file, case, difference)?;
        }
        total = total.and(Total {
            tried: 1,
            differing: u64::from(!differences.is_empty()),
        });
    }
    Ok(total)
}

/// Writes the line that tells of a difference.
fn tell(rt: &HostRuntime, file: &File, case: &Case, difference: &Difference) -> Result<()> {
    let text = text_of(rt.alloc(), difference)?;
    let place = file.name.escape_ascii();
    println!(rt; "{place}: {}: {text}", case.name.escape_ascii())?;
    Ok(())
}
