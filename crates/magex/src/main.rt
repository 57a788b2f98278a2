//! `magex`: runs the script on standard input over the files of the current folder, and reports on standard output.
#![tactic(auto)]

ghost use Rattle.std.specs.Prelude.{◌≡◌, ◌<◌};

use magex_top::{Status, run};
use outside_io::{FolderShelf, ReaderSource, WriterSink, write_all};
use std::marker::Brand;
use std::process::ExitCode;
use std::sync::ledger::{Blank, Ledger};
use std::{env, io};
use step_count::Steps;

/// The exit status where the words of the command line could not be had.
const NO_WORDS: u8 = 7;

fn main(rt: HostRuntime) -> ExitCode {
    let (code, trouble) = match words_of(&rt) {
        Ok(words) => {
            let status = run_here::<Brand>(&rt, Blank::new(1), words.as_slice());
            (status.code(), trouble_of(status))
        }
        Err(_) => (
            NO_WORDS,
            "magex: the words of the command line could not be had\n",
        ),
    };
    // A script's author sees a number alone where standard error fails too.
    let _ = write_all(&mut WriterSink::new(rt.stderr()), trouble.as_bytes());
    ExitCode::from(code)
}

// What is said on standard error of a run that did not come to its end.
fn trouble_of(status: Status) -> &'static str {
    match status {
        Status::Done | Status::Told | Status::Usage => "",
        Status::ReadFault => "magex: the script, or a file that it asks for, could not be read\n",
        Status::WriteFault => "magex: the report, or a file, could not be written\n",
        Status::Memory => "magex: there was not enough memory\n",
        Status::ScriptTooLong => "magex: the script has more than 16 MiB\n",
    }
}

// The words after the program's name.
fn words_of(rt: &HostRuntime) -> io::Result<Vec<String>> {
    let mut words = Vec::new(rt.alloc());
    for word in env::args(rt)?.skip(1) {
        words.push(word)?;
    }
    Ok(words)
}

// Runs standard input's script over the current folder.
fn run_here<L: Ledger>(rt: &HostRuntime, blank: Blank, words: &[String]) -> Status
    requires name { blank.name ≡ L.name }
    requires parts { blank.parts ≡ L.parts }
    requires some_part { 0 < blank.parts }
{
    let Ok(folder) = String::from_str(rt.alloc(), ".") else {
        return Status::Memory;
    };
    let mut script = ReaderSource::new(rt.stdin());
    let mut report = WriterSink::new(rt.stdout());
    let mut shelf = FolderShelf::new(rt.alloc(), rt, folder);
    let mut steps: Steps<L> = Steps::new(blank);
    run(
        rt.alloc(),
        words,
        &mut script,
        &mut report,
        &mut shelf,
        &mut steps,
    )
}
