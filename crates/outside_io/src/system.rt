//! A source, a sink and a shelf over the system. They tell no content: what a file or a terminal gives or takes, no
//! proof can know.
ghost use Rattle.std.specs.Prelude.{◌≡◌, ◌<◌, ◌≤◌, length, vec_len, IfOk};

use crate::calls::raised;
use crate::faults::{Failed, PutFault, ShelfFault};
use crate::limits::LONGEST_FILE;
use crate::outside::{Shelf, Sink, Source};
use crate::whole::{read_all, write_all};
use names_lists::Name;
use std::alloc::{AllocError, Global};
use std::fs;
use std::io::{Error, ErrorKind, Read, Write};
use std::rt::Files;

// What the name of a file ends in that is not whole yet.
const PART_ENDING: &str = ".part";

/// A source over a reader, as standard input or a file.
#[derive(Drop)]
pub struct ReaderSource<R> {
    reader: R,
    faults: u64,
}

impl<R: Read> ReaderSource<R> {
    /// A source over this reader, no call of which has failed yet.
    pub fn new(reader: R) -> ReaderSource<R>
        ensures { ⟦<ReaderSource<R> as Source>⟧.faults result ≡ 0 }
    {
        ReaderSource { reader, faults: 0 }
    }
}

impl<R: Read> Source for ReaderSource<R> {
    ghost use Rattle.std.specs.Prelude.{None};

    ghost left = { λ _. None };

    ghost faults = { λ source. source.faults };

    ghost plan = { λ _. None };

    fn read(&mut self, buf: &mut [u8]) -> Result<usize, Failed> {
        let answer = read_some(&mut self.reader, buf);
        if answer.is_err() {
            self.faults = raised(self.faults);
        }
        answer
    }
}

/// One read, tried again where a signal broke it off.
fn read_some<R: Read>(reader: &mut R, buf: &mut [u8]) -> Result<usize, Failed>
    ensures { IfOk result (λ count. count ≤ length buf.new) }
{
    for _ in 0..u64::MAX {
        match reader.read(buf) {
            Ok(count) => return Ok(count),
            Err(error) if error.kind() == ErrorKind::Interrupted => {}
            Err(_) => break,
        }
    }
    Err(Failed)
}

/// A sink over a writer that keeps nothing back, as standard output or a file.
#[derive(Drop)]
pub struct WriterSink<W> {
    writer: W,
    faults: u64,
}

impl<W: Write> WriterSink<W> {
    /// A sink over this writer, no call of which has failed yet.
    pub fn new(writer: W) -> WriterSink<W>
        ensures { ⟦<WriterSink<W> as Sink>⟧.faults result ≡ 0 }
    {
        WriterSink { writer, faults: 0 }
    }
}

impl<W: Write> Sink for WriterSink<W> {
    ghost use Rattle.std.specs.Prelude.{None};

    ghost written = { λ _. None };

    ghost faults = { λ sink. sink.faults };

    ghost plan = { λ _. None };

    fn write(&mut self, piece: &[u8]) -> Result<usize, PutFault> {
        let answer = write_some(&mut self.writer, piece);
        if answer == Err(PutFault::Failed) {
            self.faults = raised(self.faults);
        }
        answer
    }
}

/// One write, tried again where a signal broke it off. A writer that takes nothing of a piece has failed.
fn write_some<W: Write>(writer: &mut W, piece: &[u8]) -> Result<usize, PutFault>
    ensures within { IfOk result (λ count. count ≤ length piece.now) }
    ensures some { 0 < length piece.now → IfOk result (λ count. 0 < count) }
{
    for _ in 0..u64::MAX {
        match writer.write(piece) {
            Ok(0) if !piece.is_empty() => break,
            Ok(count) => return Ok(count),
            Err(error) => match error.kind() {
                ErrorKind::Interrupted => {}
                ErrorKind::OutOfMemory => return Err(PutFault::Memory),
                _ => break,
            },
        }
    }
    Err(PutFault::Failed)
}

/// A shelf over a folder: the files in it under their names.
#[derive(Drop)]
pub struct FolderShelf<R> {
    alloc: Global,
    files: R,
    folder: String,
    absences: u64,
    overlengths: u64,
    fetch_faults: u64,
    store_faults: u64,
}

impl<R: Files> FolderShelf<R> {
    /// A shelf over the folder of this path, no call of which has failed yet.
    pub fn new(alloc: Global, files: R, folder: String) -> FolderShelf<R>
        ensures no_fetch_faults { ⟦<FolderShelf<R> as Shelf>⟧.fetch_faults result ≡ 0 }
        ensures no_store_faults { ⟦<FolderShelf<R> as Shelf>⟧.store_faults result ≡ 0 }
    {
        FolderShelf {
            alloc,
            files,
            folder,
            absences: 0,
            overlengths: 0,
            fetch_faults: 0,
            store_faults: 0,
        }
    }
}

impl<R: Files> Shelf for FolderShelf<R> {
    ghost use Rattle.std.specs.Prelude.{None};

    ghost files = { λ _. None };

    ghost absences = { λ shelf. shelf.absences };

    ghost overlengths = { λ shelf. shelf.overlengths };

    ghost fetch_faults = { λ shelf. shelf.fetch_faults };

    ghost store_faults = { λ shelf. shelf.store_faults };

    ghost fetch_plan = { λ _. None };

    ghost store_plan = { λ _. None };

    fn fetch(&mut self, alloc: Global, name: &Name) -> Result<Vec<u8>, ShelfFault> {
        let answer = fetch_file(alloc, &self.files, self.folder.as_str(), name);
        match &answer {
            Err(ShelfFault::Absent) => self.absences = raised(self.absences),
            Err(ShelfFault::TooLong) => self.overlengths = raised(self.overlengths),
            Err(ShelfFault::Failed) => self.fetch_faults = raised(self.fetch_faults),
            Ok(_) | Err(ShelfFault::Memory) => {}
        }
        answer
    }

    fn store(&mut self, name: &Name, bytes: &[u8]) -> Result<(), PutFault> {
        let answer = store_file(self.alloc, &self.files, self.folder.as_str(), name, bytes);
        if answer == Err(PutFault::Failed) {
            self.store_faults = raised(self.store_faults);
        }
        answer
    }
}

/// Reads a file of a folder.
fn fetch_file<R: Files>(
    alloc: Global,
    files: &R,
    folder: &str,
    name: &Name,
) -> Result<Vec<u8>, ShelfFault>
    ensures { IfOk result (λ bytes. vec_len bytes ≤ LONGEST_FILE) }
{
    let Some(path) = path_of(alloc, folder, name)? else {
        return Err(ShelfFault::Failed);
    };
    match fs::open(files, path.as_str()) {
        Ok(file) => Ok(read_all(alloc, &mut ReaderSource::new(file), LONGEST_FILE)?),
        Err(error) => Err(fault_of_opening(&error)),
    }
}

/// Why a file could not be opened.
fn fault_of_opening(error: &Error) -> ShelfFault {
    match error.kind() {
        ErrorKind::NotFound => ShelfFault::Absent,
        ErrorKind::OutOfMemory => ShelfFault::Memory,
        _ => ShelfFault::Failed,
    }
}

/// Writes a file of a folder: into another file beside it, which then takes its place. So whoever looks finds the old file or the new one
/// whole, also where the run is killed, and a refusal leaves the old one.
fn store_file<R: Files>(
    alloc: Global,
    files: &R,
    folder: &str,
    name: &Name,
    bytes: &[u8],
) -> Result<(), PutFault> {
    let Some(path) = path_of(alloc, folder, name)? else {
        return Err(PutFault::Failed);
    };
    let mut part = String::from_str(alloc, path.as_str())?;
    part.push_str(PART_ENDING)?;
    let answer = write_and_rename(files, part.as_str(), path.as_str(), bytes);
    if answer.is_err() {
        // Where the system doesn't let it be taken away, it stays.
        let _ = fs::remove_file(files, part.as_str());
    }
    answer
}

/// Writes the part, closes it, and lets it take the place of the file of this path.
fn write_and_rename<R: Files>(
    files: &R,
    part: &str,
    path: &str,
    bytes: &[u8],
) -> Result<(), PutFault> {
    let Ok(file) = fs::create(files, part) else {
        return Err(PutFault::Failed);
    };
    write_all(&mut WriterSink::new(file), bytes)?;
    fs::rename(files, part, path).map_err(|_| PutFault::Failed)
}

/// The path of a name in a folder, or `None` where the name is no text.
fn path_of(alloc: Global, folder: &str, name: &Name) -> Result<Option<String>, AllocError> {
    let Ok(name) = str::from_utf8(name.bytes()) else {
        return Ok(None);
    };
    let mut path = String::from_str(alloc, folder)?;
    path.push('/')?;
    path.push_str(name)?;
    Ok(Some(path))
}
