//! What the system does under the adapters, which no clause says. The forms in memory are told by their clauses.

ghost use Rattle.std.specs.Prelude.{◌≤◌, IfOk};

use names_lists::Name;
use outside_io::{
    Failed, FolderShelf, LONGEST_FILE, PutFault, ReaderSource, Shelf, ShelfFault, Sink, Source,
    WriterSink,
};
use std::alloc::Global;
use std::io::{ErrorKind, Read, Write};
use std::test::Fail;
use std::{fs, io};

/// One call of a shelf, and what it is to answer.
enum Step {
    Store(&'static [u8], &'static [u8], Result<(), PutFault>),
    Fetch(&'static [u8], Result<&'static [u8], ShelfFault>),
}

const STEPS: &[Step] = &[
    Step::Store(b"inv.mag", b"magic", Ok(())),
    Step::Fetch(b"inv.mag", Ok(b"magic")),
    Step::Store(b"nor.mag", b"tech scmos", Ok(())),
    Step::Store(b"inv.mag", b"", Ok(())),
    Step::Fetch(b"inv.mag", Ok(b"")),
    Step::Fetch(b"nor.mag", Ok(b"tech scmos")),
    Step::Fetch(b"nand.mag", Err(ShelfFault::Absent)),
    Step::Store(b"no_folder/inv.mag", b"magic", Err(PutFault::Failed)),
    // No file takes the place of a folder, and none is left beside it.
    Step::Store(b"cells", b"magic", Err(PutFault::Failed)),
    Step::Fetch(b"cells.part", Err(ShelfFault::Absent)),
    // Where there is no room for the new file beside it, the old one is left.
    Step::Store(b"full.mag", b"magic", Err(PutFault::Failed)),
    Step::Fetch(b"full.mag", Ok(b"old")),
    // A folder is no file, and a name that is no text has no path.
    Step::Fetch(b"cells", Err(ShelfFault::Failed)),
    Step::Fetch(b"\xff", Err(ShelfFault::Failed)),
];

fn is_same(found: Result<Vec<u8>, ShelfFault>, want: Result<&[u8], ShelfFault>) -> bool {
    match (found, want) {
        (Ok(found), Ok(want)) => found.as_slice() == want,
        (Err(found), Err(want)) => found == want,
        (Ok(_), Err(_)) | (Err(_), Ok(_)) => false,
    }
}

/// Whether the shelf answers as the step says.
fn is_answered<F: Shelf>(alloc: Global, shelf: &mut F, step: &Step) -> Result<bool, PutFault> {
    match step {
        Step::Store(name, bytes, want) => {
            let name = Name::of(alloc, name)?;
            Ok(shelf.store(&name, bytes) == *want)
        }
        Step::Fetch(name, want) => {
            let name = Name::of(alloc, name)?;
            Ok(is_same(shelf.fetch(alloc, &name), *want))
        }
    }
}

#[test]
fn a_folder_keeps_files_by_name(rt: HostRuntime) -> Result<(), Fail> {
    fs::create_dir_all(&rt, "out/shelf/cells")?;
    fs::write(&rt, "out/shelf/full.mag", b"old")?;
    fs::create_dir_all(&rt, "out/shelf/full.mag.part")?;
    // A run that was killed has left this.
    fs::write(&rt, "out/shelf/inv.mag.part", b"mag")?;
    let folder = String::from_str(rt.alloc(), "out/shelf")?;
    let mut shelf = FolderShelf::new(rt.alloc(), &rt, folder);
    for step in STEPS {
        assert!(rt; is_answered(rt.alloc(), &mut shelf, step)?);
    }
    // What was stored has taken its place, and no part of it stays.
    assert!(rt; fs::metadata(&rt, "out/shelf/inv.mag.part").is_err());
    Ok(())
}

/// How many bytes are stored, and whether they are fetched.
const LENGTHS: &[(usize, Result<(), ShelfFault>)] = &[
    (LONGEST_FILE, Ok(())),
    (LONGEST_FILE + 1, Err(ShelfFault::TooLong)),
    (0, Ok(())),
];

/// Whether so many bytes are stored, and fetched or refused as it is wanted.
fn is_kept<F: Shelf>(
    alloc: Global,
    shelf: &mut F,
    length: usize,
    want: Result<(), ShelfFault>,
) -> Result<bool, PutFault> {
    let name = Name::of(alloc, b"flat.ext")?;
    let bytes = vec![in alloc; b'x'; length]?;
    shelf.store(&name, &bytes)?;
    let want = want.map(|()| bytes.as_slice());
    Ok(is_same(shelf.fetch(alloc, &name), want))
}

#[test]
fn files_of_16_mebibytes_are_the_longest(rt: HostRuntime) -> Result<(), Fail> {
    fs::create_dir_all(&rt, "out/shelf")?;
    let folder = String::from_str(rt.alloc(), "out/shelf")?;
    let mut shelf = FolderShelf::new(rt.alloc(), &rt, folder);
    for (length, want) in LENGTHS {
        assert!(rt; is_kept(rt.alloc(), &mut shelf, *length, *want)?);
    }
    Ok(())
}

/// A device that answers each call with the next of these, and then with nothing.
#[derive(Drop)]
struct Device {
    answers: &'static [Answer],
}

#[derive(Clone, Copy)]
enum Answer {
    Count(usize),
    Kind(ErrorKind),
}

impl Device {
    fn next(&mut self, room: usize) -> io::Result<usize>
        ensures { IfOk result (λ count. count ≤ room) }
    {
        let Some((first, rest)) = self.answers.split_first() else {
            return Ok(0);
        };
        self.answers = rest;
        match *first {
            Answer::Count(count) => Ok(count.min(room)),
            Answer::Kind(kind) => Err(io::Error::from(kind)),
        }
    }
}

impl Read for Device {
    fn read(&mut self, buf: &mut [u8]) -> io::Result<usize> {
        self.next(buf.len())
    }
}

impl Write for Device {
    fn write(&mut self, buf: &[u8]) -> io::Result<usize> {
        self.next(buf.len())
    }

    fn flush(&mut self) -> io::Result<()> {
        Ok(())
    }
}

/// What a device that is read answers, and what the reads of a buffer of eight bytes do.
const INPUT: &[Answer] = &[
    Answer::Kind(ErrorKind::Interrupted),
    Answer::Count(3),
    Answer::Kind(ErrorKind::TimedOut),
];

const READS: &[Result<usize, Failed>] = &[Ok(3), Err(Failed), Ok(0)];

#[test]
fn an_interrupted_read_is_tried_again(rt: HostRuntime) -> Result<(), Fail> {
    let mut input = ReaderSource::new(Device { answers: INPUT });
    let mut buf = [0u8; 8];
    for want in READS {
        assert_eq!(rt; input.read(&mut buf), *want);
    }
    Ok(())
}

/// What a device that is written to answers, and what the writes of five bytes do.
const OUTPUT: &[Answer] = &[
    Answer::Kind(ErrorKind::Interrupted),
    Answer::Count(3),
    Answer::Count(0),
    Answer::Kind(ErrorKind::OutOfMemory),
    Answer::Kind(ErrorKind::BrokenPipe),
];

const WRITES: &[Result<usize, PutFault>] = &[
    Ok(3),
    Err(PutFault::Failed),
    Err(PutFault::Memory),
    Err(PutFault::Failed),
];

#[test]
fn a_writer_that_takes_nothing_has_failed(rt: HostRuntime) -> Result<(), Fail> {
    let mut output = WriterSink::new(Device { answers: OUTPUT });
    for want in WRITES {
        assert_eq!(rt; output.write(b"abcde"), *want);
    }
    Ok(())
}
