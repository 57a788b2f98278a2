//! A case: a run over files in memory, and what it is to leave.

use std::alloc::{AllocError, Global};

/// A file: its name and its bytes.
#[derive(Drop)]
pub struct File {
    pub name: Vec<u8>,
    pub bytes: Vec<u8>,
}

/// A kind of call that a run makes outside.
#[derive(Clone, Copy, Debug, PartialEq, Eq)]
pub enum Call {
    Read,
    Write,
    Fetch,
    Store,
}

/// A kind of call, and a number: that of a call of this kind, the first being 1, or how many such calls there are.
#[derive(Clone, Copy)]
pub struct Numbered {
    pub call: Call,
    pub number: u64,
}

/// A run, and what it is to leave.
#[derive(Drop)]
pub struct Case {
    pub name: Vec<u8>,
    /// The words after the program's name.
    pub words: Vec<String>,
    pub script: Vec<u8>,
    /// The files that lie on the shelf beside those of every case. One of the same name takes the other's place.
    pub files: Vec<File>,
    /// The calls that fail.
    pub failing: Vec<Numbered>,
    /// How many bytes a read or a write moves at most.
    pub piece: usize,
    /// The kinds of calls of which each is tried to fail.
    pub sweeps: Vec<Call>,
    pub status: u8,
    pub report: Vec<u8>,
    /// The stores that are made, in their order.
    pub stored: Vec<File>,
    /// The names whose store fails. What such a file holds is not known.
    pub lost: Vec<Vec<u8>>,
    /// How many calls there are of a kind.
    pub counts: Vec<Numbered>,
}

impl Case {
    /// A run of no lines over no files of its own, which leaves nothing.
    pub fn new(alloc: Global, name: &[u8]) -> Result<Case, AllocError> {
        Ok(Case {
            name: Vec::from_slice(alloc, name)?,
            words: Vec::new(alloc),
            script: Vec::new(alloc),
            files: Vec::new(alloc),
            failing: Vec::new(alloc),
            piece: usize::MAX,
            sweeps: Vec::new(alloc),
            status: 0,
            report: Vec::new(alloc),
            stored: Vec::new(alloc),
            lost: Vec::new(alloc),
            counts: Vec::new(alloc),
        })
    }
}

/// The cases of a file, and the files that lie on the shelf of each of them.
#[derive(Drop)]
pub struct Suite {
    pub shared: Vec<File>,
    pub cases: Vec<Case>,
}

/// Whether two names or texts have the same bytes.
pub fn are_same(one: &[u8], other: &[u8]) -> bool {
    one == other
}

/// The file of that name, the last one where there are several.
pub fn file_of<'a>(files: &'a [File], name: &[u8]) -> Option<&'a File> {
    files.iter().rev().find(|file| are_same(&file.name, name))
}
