//! Calls over devices in memory that fail as they are told to.

use carafe_core::{Status, carafe};
use probe_io::{MemShelf, MemSink, Name};
use std::alloc::{AllocError, Global};
use std::process::Abort;
use std::test::Fail;

/// The names of files, each with its text.
pub(crate) type Files<'a> = &'a [(&'a str, &'a str)];

/// Which calls of each device fail, and how many bytes a call moves.
#[derive(Clone, Copy)]
pub(crate) struct Faults<'a> {
    pub(crate) shelf: &'a [u64],
    pub(crate) out: &'a [u64],
    pub(crate) diag: &'a [u64],
    pub(crate) step: usize,
}

pub(crate) const NONE: Faults = Faults {
    shelf: &[],
    out: &[],
    diag: &[],
    step: 16,
};

/// The shelf fails at these calls.
pub(crate) fn at_shelf(calls: &[u64]) -> Faults<'_> {
    Faults {
        shelf: calls,
        ..NONE
    }
}

/// The report sink fails at these calls.
pub(crate) fn at_out(calls: &[u64]) -> Faults<'_> {
    Faults { out: calls, ..NONE }
}

/// How a call ended, and what stands on its sinks.
#[derive(Drop)]
pub(crate) struct Ending {
    pub(crate) status: Status,
    pub(crate) out: MemSink,
    pub(crate) diag: MemSink,
}

/// How a call without a report is to end.
#[derive(Clone, Copy)]
pub(crate) struct Answer<'a> {
    pub(crate) status: Status,
    pub(crate) exit: u8,
    pub(crate) diag: &'a str,
}

/// The words that stand in a text with single spaces.
pub(crate) fn names(alloc: Global, words: &str) -> Result<Vec<Name>, AllocError> {
    let mut names = Vec::new(alloc);
    for word in words.split(' ') {
        if !word.is_empty() {
            names.push(Name::new(alloc, word)?)?;
        }
    }
    Ok(names)
}

/// Files with these names and texts, for a shelf.
pub(crate) fn shelved(alloc: Global, files: Files) -> Result<Vec<(Name, Vec<u8>)>, AllocError> {
    let mut shelved = Vec::new(alloc);
    for (name, text) in files {
        shelved.push((
            Name::new(alloc, name)?,
            Vec::from_slice(alloc, text.as_bytes())?,
        ))?;
    }
    Ok(shelved)
}

/// Calls `carafe` with words that stand with single spaces, over files and devices that fail so.
pub(crate) fn call(
    alloc: Global,
    words: &str,
    files: Files,
    faults: &Faults,
) -> Result<Ending, AllocError> {
    let words = names(alloc, words)?;
    let step = faults.step.max(1);
    let files = shelved(alloc, files)?;
    let mut shelf = MemShelf::new(files, Vec::from_slice(alloc, faults.shelf)?, step);
    let mut out = MemSink::new(alloc, Vec::from_slice(alloc, faults.out)?, step);
    let mut diag = MemSink::new(alloc, Vec::from_slice(alloc, faults.diag)?, step);
    let status = carafe(alloc, words.as_slice(), &mut shelf, &mut out, &mut diag);
    Ok(Ending { status, out, diag })
}

/// Stops the test unless such a call ends so, with nothing on the report sink.
pub(crate) fn expect(
    rt: &impl Abort,
    alloc: Global,
    words: &str,
    files: Files,
    faults: &Faults,
    answer: Answer,
) -> Result<(), Fail> {
    let ending = call(alloc, words, files, faults)?;
    assert_eq!(rt; ending.status, answer.status, "{words}");
    assert_eq!(rt; ending.status.exit_number(), answer.exit, "{words}");
    assert_eq!(rt; ending.diag.bytes(), answer.diag.as_bytes(), "{words}");
    assert_eq!(rt; ending.out.bytes().len(), 0, "{words}");
    Ok(())
}
