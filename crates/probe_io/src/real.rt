// The devices of the system. Nothing is known of what the system gives or takes: they tell no content.
ghost use Rattle.std.specs.Prelude.{◌≡◌, ◌<◌, ◌≤◌, [], true, None, Ok, length, IfSome, IsSomeAnd, IfOk, OnOk, OnErr};
ghost use Rattle.std.specs.Option.{IsSome};
ghost use Rattle.std.specs.Io.KnownBytes.{ReadConsumes, WriteAppends};
ghost use Rattle.probe_io.specs.Causes.{Rose, HasCause, counted};

use crate::outside::{Failed, Shelf, Sink};
use std::io::{ErrorKind, Read, Write};
use std::rt::Files;
use std::{fmt, fs};

/// The files of the system. It tells none of them, and counts each start and each read that fails.
#[derive(Drop)]
pub struct FileShelf<'a, R: Files> {
    rt: &'a R,
    file: Option<R::File>,
    start_faults: u64,
    read_faults: u64,
}

impl<'a, R: Files> FileShelf<'a, R> {
    /// The files that this runtime reaches, with nothing started.
    pub fn new(rt: &'a R) -> FileShelf<'a, R>
        ensures files { ⟦<FileShelf<'a, R> as Shelf>⟧.files result ≡ None }
        ensures closed { ⟦<FileShelf<'a, R> as Shelf>⟧.at result ≡ None }
        ensures no_start_faults { ⟦<FileShelf<'a, R> as Shelf>⟧.start_faults result ≡ 0 }
        ensures no_read_faults { ⟦<FileShelf<'a, R> as Shelf>⟧.read_faults result ≡ 0 }
    {
        FileShelf {
            rt,
            file: None,
            start_faults: 0,
            read_faults: 0,
        }
    }
}

impl<R: Files> fmt::Debug for FileShelf<'_, R> {
    fn fmt<W: fmt::Write>(&self, f: &mut fmt::Formatter<W>) -> fmt::Result {
        let start_faults = self.start_faults;
        let read_faults = self.read_faults;
        write!(
            f,
            "FileShelf {{ start_faults: {start_faults}, read_faults: {read_faults}, .. }}"
        )
    }
}

impl<'a, R: Files> Shelf for FileShelf<'a, R> {
    ghost strict = { true };

    ghost files = { λ _. None };

    ghost at = { λ _. None };

    ghost start_faults = { λ s. s.start_faults };

    ghost read_faults = { λ s. s.read_faults };

    /// Opens the file of this name, as `Shelf` says: a file is open exactly where that succeeds. That it
    /// fails counts once.
    fn start(&mut self, name: &str) -> Result<(), Failed>
        ensures opened { OnOk result (IsSome self.new.file) }
        ensures closed { OnErr result (self.new.file ≡ None) }
        ensures cause { OnErr result (Rose self.old.start_faults self.new.start_faults) }
        ensures once { OnErr result (self.new.start_faults ≡ counted self.old.start_faults) }
        ensures later { self.old.start_faults ≤ self.new.start_faults }
        ensures quiet { OnOk result (self.new.start_faults ≡ self.old.start_faults) }
        ensures reads_kept { self.new.read_faults ≡ self.old.read_faults }
    {
        self.file = None;
        match fs::open(self.rt, name) {
            Ok(file) => {
                self.file = Some(file);
                Ok(())
            }
            Err(_) => {
                self.start_faults = self.start_faults.saturating_add(1);
                Err(Failed)
            }
        }
    }

    /// Reads on in the opened file, as `Shelf` says: where that tells what is left of it, it gives a
    /// front of that. That it fails counts once.
    fn read(&mut self, buf: &mut [u8]) -> Result<usize, Failed>
        ensures most { IfOk result (λ n. n ≤ length buf.new) }
        ensures given { IfSome self.old.file (λ before. IsSomeAnd self.new.file (λ now.
            ReadConsumes (R.File.remaining before) (R.File.remaining now) result buf.new)) }
        ensures idle { self.old.file ≡ None → result ≡ Ok 0 }
        ensures cause { HasCause true self.old.read_faults self.new.read_faults result }
        ensures once { OnErr result (self.new.read_faults ≡ counted self.old.read_faults) }
        ensures starts_kept { self.new.start_faults ≡ self.old.start_faults }
    {
        let Some(file) = &mut self.file else {
            return Ok(0);
        };
        let outcome = read_some(file, buf);
        if outcome.is_err() {
            self.read_faults = self.read_faults.saturating_add(1);
        }
        outcome
    }

    /// Closes the opened file, if there is one.
    fn stop(&mut self)
        ensures closed { self.new.file ≡ None }
        ensures starts_kept { self.new.start_faults ≡ self.old.start_faults }
        ensures reads_kept { self.new.read_faults ≡ self.old.read_faults }
    {
        self.file = None;
    }
}

// One read, tried again as long as a signal interrupts it.
fn read_some<F: Read>(file: &mut F, buf: &mut [u8]) -> Result<usize, Failed>
    ensures most { IfOk result (λ n. n ≤ length buf.new) }
    ensures given { ReadConsumes (F.remaining file.old) (F.remaining file.new) result buf.new }
{
    for _ in 0..u64::MAX {
        match file.read(buf) {
            Ok(count) => return Ok(count),
            Err(error) if error.kind() == ErrorKind::Interrupted => {}
            Err(_) => return Err(Failed),
        }
    }
    Err(Failed)
}

/// A stream of the system, or any other writer. It tells nothing of what was written, and counts each
/// write that fails. That a writer takes none of some bytes is a failure.
#[derive(Debug, Drop)]
pub struct StreamSink<W: Write + Drop> {
    inner: W,
    faults: u64,
}

impl<W: Write + Drop> StreamSink<W> {
    /// A sink that writes to this writer.
    pub fn new(inner: W) -> StreamSink<W>
        ensures written { ⟦<StreamSink<W> as Sink>⟧.written result ≡ None }
        ensures no_faults { ⟦<StreamSink<W> as Sink>⟧.faults result ≡ 0 }
    {
        StreamSink { inner, faults: 0 }
    }
}

impl<W: Write + Drop> Sink for StreamSink<W> {
    ghost strict = { true };

    ghost lender = { λ _. [] };

    ghost written = { λ _. None };

    ghost faults = { λ s. s.faults };

    /// Writes to the writer, as `Sink` says: where that tells what it holds, it holds those bytes more.
    /// That it fails counts once.
    fn write(&mut self, piece: &[u8]) -> Result<usize, Failed>
        ensures held { WriteAppends (W.contents self.old.inner) (W.contents self.new.inner) result piece.now }
        ensures most { IfOk result (λ n. n ≤ length piece.now) }
        ensures some { IfOk result (λ n. 0 < length piece.now → 0 < n) }
        ensures empty { length piece.now ≡ 0 → OnErr result ⊥ }
        ensures cause { HasCause true self.old.faults self.new.faults result }
        ensures once { OnErr result (self.new.faults ≡ counted self.old.faults) }
    {
        if piece.is_empty() {
            return Ok(0);
        }
        let outcome = write_some(&mut self.inner, piece);
        if outcome.is_err() {
            self.faults = self.faults.saturating_add(1);
        }
        outcome
    }
}

// One write of at least one byte, tried again as long as a signal interrupts it.
fn write_some<W: Write>(writer: &mut W, piece: &[u8]) -> Result<usize, Failed>
    ensures some { IfOk result (λ n. 0 < n) }
    ensures most { IfOk result (λ n. n ≤ length piece.now) }
    ensures held { WriteAppends (W.contents writer.old) (W.contents writer.new) result piece.now }
{
    for _ in 0..u64::MAX {
        match writer.write(piece) {
            Ok(0) => return Err(Failed),
            Ok(count) => return Ok(count),
            Err(error) if error.kind() == ErrorKind::Interrupted => {}
            Err(_) => return Err(Failed),
        }
    }
    Err(Failed)
}
