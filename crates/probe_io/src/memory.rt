// Devices in memory that fail at chosen calls.
ghost use Rattle.std.specs.Prelude.{◌≡◌, ◌≢◌, ℕ, ◌<◌, ◌≤◌, ◌⊎◌, ◌++◌, [], List, true, Some, None, Ok, map, min, length, take, IsTrue, IfOk, OnOk, OnErr};
ghost use Rattle.probe_io.specs.Causes.{Rose, HasCause, counted};
ghost use Rattle.std.specs.Io.KnownBytes.{ReadConsumes};
ghost use Rattle.probe_io.specs.Files.{file_of, left_in, moved_on};
ghost use Rattle.probe_io.specs.Memory.{told_file};
ghost use Rattle.probe_io.specs.Plan.{is_failing, after_call};

use crate::folder::Folder;
use crate::names::Name;
use crate::outside::{Failed, Shelf, Sink};
use crate::plan::FaultPlan;
use std::alloc::Global;
use std::marker::Model;

/// A shelf over files in memory, which tells them. Chosen calls fail.
#[derive(Debug, Drop)]
pub struct MemShelf {
    folder: Folder,
    plan: FaultPlan,
    start_faults: u64,
    read_faults: u64,
}

impl Model for MemShelf {
    ghost use Rattle.probe_io.specs.Memory.{MemShelfView};

    ghost Value = { MemShelfView };

    ghost view = { λ s. record {
      files = s.folder.files;
      at = s.folder.at;
      plan = s.plan;
      start_faults = s.start_faults;
      read_faults = s.read_faults;
    } };
}

impl MemShelf {
    /// A shelf of these files; of two with one name the first counts. The calls of `start` and
    /// `read` are numbered from 0, those in `fail_at` fail, and a read gives at most `step` bytes.
    pub fn new(files: Vec<(Name, Vec<u8>)>, fail_at: Vec<u64>, step: usize) -> MemShelf
        requires { 0 < step }
        ensures files { result.files ≡ map told_file files.items }
        ensures closed { result.at ≡ None }
        ensures plan { result.plan ≡ record { fail_at = fail_at.items; step = step; next = 0 } }
        ensures no_start_faults { result.start_faults ≡ 0 }
        ensures no_read_faults { result.read_faults ≡ 0 }
    {
        MemShelf {
            folder: Folder::new(files),
            plan: FaultPlan::new(fail_at, step),
            start_faults: 0,
            read_faults: 0,
        }
    }
}

impl Shelf for MemShelf {
    ghost strict = { true };

    ghost files = { λ s. Some s.files };

    ghost at = { λ s. s.at };

    ghost start_faults = { λ s. s.start_faults };

    ghost read_faults = { λ s. s.read_faults };

    /// Starts the file of this name, as `Shelf` says. It fails where there is none, which raises no
    /// count, and where the plan says so, which counts once.
    fn start(&mut self, name: &str) -> Result<(), Failed>
        ensures started { OnOk result (self.new.at ≡ Some (name.now, 0)) }
        ensures closed { OnErr result (self.new.at ≡ None) }

        ensures absent { file_of self.old.files name.now ≡ None → OnOk result ⊥ }
        ensures absent_quiet { file_of self.old.files name.now ≡ None → self.new.start_faults ≡ self.old.start_faults }
        ensures failing { IsTrue (is_failing self.old.plan) → OnOk result ⊥ }
        ensures cause { OnErr result ((file_of self.old.files name.now ≡ None)
            ⊎ (IsTrue (is_failing self.old.plan) × Rose self.old.start_faults self.new.start_faults)) }
        ensures once { file_of self.old.files name.now ≢ None → OnErr result (self.new.start_faults ≡ counted self.old.start_faults) }

        ensures counted { self.new.plan ≡ after_call self.old.plan }
        ensures later { self.old.start_faults ≤ self.new.start_faults }
        ensures quiet { OnOk result (self.new.start_faults ≡ self.old.start_faults) }
        ensures reads_kept { self.new.read_faults ≡ self.old.read_faults }
        ensures same { self.new.files ≡ self.old.files }
    {
        let is_failing = self.plan.is_failing_call();
        if !self.folder.start(name) {
            return Err(Failed);
        }
        if is_failing {
            self.folder.stop();
            self.start_faults = self.start_faults.saturating_add(1);
            return Err(Failed);
        }
        Ok(())
    }

    /// Reads on in the started file, as `Shelf` says: as many bytes as the plan's step, `buf` and the
    /// file allow. It fails where the plan says so and a file is started, which counts once.
    fn read(&mut self, buf: &mut [u8]) -> Result<usize, Failed>
        ensures count { IfOk result (λ n. n ≡ min self.old.plan.step (min (length buf.new) (length (left_in self.old.files self.old.at)))) }
        ensures bytes { ReadConsumes (Some (left_in self.old.files self.old.at)) (Some (left_in self.new.files self.new.at))
            result buf.new }
        ensures moved { IfOk result (λ n. self.new.at ≡ moved_on self.old.at n) }
        ensures stays { OnErr result (self.new.at ≡ self.old.at) }

        ensures failing { IsTrue (is_failing self.old.plan) → self.old.at ≢ None → OnOk result ⊥ }
        ensures idle { self.old.at ≡ None → result ≡ Ok 0 }
        ensures planned { OnErr result (IsTrue (is_failing self.old.plan)) }
        ensures cause { HasCause true self.old.read_faults self.new.read_faults result }
        ensures once { OnErr result (self.new.read_faults ≡ counted self.old.read_faults) }

        ensures counted { self.new.plan ≡ after_call self.old.plan }
        ensures starts_kept { self.new.start_faults ≡ self.old.start_faults }
        ensures same { self.new.files ≡ self.old.files }
    {
        let is_failing = self.plan.is_failing_call();
        if is_failing && self.folder.is_started() {
            self.read_faults = self.read_faults.saturating_add(1);
            return Err(Failed);
        }
        Ok(self.folder.read(buf, self.plan.step()))
    }

    /// Leaves the started file. It counts as no call of the plan.
    fn stop(&mut self)
        ensures { self.new ≡ record self.old { at = None } }
    {
        self.folder.stop();
    }
}

/// A sink into memory, which tells what was written. Chosen calls fail.
#[derive(Debug, Drop)]
pub struct MemSink {
    plan: FaultPlan,
    bytes: Vec<u8>,
    faults: u64,
}

impl Model for MemSink {
    ghost use Rattle.probe_io.specs.Memory.{MemSinkView};

    ghost Value = { MemSinkView };

    ghost view = { λ s. record { written = s.bytes.items; plan = s.plan; faults = s.faults } };
}

impl MemSink {
    /// An empty sink. The calls of `write` are numbered from 0, those in `fail_at` fail, and a write
    /// takes at most `step` bytes. Where no memory is found for them, it fails too.
    pub fn new(alloc: Global, fail_at: Vec<u64>, step: usize) -> MemSink
        requires { 0 < step }
        ensures written { result.written ≡ [] }
        ensures plan { result.plan ≡ record { fail_at = fail_at.items; step = step; next = 0 } }
        ensures no_faults { result.faults ≡ 0 }
    {
        MemSink {
            plan: FaultPlan::new(fail_at, step),
            bytes: Vec::new(alloc),
            faults: 0,
        }
    }

    /// All bytes that were written.
    pub fn bytes(&self) -> &[u8]
        ensures { result.now ≡ self.now.written }
    {
        self.bytes.as_slice()
    }

    // Counts a fault.
    fn fault(&mut self) -> Failed
        ensures counted { Rose self.old.faults self.new.faults }
        ensures once { self.new.faults ≡ counted self.old.faults }
        ensures later { self.old.faults ≤ self.new.faults }
        ensures plan { self.new.plan ≡ self.old.plan }
        ensures written { self.new.written ≡ self.old.written }
    {
        self.faults = self.faults.saturating_add(1);
        Failed
    }
}

impl Sink for MemSink {
    ghost strict = { true };

    ghost lender = { λ _. [] };

    ghost written = { λ s. Some s.written };

    ghost faults = { λ s. s.faults };

    /// Takes a front of `piece`, as `Sink` says: as many bytes as the plan's step allows. It fails
    /// where the plan says so and the piece is not empty, and where no memory is found. Each such call
    /// counts once.
    fn write(&mut self, piece: &[u8]) -> Result<usize, Failed>
        ensures count { IfOk result (λ n. n ≡ min self.old.plan.step (length piece.now)) }
        ensures some { IfOk result (λ n. 0 < length piece.now → 0 < n) }
        ensures taken { IfOk result (λ n. self.new.written ≡ self.old.written ++ take n piece.now) }
        ensures stays { OnErr result (self.new.written ≡ self.old.written) }

        ensures failing { IsTrue (is_failing self.old.plan) → 0 < length piece.now → OnOk result ⊥ }
        ensures empty { length piece.now ≡ 0 → OnErr result ⊥ }
        ensures cause { HasCause true self.old.faults self.new.faults result }
        ensures once { OnErr result (self.new.faults ≡ counted self.old.faults) }

        ensures counted { self.new.plan ≡ after_call self.old.plan }
    {
        let is_failing = self.plan.is_failing_call();
        if piece.is_empty() {
            return Ok(0);
        }
        if is_failing {
            return Err(self.fault());
        }
        let count = piece.len().min(self.plan.step());
        match self.bytes.extend_from_slice(&piece[..count]) {
            Ok(()) => Ok(count),
            Err(_) => Err(self.fault()),
        }
    }
}
