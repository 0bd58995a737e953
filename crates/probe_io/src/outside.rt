// The two traits that a program reads and writes through, and the one error that they give.
ghost use Rattle.std.specs.Prelude.{◌≡◌, ℕ, ◌<◌, ◌≤◌, ◌⊎◌, ◌∷◌, List, length, take, Bool, true, Option, None, Some, Ok, IfSome, IfOk, OnOk, OnErr};
ghost use Rattle.std.specs.Io.KnownBytes.{ReadConsumes};
ghost use Rattle.probe_io.specs.Causes.{Rose, HasCause};
ghost use Rattle.probe_io.specs.Files.{File, Place, Lacks, left_at, moved_on};
ghost use Rattle.probe_io.specs.Written.{Appends};

/// A call of a device failed: a count of the device's faults rose, or it tells that it has no file of
/// the name that was to be started.
#[derive(Clone, Copy, Debug, PartialEq, Eq)]
pub struct Failed;

/// Named files, of which one at a time is started and read.
///
/// `files` are the files where the shelf tells them; they never change. `at` is the started file and
/// the place in it. `start_faults` and `read_faults` count failed calls and never fall. `strict` tells
/// whether the shelf passes every failure on: a call of a strict shelf that succeeds leaves both counts
/// as they were, and another shelf may count a failure, mend it and succeed.
pub trait Shelf {
    ghost strict: { Bool };

    ghost files: { Self → Option (List File) };

    ghost at: { Self → Option Place };

    ghost start_faults: { Self → ℕ };

    ghost read_faults: { Self → ℕ };

    /// Starts the file of this name at its first byte. After `Failed` nothing is started: the files
    /// are told and have no such name, which no count shows, or `start_faults` rose.
    fn start(&mut self, name: &str) -> Result<(), Failed>
        ensures started { OnOk result (IfSome (files self.old) (λ _. at self.new ≡ Some (name.now, 0))) }
        ensures closed { OnErr result (at self.new ≡ None) }

        ensures cause { OnErr result (Lacks (files self.old) name.now ⊎ Rose (start_faults self.old) (start_faults self.new)) }
        ensures absent { Lacks (files self.old) name.now → OnOk result ⊥ }
        ensures absent_quiet { Lacks (files self.old) name.now → start_faults self.new ≡ start_faults self.old }

        ensures later { start_faults self.old ≤ start_faults self.new }
        ensures quiet { strict ≡ true → OnOk result (start_faults self.new ≡ start_faults self.old) }
        ensures reads_kept { read_faults self.new ≡ read_faults self.old }
        ensures same { files self.new ≡ files self.old };

    /// Puts the next bytes of the started file at the front of `buf`, and gives their number: 0 only
    /// at the end of the file, with an empty `buf` or with nothing started. The rest of `buf` is
    /// left open. After `Failed` the place is where it was.
    fn read(&mut self, buf: &mut [u8]) -> Result<usize, Failed>
        ensures most { IfOk result (λ n. n ≤ length buf.new) }
        ensures bytes { ReadConsumes (left_at (files self.old) (at self.old)) (left_at (files self.new) (at self.new))
            result buf.new }
        ensures moved { IfOk result (λ n. at self.new ≡ moved_on (at self.old) n) }
        ensures stays { OnErr result (at self.new ≡ at self.old) }
        ensures idle { IfSome (files self.old) (λ _. at self.old ≡ None → result ≡ Ok 0) }

        ensures cause { HasCause strict (read_faults self.old) (read_faults self.new) result }
        ensures starts_kept { start_faults self.new ≡ start_faults self.old }
        ensures same { files self.new ≡ files self.old };

    /// Leaves the started file, if there is one.
    fn stop(&mut self)
        ensures closed { at self.new ≡ None }
        ensures starts_kept { start_faults self.new ≡ start_faults self.old }
        ensures reads_kept { read_faults self.new ≡ read_faults self.old }
        ensures same { files self.new ≡ files self.old };
}

/// What takes bytes.
///
/// `written` is all that was written, where the sink tells it. `faults` counts failed calls and never
/// falls. `strict` tells whether the sink passes every failure on: a call of a strict sink that succeeds
/// leaves the count as it was, and another sink may count a failure, mend it and succeed. `lender` names
/// the references that the sink is reached through, so that what was written through a borrowed sink is
/// known of the sink that was lent; no call changes it.
pub trait Sink {
    ghost strict: { Bool };

    ghost lender: { Self → List ℕ };

    ghost written: { Self → Option (List ℕ) };

    ghost faults: { Self → ℕ };

    /// Takes a front of `piece` and gives its length: 0 for an empty piece, and at least 1 for any
    /// other. After `Failed` nothing of the piece was written.
    fn write(&mut self, piece: &[u8]) -> Result<usize, Failed>
        ensures most { IfOk result (λ n. n ≤ length piece.now) }
        ensures some { IfOk result (λ n. 0 < length piece.now → 0 < n) }
        ensures empty { length piece.now ≡ 0 → OnErr result ⊥ }
        ensures taken { IfOk result (λ n. Appends (written self.old) (written self.new) (take n piece.now)) }
        ensures stays { OnErr result (written self.new ≡ written self.old) }

        ensures cause { HasCause strict (faults self.old) (faults self.new) result }
        ensures lender { lender self.new ≡ lender self.old };
}

/// A borrowed sink is that sink.
impl<K: Sink> Sink for &mut K {
    ghost strict = { K.strict };

    ghost lender = { λ s. s.ghost_name ∷ K.lender s.now };

    ghost written = { λ s. K.written s.now };

    ghost faults = { λ s. K.faults s.now };

    fn write(&mut self, piece: &[u8]) -> Result<usize, Failed> {
        Sink::write(&mut **self, piece)
    }
}
