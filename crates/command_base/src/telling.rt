//! From the end of a call to its status, with its line of diagnostics.

ghost use Rattle.std.specs.Prelude.{◌≡◌, ℕ};
ghost use Rattle.probe_io.specs.Devices.{Puts, sink_at};
ghost use Rattle.command_base.specs.Answers.{Tells, exit_of, open_fault_line, read_fault_line, write_fault_line, no_memory_line};

use crate::endings::{AnyStatus, Ending, Stop, Stream, Which};
use probe_io::{Failed, Line, Piece, Sink, put_all, put_pieces};

/// A refusal that can be told: it has a line of diagnostics and an exit status.
pub trait Told: Line {
    ghost exit: { Self → ℕ };

    /// The exit status of the program.
    fn exit(&self) -> u8
        ensures { result ≡ exit self.now };
}

impl<R: Told> AnyStatus<R> {
    /// The exit status of the program.
    pub fn exit_number(&self) -> u8
        ensures { result ≡ exit_of R.exit self.now }
    {
        match self {
            AnyStatus::Done => 0,
            AnyStatus::DoneUndecided | AnyStatus::DoneNo => 1,
            AnyStatus::Refused(refusal) => refusal.exit(),
            AnyStatus::OpenFault(_) | AnyStatus::ReadFault(_) => 4,
            AnyStatus::WriteFault(_) => 5,
            AnyStatus::NoMemory => 6,
        }
    }
}

/// The status for this end of a call. Its line is written to `diag`: none for a whole report, and where that of a refusal
/// cannot be written whole the status is `WriteFault(Diag)`.
pub fn tell<R: Told + Copy, E: Sink>(end: Result<Ending, Stop<R>>, diag: &mut E) -> AnyStatus<R>
    ensures { Tells R.text end (sink_at E.Sink diag.old) (sink_at E.Sink diag.new) result }
{
    match end {
        Ok(ending) => ending.status(),
        Err(Stop::Refused(refusal)) => match refusal.put(diag) {
            Ok(()) => AnyStatus::Refused(refusal),
            Err(_) => AnyStatus::WriteFault(Stream::Diag),
        },
        Err(Stop::OpenFault(which)) => {
            let _ = put_open_fault(diag, which);
            AnyStatus::OpenFault(which)
        }
        Err(Stop::ReadFault(which)) => {
            let _ = put_read_fault(diag, which);
            AnyStatus::ReadFault(which)
        }
        Err(Stop::WriteFault) => {
            let _ = put_line(diag, b"carafe: WriteFault out\n");
            AnyStatus::WriteFault(Stream::Out)
        }
        Err(Stop::NoMemory) => {
            let _ = put_line(diag, b"carafe: NoMemory\n");
            AnyStatus::NoMemory
        }
    }
}

/// Writes the line of a file that could not be started.
fn put_open_fault<E: Sink>(diag: &mut E, which: Which) -> Result<(), Failed>
    ensures { Puts (open_fault_line which) (sink_at E.Sink diag.old) (sink_at E.Sink diag.new) result }
{
    put_pieces(
        diag,
        &[
            Piece::Text(b"carafe: OpenFault "),
            Piece::Text(which.word()),
            Piece::Text(b"\n"),
        ],
    )
}

/// Writes the line of a file that could not be read.
fn put_read_fault<E: Sink>(diag: &mut E, which: Which) -> Result<(), Failed>
    ensures { Puts (read_fault_line which) (sink_at E.Sink diag.old) (sink_at E.Sink diag.new) result }
{
    put_pieces(
        diag,
        &[
            Piece::Text(b"carafe: ReadFault "),
            Piece::Text(which.word()),
            Piece::Text(b"\n"),
        ],
    )
}

/// Writes a line that is one text.
fn put_line<E: Sink>(diag: &mut E, line: &[u8]) -> Result<(), Failed>
    ensures { Puts line.now (sink_at E.Sink diag.old) (sink_at E.Sink diag.new) result }
{
    put_all(diag, line)
}
