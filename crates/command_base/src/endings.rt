//! How a call ends.

ghost use Rattle.std.specs.Prelude.{◌≡◌};
ghost use Rattle.command_base.specs.Answers.{done_of, which_word};

/// A kind of file that words name.
#[derive(Debug, Clone, Copy, PartialEq, Eq)]
pub enum Which {
    /// The layer map.
    Map,
    /// The layout.
    Cif,
    /// The formula.
    Formula,
    /// A report that is judged.
    Report,
    /// A tester's log.
    Log,
    /// The equations that a cell is compared with.
    Equations,
}

/// A stream that is written to.
#[derive(Debug, Clone, Copy, PartialEq, Eq)]
pub enum Stream {
    /// The stream of the report.
    Out,
    /// The stream of the one line that says why there is no report.
    Diag,
}

/// How a whole report ends.
#[derive(Debug, Clone, Copy, PartialEq, Eq)]
pub enum Ending {
    /// It says all that was asked for.
    Whole,
    /// Some search came to its budget undecided.
    Undecided,
    /// It denies what was asked.
    No,
}

/// Why there is no whole report.
#[derive(Debug, Clone, Copy, PartialEq, Eq)]
pub enum Stop<R> {
    /// The input is refused.
    Refused(R),
    /// The file could not be started.
    OpenFault(Which),
    /// The file could not be read.
    ReadFault(Which),
    /// The report could not be written.
    WriteFault,
    /// Out of memory.
    NoMemory,
}

/// How a call ends, as `IsAnswer` defines each status, where a refusal is an `R`.
#[derive(Debug, Clone, Copy, PartialEq, Eq)]
pub enum AnyStatus<R> {
    /// The whole report was written.
    Done,
    /// The whole report was written, and some search came to its budget undecided.
    DoneUndecided,
    /// The whole report was written, and it denies what was asked.
    DoneNo,
    /// The input is refused.
    Refused(R),
    /// The file could not be started.
    OpenFault(Which),
    /// The file could not be read.
    ReadFault(Which),
    /// The stream could not be written.
    WriteFault(Stream),
    /// Out of memory.
    NoMemory,
}

impl Which {
    /// The word for a file of this kind in a line of diagnostics.
    pub(crate) fn word(self) -> &'static [u8]
        ensures { result.now ≡ which_word self }
    {
        match self {
            Which::Map => b"map",
            Which::Cif => b"cif",
            Which::Formula => b"formula",
            Which::Report => b"report",
            Which::Log => b"log",
            Which::Equations => b"equations",
        }
    }
}

impl Ending {
    /// The status of a report that ends so.
    pub(crate) fn status<R>(self) -> AnyStatus<R>
        ensures { result ≡ done_of self }
    {
        match self {
            Ending::Whole => AnyStatus::Done,
            Ending::Undecided => AnyStatus::DoneUndecided,
            Ending::No => AnyStatus::DoneNo,
        }
    }
}
