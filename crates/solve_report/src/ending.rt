//! How a report ends, and why there is none.

ghost use Rattle.std.specs.Prelude.{◌≡◌};
ghost use Rattle.solve_report.specs.Report.{ending_of};

use conflict_solver::{SolveFault, Verdict};
use probe_io::Failed;
use std::alloc::AllocError;
use thiserror::Error;

/// How a search that was reported whole came to its end.
#[derive(Clone, Copy, Debug, PartialEq, Eq)]
pub enum Ending {
    /// The formula is solved or refuted.
    Decided,
    /// The budget was spent.
    Undecided,
}

/// Why a report is not whole.
#[derive(Clone, Copy, Debug, PartialEq, Eq, Error)]
pub enum ReportFault {
    /// A write failed: the count of faults of the sink of text rose. A prefix of a report was written.
    #[error("the report could not be written")]
    Write,
    /// No memory was found. The lines of the report so far were written, or nothing.
    #[error("out of memory")]
    NoMemory,
}

impl From<AllocError> for ReportFault {
    ghost use Rattle.std.specs.Prelude.{◌≡◌};
    ghost use Rattle.solve_report.specs.declared.ending.ReportFault.TheVariants.{NoMemory};

    ghost from_gives = { λ _ fault. fault ≡ NoMemory };

    fn from(_: AllocError) -> ReportFault {
        ReportFault::NoMemory
    }
}

impl From<Failed> for ReportFault {
    ghost use Rattle.std.specs.Prelude.{◌≡◌};
    ghost use Rattle.solve_report.specs.declared.ending.ReportFault.TheVariants.{Write};

    ghost from_gives = { λ _ fault. fault ≡ Write };

    fn from(_: Failed) -> ReportFault {
        ReportFault::Write
    }
}

impl From<SolveFault> for ReportFault {
    ghost use Rattle.std.specs.Prelude.{◌≡◌};
    ghost use Rattle.solve_report.specs.Faults.{fault_of};

    ghost from_gives = { λ why fault. fault ≡ fault_of why };

    fn from(why: SolveFault) -> ReportFault {
        match why {
            SolveFault::Sink => ReportFault::Write,
            SolveFault::NoMemory => ReportFault::NoMemory,
        }
    }
}

/// How a search with this verdict ends.
pub(crate) fn ending_with(verdict: &Verdict) -> Ending
    ensures { result ≡ ending_of verdict.now }
{
    match verdict {
        Verdict::Values(_) | Verdict::Refuted => Ending::Decided,
        Verdict::Undecided => Ending::Undecided,
    }
}
