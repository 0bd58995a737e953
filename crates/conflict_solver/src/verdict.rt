//! How a search ends.

use std::alloc::AllocError;
use thiserror::Error;

/// What a search finds of a formula, as `IsVerdict` defines each.
#[derive(Debug, Drop)]
pub enum Verdict {
    /// The formula is solved by these values: the variable n has the value at the place n - 1.
    Values(Vec<bool>),
    /// No values solve the formula: the empty clause was derived, as the last line and as no other.
    Refuted,
    /// As many lines as the budget allows were derived, none of them empty, and the search came to no end.
    Undecided,
}

/// Why a search gives no verdict.
#[derive(Clone, Copy, Debug, PartialEq, Eq, Error)]
pub enum SolveFault {
    /// A line could not be said: the sink's count of faults rose.
    #[error("a line of the proof could not be said")]
    Sink,
    /// No memory was found, by the search or by the sink.
    #[error("out of memory")]
    NoMemory,
}

impl From<AllocError> for SolveFault {
    ghost use Rattle.std.specs.Prelude.{◌≡◌};
    ghost use Rattle.conflict_solver.specs.declared.verdict.SolveFault.TheVariants.{NoMemory};

    ghost from_gives = { λ _ fault. fault ≡ NoMemory };

    fn from(_: AllocError) -> SolveFault {
        SolveFault::NoMemory
    }
}
