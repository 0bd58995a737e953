//! Why a layout is refused.

use std::alloc::AllocError;

/// Why a layout's nets are not given.
#[derive(Clone, Copy, Debug, PartialEq, Eq)]
pub enum TraceRefusal {
    /// There are over 8,192 nets before any are joined.
    TooManyNets,
    /// No memory was found. This says nothing of the layout.
    NoMemory,
}

impl From<AllocError> for TraceRefusal {
    ghost use Rattle.std.specs.Prelude.{◌≡◌};
    ghost use Rattle.net_trace.specs.declared.refusal.TraceRefusal.TheVariants.{NoMemory};

    ghost from_gives = { λ _ fault. fault ≡ NoMemory };

    fn from(_: AllocError) -> TraceRefusal {
        TraceRefusal::NoMemory
    }
}
