//! Why a layout is refused.

use std::alloc::AllocError;

/// Why the bridges of a layout are not listed.
#[derive(Clone, Copy, Debug, PartialEq, Eq)]
pub enum SweepRefusal {
    /// More than 65,536 pairs of nets have a placement that meets both.
    TooManyBridges,
    /// No memory was found. This says nothing of the layout.
    NoMemory,
}

impl From<AllocError> for SweepRefusal {
    ghost use Rattle.std.specs.Prelude.{◌≡◌};
    ghost use Rattle.defect_sweep.specs.declared.refusal.SweepRefusal.TheVariants.{NoMemory};

    ghost from_gives = { λ _ fault. fault ≡ NoMemory };

    fn from(_: AllocError) -> SweepRefusal {
        SweepRefusal::NoMemory
    }
}
