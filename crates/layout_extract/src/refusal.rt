//! Why the nets of a layout are not named.

use cif_flatten::FlattenRefusal;
use net_trace::TraceRefusal;
use std::alloc::AllocError;

/// Why the nets of a layout are not named. Where several hold, the one that stands first here is given.
#[derive(Clone, Copy, Debug, PartialEq, Eq)]
pub enum LayoutRefusal {
    /// The file does not unfold.
    Flat(FlattenRefusal),
    /// There are over 8,192 pieces before any are joined by names.
    TooManyNets,
    /// The nodes of a label's wire round its point lie in two or more pieces. The least position of such a label, as the
    /// number of bytes before its command's first byte.
    LabelAmbiguous(u64),
    /// No memory was found, at any step. This says nothing of the layout.
    NoMemory,
}

impl From<AllocError> for LayoutRefusal {
    ghost use Rattle.std.specs.Prelude.{◌≡◌};
    ghost use Rattle.layout_extract.specs.declared.refusal.LayoutRefusal.TheVariants.{NoMemory};

    ghost from_gives = { λ _ fault. fault ≡ NoMemory };

    fn from(_: AllocError) -> LayoutRefusal {
        LayoutRefusal::NoMemory
    }
}

impl From<TraceRefusal> for LayoutRefusal {
    ghost use Rattle.std.specs.Prelude.{◌≡◌};
    ghost use Rattle.layout_extract.specs.Refusals.{of_trace};

    ghost from_gives = { λ refusal result. result ≡ of_trace refusal };

    fn from(refusal: TraceRefusal) -> LayoutRefusal {
        match refusal {
            TraceRefusal::TooManyNets => LayoutRefusal::TooManyNets,
            TraceRefusal::NoMemory => LayoutRefusal::NoMemory,
        }
    }
}

impl From<FlattenRefusal> for LayoutRefusal {
    ghost use Rattle.std.specs.Prelude.{◌≡◌};
    ghost use Rattle.layout_extract.specs.Refusals.{of_flatten};

    ghost from_gives = { λ refusal result. result ≡ of_flatten refusal };

    fn from(refusal: FlattenRefusal) -> LayoutRefusal {
        match refusal {
            FlattenRefusal::NoMemory => LayoutRefusal::NoMemory,
            other => LayoutRefusal::Flat(other),
        }
    }
}
