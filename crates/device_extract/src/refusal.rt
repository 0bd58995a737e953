//! Why a layout's transistors are refused.

use plane_geom::Point;
use std::alloc::AllocError;

/// Why a layout's transistors are not given.
#[derive(Clone, Copy, Debug, PartialEq, Eq)]
pub enum DeviceRefusal {
    /// This channel cell has no node of its gate wire.
    UngatedChannel(Point),
    /// The transistor with this least cell has no terminal.
    NoTerminal(Point),
    /// The transistor with this least cell has more than two terminals.
    ManyTerminals(Point),
    /// There are over 4,096 transistors.
    TooManyFets,
    /// No memory was found. This says nothing of the layout.
    NoMemory,
}

impl From<AllocError> for DeviceRefusal {
    ghost use Rattle.std.specs.Prelude.{◌≡◌};
    ghost use Rattle.device_extract.specs.declared.refusal.DeviceRefusal.TheVariants.{NoMemory};

    ghost from_gives = { λ _ fault. fault ≡ NoMemory };

    fn from(_: AllocError) -> DeviceRefusal {
        DeviceRefusal::NoMemory
    }
}
