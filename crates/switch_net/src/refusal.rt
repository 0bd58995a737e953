//! Why a circuit is refused.

use crate::NetId;
use std::alloc::AllocError;

/// Why a circuit is refused: the first of these that holds.
#[derive(Clone, Copy, Debug, PartialEq, Eq)]
pub enum CircuitRefusal {
    /// This net gates a transistor and is no supply, no terminal and not labelled. It is the least such net.
    FloatingGate(NetId),
    /// There are more than 256 inputs.
    TooManyInputs,
    /// The net at this index, the first such one, of those that the user asked for is a supply or no terminal.
    NotTerminal(u32),
    /// No memory was found. This says nothing of the circuit.
    NoMemory,
}

impl From<AllocError> for CircuitRefusal {
    ghost use Rattle.std.specs.Prelude.{◌≡◌};
    ghost use Rattle.switch_net.specs.declared.refusal.CircuitRefusal.TheVariants.{NoMemory};

    ghost from_gives = { λ _ fault. fault ≡ NoMemory };

    fn from(_: AllocError) -> CircuitRefusal {
        CircuitRefusal::NoMemory
    }
}
