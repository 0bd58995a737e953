//! From a layer's refusal to the stop of a call.

ghost use Rattle.std.specs.Prelude.{◌≡◌, Option};
ghost use Rattle.command_base.specs.Carrying.{stop_for};

use crate::endings::Stop;

/// A layer's refusal, as it is carried to a refusal `R` of a call. Out of memory is carried to none.
pub trait Carry<R> {
    ghost carried: { Self → Option R };

    /// The refusal of the call, or `None` where the layer found no memory.
    fn carry(self) -> Option<R>
        ensures { result ≡ carried self };
}

/// The stop of a call that a layer's refusal ends.
pub fn stopped<R, L: Carry<R>>(refusal: L) -> Stop<R>
    ensures { result ≡ stop_for (L.carried refusal) }
{
    match refusal.carry() {
        Some(refusal) => Stop::Refused(refusal),
        None => Stop::NoMemory,
    }
}
