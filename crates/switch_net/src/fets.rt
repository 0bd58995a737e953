//! Transistors, and where they conduct.

ghost use Rattle.std.specs.Prelude.{◌≡◌};
ghost use Rattle.switch_net.specs.Switches.{value, is_terminal};
ghost use Rattle.switch_net.specs.Conduction.{is_on, is_conducting};

use crate::{Kind, NetId};

/// A transistor: a switch between its terminals `a` and `b`, which may be one net.
#[derive(Clone, Copy, Debug, PartialEq, Eq)]
pub struct Fet {
    pub kind: Kind,
    pub gate: NetId,
    pub a: NetId,
    pub b: NetId,
}

/// Whether the transistor conducts, where the nets have these values. A net past the end of the list has the value 0.
pub fn conducts(fet: &Fet, values: &[bool]) -> bool
    ensures { result ≡ is_conducting (value values.now) fet.now }
{
    is_on(fet.kind, value_of(values, fet.gate))
}

/// Whether a transistor of the kind conducts under this value of its gate.
fn is_on(kind: Kind, gate: bool) -> bool
    ensures { result ≡ is_on kind gate }
{
    match kind {
        Kind::N => gate,
        Kind::P => !gate,
    }
}

/// The value of the net, which is 0 past the end of the list.
pub(crate) fn value_of(values: &[bool], net: NetId) -> bool
    ensures { result ≡ value values.now net.0 }
{
    match values.get(net.0 as usize) {
        Some(bit) => *bit,
        None => false,
    }
}
