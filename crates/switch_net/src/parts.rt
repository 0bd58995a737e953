//! The parts of a circuit.

ghost use Rattle.std.specs.Prelude.{◌≡◌};
ghost use Rattle.switch_net.specs.Switches.{is_supply};

use crate::NetId;
use crate::fets::Fet;
use std::marker::Model;

/// The parts of a circuit, of which nothing is known yet. Contracts see them as `Switches`.
#[derive(Debug, Drop)]
pub(crate) struct Parts {
    pub(crate) labelled: Vec<bool>,
    pub(crate) fets: Vec<Fet>,
    pub(crate) high: NetId,
    pub(crate) low: NetId,
    pub(crate) asked: Vec<NetId>,
}

impl Model for Parts {
    ghost use Rattle.switch_net.specs.Switches.{Switches};

    ghost Value = { Switches };

    ghost view = { λ p. record { labelled = p.labelled.items; fets = p.fets.items; high = p.high.0; low = p.low.0; asked = p.asked.items } };
}

impl Parts {
    /// Whether the net is a supply.
    pub(crate) fn is_supply(&self, net: NetId) -> bool
        ensures { result ≡ is_supply self.now net.0 }
    {
        net == self.high || net == self.low
    }
}
