//! Which parts a circuit may be made of.

ghost use Rattle.std.specs.Prelude.{◌≡◌, ◌<◌, ◌≤◌, ◌↔◌, IsTrue, All, true, length};
ghost use Rattle.switch_net.specs.Switches.{switches, value};
ghost use Rattle.switch_net.specs.Refusals.{IsFetBelow, AreParts};

use crate::NetId;
use crate::fets::{Fet, value_of};

/// The most nets of a circuit.
const MOST_NETS: usize = 8192;

/// The most transistors of a circuit. There are fewer nets that the user asked for.
const MOST_FETS: usize = 4096;

/// Whether `Circuit::new` takes these parts, by the definition `AreParts`.
pub fn are_parts(labelled: &[bool], fets: &[Fet], high: NetId, low: NetId, asked: &[NetId]) -> bool
    ensures { IsTrue result ↔ AreParts (switches labelled.now fets.now high.0 low.0 asked.now) }
{
    let nets = labelled.len();
    nets <= MOST_NETS
        && fets.len() <= MOST_FETS
        && asked.len() < MOST_FETS
        && are_fets_below(nets, fets)
        && are_nets_below(nets, asked)
        && high != low
        && is_labelled(labelled, high)
        && is_labelled(labelled, low)
}

/// Whether the net is in range and labelled.
fn is_labelled(labelled: &[bool], net: NetId) -> bool
    ensures { IsTrue result ↔ ((net.0 < length labelled.now) × (value labelled.now net.0 ≡ true)) }
{
    (net.0 as usize) < labelled.len() && value_of(labelled, net)
}

fn are_nets_below(nets: usize, list: &[NetId]) -> bool
    ensures { IsTrue result ↔ All (λ m. m.0 < nets) list.now }
{
    list.iter().all(|net| (net.0 as usize) < nets)
}

fn are_fets_below(nets: usize, fets: &[Fet]) -> bool
    ensures { IsTrue result ↔ All (IsFetBelow nets) fets.now }
{
    fets.iter().all(|fet| is_fet_below(nets, fet))
}

/// Whether the nets of the transistor are below the number.
fn is_fet_below(nets: usize, fet: &Fet) -> bool
    ensures { IsTrue result ↔ IsFetBelow nets fet.now }
{
    (fet.gate.0 as usize) < nets && (fet.a.0 as usize) < nets && (fet.b.0 as usize) < nets
}
