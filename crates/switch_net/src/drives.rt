//! To which supplies a net has a path.

ghost use Rattle.std.specs.Prelude.{◌≡◌, ◌<◌, ◌&&◌, length, All, IfOk};
ghost use Rattle.std.specs.List.{list_any};
ghost use Rattle.switch_net.specs.Switches.{net_count, value};
ghost use Rattle.switch_net.specs.Conduction.{is_conducting, goes_high, goes_low, IsDriveOf};
ghost use Rattle.switch_net.specs.Refusals.{IsFetBelow};
ghost use Rattle.switch_net.specs.Spreads.{is_leading};

use crate::NetId;
use crate::fets::{Fet, conducts, value_of};
use crate::parts::Parts;
use crate::spreading::flood;
use std::alloc::{AllocError, Global};
use std::marker::Model;

/// To which supplies a net has a path.
#[derive(Clone, Copy, Debug, PartialEq, Eq)]
pub enum Drive {
    High,
    Low,
    Both,
    Neither,
}

/// What `Circuit::drive` needs for its search, so that it takes no memory itself. Contracts see for how many nets it is.
#[derive(Debug, Drop)]
pub struct Scratch {
    marks: Vec<bool>,
}

impl Model for Scratch {
    ghost use Rattle.std.specs.Prelude.{ℕ, length};

    ghost Value = { ℕ };

    ghost view = { λ s. length s.marks.items };
}

impl Scratch {
    /// A scratch for so many nets. It fails only where no memory is found.
    pub fn new(alloc: Global, nets: usize) -> Result<Scratch, AllocError>
        ensures { IfOk result (λ s. s ≡ nets) }
    {
        Ok(Scratch {
            marks: vec![in alloc; false; nets]?,
        })
    }
}

/// The drive of the net, where these are the parts of the circuit.
pub(crate) fn drive_of(parts: &Parts, net: NetId, values: &[bool], scratch: &mut Scratch) -> Drive
    requires net { net.0 < net_count parts.now }
    requires fets { All (IsFetBelow (net_count parts.now)) parts.now.fets }
    requires apart { parts.now.high ≡ parts.now.low → ⊥ }
    requires scratch { scratch.old ≡ net_count parts.now }
    ensures drive { IsDriveOf parts.now (value values.now) net.0 result }
    ensures scratch { scratch.new ≡ scratch.old }
{
    if net == parts.high {
        return Drive::High;
    }
    if net == parts.low {
        return Drive::Low;
    }
    flood(parts, net, values, &mut scratch.marks);
    let marks = scratch.marks.as_slice();
    drive_by(
        has_step(parts, values, marks, parts.high),
        has_step(parts, values, marks, parts.low),
    )
}

/// The drive of a net that has these paths.
fn drive_by(high: bool, low: bool) -> Drive
    ensures high { goes_high result ≡ high }
    ensures low { goes_low result ≡ low }
{
    match (high, low) {
        (true, false) => Drive::High,
        (false, true) => Drive::Low,
        (true, true) => Drive::Both,
        (false, false) => Drive::Neither,
    }
}

/// Whether a conducting transistor leads from a marked net to this one.
fn has_step(parts: &Parts, values: &[bool], marks: &[bool], net: NetId) -> bool
    ensures { result ≡ list_any (λ f. is_conducting (value values.now) f && is_leading marks.now net.0 f) parts.now.fets }
{
    parts
        .fets
        .iter()
        .any(|fet| conducts(fet, values) && is_leading(fet, marks, net))
}

/// Whether the transistor has a marked net and this one as its terminals.
fn is_leading(fet: &Fet, marks: &[bool], net: NetId) -> bool
    ensures { result ≡ is_leading marks.now net.0 fet.now }
{
    (fet.a == net && value_of(marks, fet.b)) || (fet.b == net && value_of(marks, fet.a))
}
