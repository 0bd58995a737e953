//! Circuits.

ghost use Rattle.std.specs.Prelude.{◌≡◌, ◌<◌, ◌≤◌, length, map, slice_get, Some, IfOk, IfErr};
ghost use Rattle.switch_net.specs.Switches.{switches, net_count, value, is_supply};
ghost use Rattle.switch_net.specs.Refusals.{AreParts, IsCircuit, IsRefusedAs};
ghost use Rattle.switch_net.specs.declared.fets.Fet.{Fet};
ghost use Rattle.switch_net.specs.Inputs.{inputs_of};
ghost use Rattle.switch_net.specs.Conduction.{is_conducting, IsDriveOf};

use crate::NetId;
use crate::checks::{first_bad, first_floating, inputs, uses_of};
use crate::drives::{Drive, Scratch, drive_of};
use crate::fets::{Fet, conducts};
use crate::parts::Parts;
use crate::refusal::CircuitRefusal;
use std::alloc::Global;
use std::marker::Model;

/// The most inputs of a circuit.
const MOST_INPUTS: usize = 256;

/// A circuit of switches: which of its nets are labelled, its transistors, its two supplies, and the nets that the user
/// asked for. Contracts see it as `Switches`. Each circuit keeps `IsCircuit`.
#[derive(Debug, Drop)]
pub struct Circuit {
    parts: Parts,
    inputs: Vec<NetId>,
}

impl Model for Circuit {
    ghost use Rattle.std.specs.Prelude.{◌≡◌, map};
    ghost use Rattle.switch_net.specs.Switches.{Switches};
    ghost use Rattle.switch_net.specs.Inputs.{inputs_of};
    ghost use Rattle.switch_net.specs.Refusals.{IsCircuit};

    ghost Value = { Switches };

    ghost view = { λ c. c.parts };

    ghost invariant = { λ c. IsCircuit c.parts × (map (λ n. n.0) c.inputs.items ≡ inputs_of c.parts) };
}

impl Circuit {
    /// The circuit of these parts. `labelled` has a bit for each net, and all nets are below its length, which is at most
    /// 8,192. The supplies differ and are labelled. There are at most 4,096 transistors and fewer than 4,096 entries in
    /// `asked`.
    ///
    /// It is refused exactly where the definition `IsRefusedAs` says: first for the least gate that is no supply, no
    /// terminal and not labelled, then for more than 256 inputs, and then for the first entry of `asked` that is a supply
    /// or no terminal. Running out of memory may come instead.
    pub fn new(
        alloc: Global,
        labelled: Vec<bool>,
        fets: Vec<Fet>,
        high: NetId,
        low: NetId,
        asked: Vec<NetId>,
    ) -> Result<Circuit, CircuitRefusal>
        requires { AreParts (switches labelled.items fets.items high.0 low.0 asked.items) }
        ensures made { IfOk result (λ c. c ≡ switches labelled.items fets.items high.0 low.0 asked.items) }
        ensures kept { IfOk result IsCircuit }
        ensures refused { IfErr result (IsRefusedAs (switches labelled.items fets.items high.0 low.0 asked.items)) }
    {
        let parts = Parts {
            labelled,
            fets,
            high,
            low,
            asked,
        };
        let uses = uses_of(alloc, &parts)?;
        if let Some(net) = first_floating(&parts, &uses) {
            return Err(CircuitRefusal::FloatingGate(net));
        }
        let inputs = inputs(alloc, &parts, &uses)?;
        if inputs.len() > MOST_INPUTS {
            return Err(CircuitRefusal::TooManyInputs);
        }
        if let Some(index) = first_bad(&parts, &uses) {
            return Err(CircuitRefusal::NotTerminal(index));
        }
        Ok(Circuit { parts, inputs })
    }

    /// For each net, whether it is labelled.
    pub fn labelled(&self) -> &[bool]
        ensures same { result.now ≡ self.now.labelled }
        ensures kept { IsCircuit self.now }
    {
        self.parts.labelled.as_slice()
    }

    /// The transistors.
    pub fn fets(&self) -> &[Fet]
        ensures same { result.now ≡ self.now.fets }
        ensures kept { IsCircuit self.now }
    {
        self.parts.fets.as_slice()
    }

    /// The high supply.
    pub fn high(&self) -> NetId
        ensures same { result.0 ≡ self.now.high }
        ensures kept { IsCircuit self.now }
    {
        self.parts.high
    }

    /// The low supply.
    pub fn low(&self) -> NetId
        ensures same { result.0 ≡ self.now.low }
        ensures kept { IsCircuit self.now }
    {
        self.parts.low
    }

    /// The inputs, in net order: the labelled nets, no supply and no terminal, that gate a transistor.
    pub fn inputs(&self) -> &[NetId]
        ensures same { map (λ n. n.0) result.now ≡ inputs_of self.now }
        ensures few { length result.now ≤ 256 }
    {
        self.inputs.as_slice()
    }

    /// The nets that the user asked for.
    pub fn asked(&self) -> &[NetId]
        ensures same { result.now ≡ self.now.asked }
        ensures kept { IsCircuit self.now }
    {
        self.parts.asked.as_slice()
    }

    /// Whether the net is a supply.
    pub fn is_supply(&self, net: NetId) -> bool
        ensures { result ≡ is_supply self.now net.0 }
    {
        self.parts.is_supply(net)
    }

    /// Whether the transistor at this index conducts. The index is in range, and `values` has a value for each net.
    pub fn conducting(&self, fet: usize, values: &[bool]) -> bool
        requires fet { fet < length self.now.fets }
        requires values { length values.now ≡ net_count self.now }
        ensures { (f : Fet) → slice_get self.now.fets fet ≡ Some f → result ≡ is_conducting (value values.now) f }
    {
        conducts(&self.parts.fets[fet], values)
    }

    /// To which supplies the net has a path, by the definition `IsDriveOf`. The net is in range, `values` has a value for
    /// each net, and the scratch is for as many nets.
    pub fn drive(&self, net: NetId, values: &[bool], scratch: &mut Scratch) -> Drive
        requires net { net.0 < net_count self.now }
        requires values { length values.now ≡ net_count self.now }
        requires scratch { scratch.old ≡ net_count self.now }
        ensures drive { IsDriveOf self.now (value values.now) net.0 result }
        ensures scratch { scratch.new ≡ scratch.old }
    {
        drive_of(&self.parts, net, values, scratch)
    }
}
