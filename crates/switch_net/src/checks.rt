//! What is asked of the parts of a circuit.

ghost use Rattle.std.specs.Prelude.{◌≡◌, ◌<◌, ◌^◌, [], ◌∷◌, ◌++◌, if◌then◌else◌, length, map, All, IfOk, OnOk, MatchOption};
ghost use Rattle.switch_net.specs.Switches.{net_count};
ghost use Rattle.switch_net.specs.Inputs.{is_open_gate, is_input, is_floating_gate, inputs_of};
ghost use Rattle.switch_net.specs.Refusals.{IsFetBelow, IsNone, IsLeast, is_askable, AreTerminals, IsFirstBad};
ghost use Rattle.switch_net.specs.Marks.{AreUses};

use crate::NetId;
use crate::fets::value_of;
use crate::marks::{gates, terminals};
use crate::parts::Parts;
use std::alloc::{AllocError, Global};

/// Which nets gate a transistor, and which are a terminal of one.
#[derive(Drop)]
pub(crate) struct Uses {
    gates: Vec<bool>,
    terminals: Vec<bool>,
}

/// What the transistors use the nets for.
pub(crate) fn uses_of(alloc: Global, parts: &Parts) -> Result<Uses, AllocError>
    requires { All (IsFetBelow (net_count parts.now)) parts.now.fets }
    ensures { IfOk result (λ uses. AreUses parts.now uses.gates.items uses.terminals.items) }
{
    let nets = parts.labelled.len();
    Ok(Uses {
        gates: gates(alloc, nets, parts.fets.as_slice())?,
        terminals: terminals(alloc, nets, parts.fets.as_slice())?,
    })
}

/// The least net that gates a transistor and is no supply, no terminal and not labelled.
pub(crate) fn first_floating(parts: &Parts, uses: &Uses) -> Option<NetId>
    requires few { net_count parts.now < 2 ^ 32 }
    requires uses { AreUses parts.now uses.now.gates.items uses.now.terminals.items }
    ensures { MatchOption result (IsNone (is_floating_gate parts.now)) (λ net. IsLeast (is_floating_gate parts.now) net.0) }
{
    for number in 0..parts.labelled.len() as u32 {
        let net = NetId(number);
        if is_open_gate(parts, uses, net) && !value_of(parts.labelled.as_slice(), net) {
            return Some(net);
        }
    }
    None
}

/// The inputs, in net order.
pub(crate) fn inputs(alloc: Global, parts: &Parts, uses: &Uses) -> Result<Vec<NetId>, AllocError>
    requires few { net_count parts.now < 2 ^ 32 }
    requires uses { AreUses parts.now uses.now.gates.items uses.now.terminals.items }
    ensures { IfOk result (λ v. map (λ n. n.0) v.items ≡ inputs_of parts.now) }
{
    let mut nets = Vec::new(alloc);
    for net in 0..parts.labelled.len() as u32 {
        push_input(&mut nets, parts, uses, NetId(net))?;
    }
    Ok(nets)
}

/// Adds the net where it is an input.
fn push_input(
    nets: &mut Vec<NetId>,
    parts: &Parts,
    uses: &Uses,
    net: NetId,
) -> Result<(), AllocError>
    requires { AreUses parts.now uses.now.gates.items uses.now.terminals.items }
    ensures { OnOk result (nets.new.items ≡ nets.old.items ++ (if is_input parts.now net.0 then net ∷ [] else [])) }
{
    if is_open_gate(parts, uses, net) && value_of(parts.labelled.as_slice(), net) {
        nets.push(net)?;
    }
    Ok(())
}

/// Whether the net gates a transistor, and no transistor and no supply gives it a value.
fn is_open_gate(parts: &Parts, uses: &Uses, net: NetId) -> bool
    requires { AreUses parts.now uses.now.gates.items uses.now.terminals.items }
    ensures { result ≡ is_open_gate parts.now net.0 }
{
    value_of(uses.gates.as_slice(), net)
        && !value_of(uses.terminals.as_slice(), net)
        && !parts.is_supply(net)
}

/// The index of the first net that the user may not ask for: a supply, or no terminal.
pub(crate) fn first_bad(parts: &Parts, uses: &Uses) -> Option<u32>
    requires few { length parts.now.asked < 2 ^ 32 }
    requires uses { AreUses parts.now uses.now.gates.items uses.now.terminals.items }
    ensures { MatchOption result (AreTerminals parts.now) (IsFirstBad parts.now) }
{
    for (index, net) in parts.asked.iter().enumerate() {
        if !is_askable(parts, uses, *net) {
            return Some(index as u32);
        }
    }
    None
}

/// Whether the user may ask for the net.
fn is_askable(parts: &Parts, uses: &Uses, net: NetId) -> bool
    requires { AreUses parts.now uses.now.gates.items uses.now.terminals.items }
    ensures { result ≡ is_askable parts.now net.0 }
{
    value_of(uses.terminals.as_slice(), net) && !parts.is_supply(net)
}
