//! Marks that spread along conducting transistors, but over no supply.

ghost use Rattle.std.specs.Prelude.{◌≡◌, ◌<◌, ◌||◌, length, All, false, replicate};
ghost use Rattle.switch_net.specs.Switches.{net_count, value};
ghost use Rattle.switch_net.specs.Refusals.{IsFetBelow};
ghost use Rattle.switch_net.specs.Spreads.{is_joining, IsJoined, IsSpread, IsFlooded};

use crate::NetId;
use crate::fets::{Fet, conducts};
use crate::parts::Parts;

/// Marks the nets to which a chain of joined nets leads from `start`, and no others. The passes over the transistors end
/// where one marks nothing more.
pub(crate) fn flood(parts: &Parts, start: NetId, values: &[bool], marks: &mut Vec<bool>)
    requires start { start.0 < net_count parts.now }
    requires fets { All (IsFetBelow (net_count parts.now)) parts.now.fets }
    requires each { length marks.old.items ≡ net_count parts.now }
    ensures each { length marks.new.items ≡ length marks.old.items }
    ensures flooded { IsFlooded parts.now (value values.now) start.0 marks.new.items }
{
    clear(marks);
    marks[start.0 as usize] = true;
    while spread(parts, values, marks) {}
}

/// Clears all marks.
fn clear(marks: &mut Vec<bool>)
    ensures { marks.new.items ≡ replicate (length marks.old.items) false }
{
    for i in 0..marks.len() {
        marks[i] = false;
    }
}

/// One pass over the transistors. Whether it marked a net.
fn spread(parts: &Parts, values: &[bool], marks: &mut Vec<bool>) -> bool
    requires fets { All (IsFetBelow (net_count parts.now)) parts.now.fets }
    requires each { length marks.old.items ≡ net_count parts.now }
    ensures { IsSpread parts.now (value values.now) parts.now.fets marks.old.items marks.new.items result }
{
    let mut grown = false;
    for fet in parts.fets.as_slice() {
        grown = either(join(parts, fet, values, marks), grown);
    }
    grown
}

/// Whether one of the two holds.
fn either(a: bool, b: bool) -> bool
    ensures { result ≡ (a || b) }
{
    a || b
}

/// Marks both terminals of the transistor where it joins a marked and an unmarked net. Whether it does.
fn join(parts: &Parts, fet: &Fet, values: &[bool], marks: &mut Vec<bool>) -> bool
    requires fet { IsFetBelow (net_count parts.now) fet.now }
    requires each { length marks.old.items ≡ net_count parts.now }
    ensures { IsJoined parts.now (value values.now) fet.now marks.old.items marks.new.items result }
{
    let a = fet.a.0 as usize;
    let b = fet.b.0 as usize;
    if !is_joining(parts, fet, values) || marks[a] == marks[b] {
        return false;
    }
    marks[a] = true;
    marks[b] = true;
    true
}

/// Whether the transistor conducts and has no supply as a terminal.
fn is_joining(parts: &Parts, fet: &Fet, values: &[bool]) -> bool
    ensures { result ≡ is_joining parts.now (value values.now) fet.now }
{
    conducts(fet, values) && !parts.is_supply(fet.a) && !parts.is_supply(fet.b)
}
