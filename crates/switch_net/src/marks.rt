//! Tables of marks: a bit for each net.

ghost use Rattle.std.specs.Prelude.{◌≡◌, ◌<◌, ◌^◌, [], ◌∷◌, ◌++◌, if◌then◌else◌, filter, length, map, All, IfOk, OnOk};
ghost use Rattle.std.specs.List.{range_with_len};
ghost use Rattle.switch_net.specs.Switches.{value, gates_some, joins_some};
ghost use Rattle.switch_net.specs.Refusals.{IsFetBelow};
ghost use Rattle.switch_net.specs.Marks.{AreMarks};

use crate::fets::value_of;
use crate::{Fet, NetId};
use std::alloc::{AllocError, Global};

/// Marks the nets, of so many in all, that gate one of the transistors.
pub fn gates(alloc: Global, nets: usize, fets: &[Fet]) -> Result<Vec<bool>, AllocError>
    requires { All (IsFetBelow nets) fets.now }
    ensures { IfOk result (λ marks. AreMarks nets (gates_some fets.now) marks.items) }
{
    let mut marks = vec![in alloc; false; nets]?;
    for fet in fets {
        marks[fet.gate.0 as usize] = true;
    }
    Ok(marks)
}

/// Marks the nets, of so many in all, that are a terminal of one of the transistors.
pub fn terminals(alloc: Global, nets: usize, fets: &[Fet]) -> Result<Vec<bool>, AllocError>
    requires { All (IsFetBelow nets) fets.now }
    ensures { IfOk result (λ marks. AreMarks nets (joins_some fets.now) marks.items) }
{
    let mut marks = vec![in alloc; false; nets]?;
    for fet in fets {
        marks[fet.a.0 as usize] = true;
        marks[fet.b.0 as usize] = true;
    }
    Ok(marks)
}

/// The marked nets, in net order.
pub fn chosen(alloc: Global, marks: &[bool]) -> Result<Vec<NetId>, AllocError>
    requires { length marks.now < 2 ^ 32 }
    ensures { IfOk result (λ v. map (λ n. n.0) v.items ≡ filter (value marks.now) (range_with_len 0 (length marks.now))) }
{
    let mut nets = Vec::new(alloc);
    for net in 0..marks.len() as u32 {
        push_marked(&mut nets, marks, NetId(net))?;
    }
    Ok(nets)
}

/// Adds the net where it is marked.
fn push_marked(nets: &mut Vec<NetId>, marks: &[bool], net: NetId) -> Result<(), AllocError>
    ensures { OnOk result (nets.new.items ≡ nets.old.items ++ (if value marks.now net.0 then net ∷ [] else [])) }
{
    if value_of(marks, net) {
        nets.push(net)?;
    }
    Ok(())
}
