//! The extraction of transistors.

ghost use Rattle.std.specs.Prelude.{◌≡◌, ◌≤◌, length, IfOk, Err};
ghost use Rattle.device_extract.specs.declared.refusal.DeviceRefusal.{DeviceRefusal};
ghost use Rattle.device_extract.specs.Transistors.{AreTransistors};
ghost use Rattle.device_extract.specs.Refusals.{RefusesDevices};

use crate::contacts::contacts;
use crate::fets::{cell_of, fets};
use crate::gates::first_ungated;
use crate::refusal::DeviceRefusal;
use crate::terminals::{ends_of, first_bare, first_crowded};
use layer_map::LayerMap;
use mask_region::Masks;
use net_trace::{Traced, pieces_of};
use std::alloc::Global;
use switch_net::Fet;

/// The most transistors that a layout may have.
const MOST_FETS: usize = 4096;

/// The transistors of a layout, as the definition `AreTransistors` says: in the order of the map's lines, and on a line in
/// the order of their least cells by y and x, each with the smaller terminal as `a`. The masks have one region for each
/// line of the map, and the nets are those of the masks' wires, however they are joined. It is refused as `RefusesDevices`
/// says: where a channel cell has no gate, then where a transistor has no terminal, then where one has more than two, and
/// then where there are over 4,096. Where no memory is found, it gives `NoMemory`.
pub fn extract(
    alloc: Global,
    masks: &Masks,
    map: &LayerMap,
    traced: &Traced,
) -> Result<Vec<Fet>, DeviceRefusal>
    requires wires { length masks.now.wires ≡ length map.now.wires }
    requires channels { length masks.now.channels ≡ length map.now.fets }
    requires traced { traced.now.wires ≡ masks.now.wires }
    ensures fets { IfOk result (λ fets. AreTransistors map.now masks.now traced.now fets.items) }
    ensures few { IfOk result (λ fets. length fets.items ≤ 4096) }
    ensures refused { (refusal : DeviceRefusal) → result ≡ Err refusal → RefusesDevices map.now masks.now traced.now refusal }
{
    if let Some(cell) = first_ungated(alloc, masks, map)? {
        return Err(DeviceRefusal::UngatedChannel(cell));
    }
    let pieces = pieces_of(alloc, masks.channels())?;
    let roots = pieces.roots();
    let contacts = contacts(alloc, masks, map, traced, &pieces)?;
    let ends = ends_of(alloc, roots.len(), contacts.as_slice())?;
    let ends = ends.as_slice();
    if let Some(t) = first_bare(ends) {
        return Err(DeviceRefusal::NoTerminal(cell_of(&roots[t])));
    }
    if let Some(t) = first_crowded(ends) {
        return Err(DeviceRefusal::ManyTerminals(cell_of(&roots[t])));
    }
    let fets = fets(alloc, map, traced, roots, ends)?;
    if fets.len() > MOST_FETS {
        return Err(DeviceRefusal::TooManyFets);
    }
    Ok(fets)
}
