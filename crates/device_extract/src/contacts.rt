//! Which nets are terminals of which transistors.

ghost use Rattle.std.specs.Prelude.{◌≡◌, ◌<◌, ◌&&◌, ◌-ℤ◌, false, None, length, IfOk, OnOk, IfSome};
ghost use Rattle.net_trace.specs.Touching.{has_node};
ghost use Rattle.device_extract.specs.Channels.{channel_plane, wire_plane};
ghost use Rattle.device_extract.specs.Contacts.{IsStep, AreTouched, IsContactAt, AreContactsAdded, AreContacts};

use crate::gates::corner_of;
use crate::shifts::shifted;
use crate::sides::{Side, sides};
use layer_map::LayerMap;
use mask_region::{Masks, Region, Strip};
use net_trace::{Pieces, Traced};
use plane_geom::Point;
use std::alloc::{AllocError, Global};
use switch_net::NetId;

/// Pairs of a transistor and one of its terminals: each terminal of each transistor is in a pair, maybe in several.
pub(crate) fn contacts(
    alloc: Global,
    masks: &Masks,
    map: &LayerMap,
    traced: &Traced,
    pieces: &Pieces,
) -> Result<Vec<(usize, NetId)>, AllocError>
    requires wires { length masks.now.wires ≡ length map.now.wires }
    requires channels { length masks.now.channels ≡ length map.now.fets }
    requires traced { traced.now.wires ≡ masks.now.wires }
    requires pieces { pieces.now ≡ channel_plane masks.now }
    ensures { IfOk result (λ v. AreContacts map.now masks.now traced.now v.items) }
{
    let mut contacts = Vec::new(alloc);
    for side in &sides(alloc, map)? {
        let touched = touched(alloc, masks, *side)?;
        add_contacts(&mut contacts, traced, pieces, &touched, *side)?;
    }
    Ok(contacts)
}

/// The cells of the side.
fn touched(alloc: Global, masks: &Masks, side: Side) -> Result<Region, AllocError>
    requires line { side.line < length masks.now.channels }
    requires wire { side.diff.0 < length masks.now.wires }
    requires step { IsStep side.right side.up }
    ensures { IfOk result (λ r. AreTouched (channel_plane masks.now) (wire_plane masks.now) side r) }
{
    let channel = &masks.channels()[side.line as usize];
    let wire = &masks.wires()[side.diff.0 as usize];
    shifted(alloc, channel, side)?.meet(alloc, wire)
}

/// Adds the transistors and nets at the cells of the side. Of each strip of them one cell is enough, since its cells lie
/// on one net, and so do the channel cells from which they lie on one transistor.
fn add_contacts(
    contacts: &mut Vec<(usize, NetId)>,
    traced: &Traced,
    pieces: &Pieces,
    touched: &Region,
    side: Side,
) -> Result<(), AllocError>
    requires { AreTouched pieces.now traced.now side touched.now }
    ensures { OnOk result (AreContactsAdded pieces.now traced.now side contacts.old.items contacts.new.items) }
{
    for strip in touched.strips() {
        if let Some(contact) = contact_at(traced, pieces, strip, side) {
            contacts.push(contact)?;
        }
    }
    Ok(())
}

/// The transistor and the net at the least cell of the strip.
fn contact_at(traced: &Traced, pieces: &Pieces, strip: &Strip, side: Side) -> Option<(usize, NetId)>
    ensures none { result ≡ None → (has_node pieces.now side.line (strip.now.x0 -ℤ side.right) (strip.now.y0 -ℤ side.up) && has_node traced.now side.diff.0 strip.now.x0 strip.now.y0) ≡ false }
    ensures some { IfSome result (λ contact. IsContactAt pieces.now traced.now side strip.now.x0 strip.now.y0 contact) }
{
    let cell = corner_of(strip);
    let fet = pieces.piece_at(side.line, channel_at(strip, side))?;
    let net = traced.net_at(side.diff, cell)?;
    Some((fet, net))
}

/// The channel cell from which the least cell of the strip lies so far.
fn channel_at(strip: &Strip, side: Side) -> Point
    ensures x { result.x ≡ strip.now.x0 -ℤ side.right }
    ensures y { result.y ≡ strip.now.y0 -ℤ side.up }
{
    Point {
        x: strip.x0 as i64 - side.right as i64,
        y: strip.y0 as i64 - side.up as i64,
    }
}
