//! Channel cells with no gate.

ghost use Rattle.std.specs.Prelude.{◌≡◌, ◌≤◌, ℤ, false, length, IfOk, MatchOption};
ghost use Rattle.mask_region.specs.Strips.{is_in};
ghost use Rattle.device_extract.specs.Channels.{AreGated, IsFirstUngated, IsLeastIn};

use layer_map::LayerMap;
use mask_region::{Masks, Region, Strip};
use plane_geom::Point;
use std::alloc::{AllocError, Global};

/// The first channel cell with no node of its line's gate wire.
pub(crate) fn first_ungated(
    alloc: Global,
    masks: &Masks,
    map: &LayerMap,
) -> Result<Option<Point>, AllocError>
    requires wires { length masks.now.wires ≡ length map.now.wires }
    requires channels { length masks.now.channels ≡ length map.now.fets }
    ensures few { length map.now.fets ≤ 8 }
    ensures first { IfOk result (λ first. MatchOption first (AreGated map.now masks.now) (IsFirstUngated map.now masks.now)) }
{
    for (k, line) in map.fets().iter().enumerate() {
        let gate = &masks.wires()[line.gate.0 as usize];
        let bare = masks.channels()[k].minus(alloc, gate)?;
        if let Some(cell) = least_cell(&bare) {
            return Ok(Some(cell));
        }
    }
    Ok(None)
}

/// The least cell of a region, in the order of y and x: its strips come in that order.
fn least_cell(region: &Region) -> Option<Point>
    ensures { MatchOption result ((x y : ℤ) → is_in region.now x y ≡ false) (IsLeastIn region.now) }
{
    let strip = region.strips().first()?;
    Some(corner_of(strip))
}

/// The least cell of a strip.
pub(crate) fn corner_of(strip: &Strip) -> Point
    ensures x { result.x ≡ strip.now.x0 }
    ensures y { result.y ≡ strip.now.y0 }
{
    Point {
        x: strip.x0 as i64,
        y: strip.y0 as i64,
    }
}
