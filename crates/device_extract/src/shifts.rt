//! Regions that are shifted.

ghost use Rattle.std.specs.Prelude.{◌≡◌, ◌^◌, ℤ, ◌+ℤ◌, ◌-ℤ◌, IfOk};
ghost use Rattle.mask_region.specs.Strips.{is_in, AreStripsWithin, IsStripWithin};
ghost use Rattle.device_extract.specs.Contacts.{IsStep};

use crate::sides::Side;
use mask_region::{Region, Strip};
use std::alloc::{AllocError, Global};

/// The cells that lie by the side's step from the cells of the region.
pub(crate) fn shifted(alloc: Global, region: &Region, side: Side) -> Result<Region, AllocError>
    requires step { IsStep side.right side.up }
    requires within { AreStripsWithin (2 ^ 24) region.now }
    ensures { IfOk result (λ r. (x y : ℤ) → is_in r x y ≡ is_in region.now (x -ℤ side.right) (y -ℤ side.up)) }
{
    let mut shifted = Region::empty(alloc);
    for strip in region.strips() {
        shifted.push(strip_shifted(strip, side))?;
    }
    Ok(shifted)
}

/// The strip that lies by the side's step from this one.
fn strip_shifted(strip: &Strip, side: Side) -> Strip
    requires step { IsStep side.right side.up }
    requires within { IsStripWithin (2 ^ 24) strip.now }
    ensures y0 { result.y0 ≡ strip.now.y0 +ℤ side.up }
    ensures y1 { result.y1 ≡ strip.now.y1 +ℤ side.up }
    ensures x0 { result.x0 ≡ strip.now.x0 +ℤ side.right }
    ensures x1 { result.x1 ≡ strip.now.x1 +ℤ side.right }
{
    Strip {
        y0: strip.y0 + side.up,
        y1: strip.y1 + side.up,
        x0: strip.x0 + side.right,
        x1: strip.x1 + side.right,
    }
}
