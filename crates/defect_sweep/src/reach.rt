//! What a net reaches on a wire.

ghost use Rattle.std.specs.Prelude.{◌≡◌, ◌^◌, ◌<◌, ℤ, true, length, IfOk};
ghost use Rattle.mask_region.specs.Strips.{AreStripsWithin};
ghost use Rattle.defect_sweep.specs.Sides.{AreSides};
ghost use Rattle.defect_sweep.specs.Reaching.{HoldsAll, AreNear, IsReach, ArePlacements, meets};

use crate::bounds::{are_apart, around, around_all, no_bounds};
use crate::sides::SideWeight;
use mask_region::Region;
use plane_geom::Rect;
use std::alloc::{AllocError, Global};
use std::marker::Model;

/// The placements that meet a net on a wire, for each side, and a rectangle that holds them all.
#[derive(Debug, Drop)]
pub(crate) struct WireReach {
    placements: Vec<Region>,
    bounds: Rect,
}

impl Model for WireReach {
    ghost use Rattle.defect_sweep.specs.Reaching.{Reach, IsReach};

    ghost Value = { Reach };

    ghost view = { λ r. record { placements = r.placements.items; bounds = r.bounds } };

    ghost invariant = { λ r. IsReach (record { placements = r.placements.items; bounds = r.bounds }) };
}

impl WireReach {
    /// What a net with this region reaches.
    pub(crate) fn new(
        alloc: Global,
        region: &Region,
        sides: &[SideWeight],
    ) -> Result<WireReach, AllocError>
        requires near { AreStripsWithin (2 ^ 24) region.now }
        requires sides { AreSides sides.now }
        ensures { IfOk result (λ r. ArePlacements sides.now region.now r.placements) }
    {
        let placements = placements_of(alloc, region, sides)?;
        let bounds = bounds_of(placements.as_slice());
        Ok(WireReach { placements, bounds })
    }

    /// A rectangle that holds all placements.
    pub(crate) fn bounds(&self) -> Rect
        ensures { HoldsAll result self.now.placements }
    {
        self.bounds
    }

    /// How many placements are among both, each as often as the weight of its side says.
    pub(crate) fn count_with(
        &self,
        alloc: Global,
        other: &WireReach,
        sides: &[SideWeight],
    ) -> Result<u64, AllocError>
        requires sides { AreSides sides.now }
        requires first { length self.now.placements ≡ length sides.now }
        requires second { length other.now.placements ≡ length sides.now }
        ensures counts { IfOk result (λ n. n ≡ meets sides.now self.now.placements other.now.placements) }
        ensures small { IfOk result (λ n. n < 2 ^ 59) }
    {
        if are_apart(&self.bounds, &other.bounds) {
            return Ok(0);
        }
        count_both(
            alloc,
            self.placements.as_slice(),
            other.placements.as_slice(),
            sides,
        )
    }
}

/// The placements that meet the region, for each side.
fn placements_of(
    alloc: Global,
    region: &Region,
    sides: &[SideWeight],
) -> Result<Vec<Region>, AllocError>
    requires near { AreStripsWithin (2 ^ 24) region.now }
    requires sides { AreSides sides.now }
    ensures are { IfOk result (λ v. ArePlacements sides.now region.now v.items) }
    ensures near { IfOk result (λ v. AreNear v.items) }
{
    let mut placements = Vec::new(alloc);
    for side in sides {
        placements.push(region.grow(alloc, side.cells)?)?;
    }
    Ok(placements)
}

/// A rectangle that holds the regions.
fn bounds_of(regions: &[Region]) -> Rect
    ensures { HoldsAll result regions.now }
{
    let mut bounds = no_bounds();
    for region in regions {
        bounds = around(&bounds, &around_all(region.strips()));
    }
    bounds
}

/// How many placements are among both, each as often as the weight of its side says.
fn count_both(
    alloc: Global,
    first: &[Region],
    second: &[Region],
    sides: &[SideWeight],
) -> Result<u64, AllocError>
    requires sides { AreSides sides.now }
    requires first_each { length first.now ≡ length sides.now }
    requires second_each { length second.now ≡ length sides.now }
    requires near { AreNear first.now }
    ensures counts { IfOk result (λ n. n ≡ meets sides.now first.now second.now) }
    ensures small { IfOk result (λ n. n < 2 ^ 59) }
{
    let mut total = 0;
    for (k, side) in sides.iter().enumerate() {
        let both = first[k].meet(alloc, &second[k])?;
        total += side.weight as u64 * both.area();
    }
    Ok(total)
}
