//! What a net reaches on all wires.

ghost use Rattle.std.specs.Prelude.{◌≡◌, ℕ, ◌^◌, ◌≤◌, ◌++◌, true, List, length, IfOk, OnOk, [], slice_index_or};
ghost use Rattle.mask_region.specs.Strips.{AreRegionsWithin};
ghost use Rattle.defect_sweep.specs.declared.sides.SideWeight.{SideWeight};
ghost use Rattle.defect_sweep.specs.Sides.{AreSides};
ghost use Rattle.defect_sweep.specs.Counting.{count_of};
ghost use Rattle.defect_sweep.specs.Reaching.{AreReachesOf, AreForSides, above_0, meets_on, wire_meets};

use crate::bounds::{are_apart, around, no_bounds};
use crate::pairs::PairCount;
use crate::reach::WireReach;
use crate::sides::SideWeight;
use layer_map::WireId;
use mask_region::Region;
use plane_geom::Rect;
use std::alloc::{AllocError, Global};
use std::marker::Model;
use switch_net::Pair;

/// The placements that meet a net, for each wire and side, and a rectangle that holds them all.
#[derive(Debug, Drop)]
pub(crate) struct NetReach {
    on: Vec<WireReach>,
    bounds: Rect,
}

impl Model for NetReach {
    ghost use Rattle.defect_sweep.specs.Reaching.{Reaches, AreReaches};

    ghost Value = { Reaches };

    ghost view = { λ r. record { on = r.on.items; bounds = r.bounds } };

    ghost invariant = { λ r. AreReaches (record { on = r.on.items; bounds = r.bounds }) };
}

impl NetReach {
    /// What a net with these regions reaches, one region for each wire.
    pub(crate) fn new(
        alloc: Global,
        regions: &[Region],
        sides: &[SideWeight],
    ) -> Result<NetReach, AllocError>
        requires near { AreRegionsWithin (2 ^ 24) regions.now }
        requires sides { AreSides sides.now }
        ensures { IfOk result (λ r. AreReachesOf sides.now (length regions.now) (λ wire. slice_index_or regions.now wire []) r.on) }
    {
        let mut on = Vec::new(alloc);
        let mut bounds = no_bounds();
        for region in regions {
            let reach = WireReach::new(alloc, region, sides)?;
            bounds = around(&bounds, &reach.bounds());
            on.push(reach)?;
        }
        Ok(NetReach { on, bounds })
    }

    /// Whether it is seen at once that no placement meets both nets.
    pub(crate) fn is_apart(&self, other: &NetReach) -> bool
        ensures { result ≡ true → (sides : List SideWeight) (wire : ℕ) → meets_on sides self.now other.now wire ≡ 0 }
    {
        are_apart(&self.bounds, &other.bounds)
    }

    /// The count of the pair, where these are its nets.
    pub(crate) fn count_with(
        &self,
        alloc: Global,
        other: &NetReach,
        pair: Pair,
        sides: &[SideWeight],
    ) -> Result<PairCount, AllocError>
        requires sides { AreSides sides.now }
        requires few { length self.now.on ≤ 16 }
        requires same { length other.now.on ≡ length self.now.on }
        requires first { AreForSides sides.now self.now.on }
        requires second { AreForSides sides.now other.now.on }
        ensures { IfOk result (λ c. c ≡ count_of (length self.now.on) pair (meets_on sides.now self.now other.now)) }
    {
        count_pair(alloc, self.on.as_slice(), other.on.as_slice(), pair, sides)
    }
}

/// The count of the pair, by what its nets reach.
fn count_pair(
    alloc: Global,
    first: &[WireReach],
    second: &[WireReach],
    pair: Pair,
    sides: &[SideWeight],
) -> Result<PairCount, AllocError>
    requires sides { AreSides sides.now }
    requires few { length first.now ≤ 16 }
    requires same { length second.now ≡ length first.now }
    requires first_for { AreForSides sides.now first.now }
    requires second_for { AreForSides sides.now second.now }
    ensures { IfOk result (λ c. c ≡ count_of (length first.now) pair (wire_meets sides.now first.now second.now)) }
{
    let mut total = 0;
    let mut on = Vec::new(alloc);
    for wire in 0..first.len() {
        let count = first[wire].count_with(alloc, &second[wire], sides)?;
        total += count;
        push_wire(&mut on, wire, count)?;
    }
    Ok(PairCount::new(pair, total, on))
}

/// Adds a count that is above 0, with its wire.
fn push_wire(on: &mut Vec<(WireId, u64)>, wire: usize, count: u64) -> Result<(), AllocError>
    requires { wire ≤ 16 }
    ensures { OnOk result (on.new.items ≡ on.old.items ++ above_0 wire count) }
{
    if count > 0 {
        on.push((WireId(wire as u32), count))?;
    }
    Ok(())
}
