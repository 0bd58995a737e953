//! Laws of counts.

ghost use Rattle.std.specs.Prelude.{◌≡◌, ◌<◌, ◌≤◌, ◌^◌, ℕ, List, length, All};
ghost use Rattle.mask_region.specs.declared.strips.Strip.{Strip};
ghost use Rattle.mask_region.specs.Strips.{AreRegionsWithin};
ghost use Rattle.net_trace.specs.Touching.{Nets};
ghost use Rattle.net_trace.specs.Nets.{AreRegionsOf, IsNetCount};
ghost use Rattle.defect_sweep.specs.declared.sides.SideWeight.{SideWeight};
ghost use Rattle.defect_sweep.specs.Sides.{AreSides};
ghost use Rattle.defect_sweep.specs.Counting.{BridgeCount, counts_of};
ghost use Rattle.defect_sweep.specs.Bridges.{AreCounts, HasManyBridges, IsFitting};

/// Nets have one list of counts, whichever strips their regions are kept as. So they have too many bridges exactly where
/// that list is too long.
pub fn one_counting()
    ensures counts { (nets : Nets) (sides : List SideWeight) (counts others : List BridgeCount) → AreCounts nets sides counts → AreCounts nets sides others
        → counts ≡ others }
    ensures many { (nets : Nets) (sides : List SideWeight) (counts : List BridgeCount) → AreCounts nets sides counts → HasManyBridges nets sides
        → 65536 < length counts }
{}

/// The counts by the regions of nets are those of the nets.
pub fn counts_by_regions()
    ensures { (nets : Nets) (sides : List SideWeight) (regions : List (List Strip)) (count : ℕ) → AreRegionsOf nets regions → IsNetCount nets count
        → AreCounts nets sides (counts_of sides count (length nets.wires) regions) }
{}

/// The counts fit in 64 bits: the regions lie within 16,777,216 of 0, and there are at most 16 wires.
pub fn counts_fit()
    ensures { (sides : List SideWeight) (nets wires : ℕ) (regions : List (List Strip)) → AreSides sides → wires ≤ 16 → AreRegionsWithin (2 ^ 24) regions
        → All IsFitting (counts_of sides nets wires regions) }
{}
