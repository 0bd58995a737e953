//! The counts of traced nets.

ghost use Rattle.std.specs.Prelude.{◌≡◌, ◌≤◌, Err, IfOk, length};
ghost use Rattle.defect_sweep.specs.Sides.{AreSides};
ghost use Rattle.defect_sweep.specs.Bridges.{AreCounts, HasManyBridges};

use crate::pairs::CountList;
use crate::refusal::SweepRefusal;
use crate::sides::SideWeight;
use crate::sweep::count_regions;
use net_trace::Traced;
use std::alloc::Global;

/// The pairs of nets that some placement of a square of these sides meets on a wire, in the order of the pairs, with their
/// counts, by the definition `AreCounts`. There are 1 to 8 sides, which rise.
///
/// `TooManyBridges` comes exactly where there are more than 65,536 such pairs, but for a want of memory, where
/// `NoMemory` comes.
pub fn counts(
    alloc: Global,
    traced: &Traced,
    sides: &[SideWeight],
) -> Result<CountList, SweepRefusal>
    requires sides { AreSides sides.now }
    ensures counts { IfOk result (AreCounts traced.now sides.now) }
    ensures few { IfOk result (λ list. length list ≤ 65536) }
    ensures many { result ≡ Err SweepRefusal.TooManyBridges → HasManyBridges traced.now sides.now }
{
    count_regions(
        alloc,
        traced.count() as usize,
        traced.wires() as usize,
        traced.regions(),
        sides,
    )
}
