//! Laws of ranked lists.

ghost use Rattle.std.specs.Prelude.{◌≡◌, List};
ghost use Rattle.net_trace.specs.Touching.{Nets};
ghost use Rattle.defect_sweep.specs.declared.sides.SideWeight.{SideWeight};
ghost use Rattle.defect_sweep.specs.Counting.{BridgeCount};
ghost use Rattle.defect_sweep.specs.Bridges.{AreCounts};
ghost use Rattle.bridge_rank.specs.Ranking.{IsRanked};

/// The counts of nets have one ranked list.
pub fn one_ranking()
    ensures { (nets : Nets) (sides : List SideWeight) (counts ranked others : List BridgeCount) → AreCounts nets sides counts → IsRanked counts ranked → IsRanked counts others
        → ranked ≡ others }
{}
