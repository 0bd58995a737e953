//! Counts, ranked.

ghost use Rattle.std.specs.Prelude.{◌≡◌};
ghost use Rattle.bridge_rank.specs.Ranking.{rank_order, IsRanked};

use defect_sweep::{CountList, PairCount};
use std::cmp::Ordering;

/// The counts, the largest first. Pairs with equal counts come by the number of the first net, and then by that of the
/// second.
pub fn order(counts: CountList) -> Vec<PairCount>
    ensures { IsRanked counts result.items }
{
    let mut ranked = counts.into_list();
    ranked.sort_unstable_by(|p, q| compare(p, q));
    ranked
}

/// How two counts rank.
fn compare(p: &PairCount, q: &PairCount) -> Ordering
    ensures { result ≡ rank_order p.now q.now }
{
    let first = p.pair();
    let second = q.pair();
    q.total()
        .cmp(&p.total())
        .then(first.a().0.cmp(&second.a().0))
        .then(first.b().0.cmp(&second.b().0))
}
