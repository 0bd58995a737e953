//! Pairs of nets, with their counts.

ghost use Rattle.std.specs.Prelude.{◌≡◌, ◌<◌, ◌≤◌, ◌^◌, [], IfOk};

use layer_map::WireId;
use std::alloc::Global;
use std::marker::Model;
use switch_net::Pair;

/// How many placements meet both nets of a pair: in all, and on each wire. Contracts see it as a `BridgeCount`.
#[derive(Debug, Drop)]
pub struct PairCount {
    pair: Pair,
    total: u64,
    on: Vec<(WireId, u64)>,
}

impl Model for PairCount {
    ghost use Rattle.defect_sweep.specs.Counting.{BridgeCount};

    ghost Value = { BridgeCount };

    ghost view = { λ c. record { pair = c.pair; total = c.total; on = c.on.items } };
}

impl PairCount {
    /// The count with these parts.
    pub(crate) fn new(pair: Pair, total: u64, on: Vec<(WireId, u64)>) -> PairCount
        ensures { result ≡ record { pair = pair; total = total; on = on.items } }
    {
        PairCount { pair, total, on }
    }

    /// The two nets.
    pub fn pair(&self) -> Pair
        ensures { result ≡ self.now.pair }
    {
        self.pair
    }

    /// The sum of the counts on the wires.
    pub fn total(&self) -> u64
        ensures { result ≡ self.now.total }
    {
        self.total
    }

    /// The wires with a count above 0, in the order of their numbers, and the counts.
    pub fn on(&self) -> &[(WireId, u64)]
        ensures { result.now ≡ self.now.on }
    {
        self.on.as_slice()
    }
}

/// The pairs of nets with a count above 0, in the order of their numbers. Contracts see it as its list.
#[derive(Debug, Drop)]
pub struct CountList {
    list: Vec<PairCount>,
}

impl Model for CountList {
    ghost use Rattle.std.specs.Prelude.{List};
    ghost use Rattle.defect_sweep.specs.Counting.{BridgeCount};

    ghost Value = { List BridgeCount };

    ghost view = { λ c. c.list.items };
}

impl CountList {
    /// The list of these counts.
    pub(crate) fn new(list: Vec<PairCount>) -> CountList
        ensures { result ≡ list.items }
    {
        CountList { list }
    }

    /// The counts, in the order of the pairs.
    pub fn list(&self) -> &[PairCount]
        ensures { result.now ≡ self.now }
    {
        self.list.as_slice()
    }

    /// The counts, in the order of the pairs, handed out.
    pub fn into_list(self) -> Vec<PairCount>
        ensures { result.items ≡ self }
    {
        self.list
    }
}
