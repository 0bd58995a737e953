//! The sweep over the pairs of nets.

ghost use Rattle.std.specs.Prelude.{◌≡◌, ◌^◌, ◌<◌, ◌≤◌, ◌+◌, ◌*◌, ◌++◌, [], ◌∷◌, length, IfOk, OnOk};
ghost use Rattle.mask_region.specs.Strips.{AreRegionsWithin};
ghost use Rattle.defect_sweep.specs.Sides.{AreSides};
ghost use Rattle.defect_sweep.specs.Counting.{counts_of, listed, pair_of as pair_with};
ghost use Rattle.defect_sweep.specs.Reaching.{AreSpread, AreForAll, row_of};

use crate::net_reach::NetReach;
use crate::pairs::{CountList, PairCount};
use crate::refusal::SweepRefusal;
use crate::sides::SideWeight;
use mask_region::Region;
use std::alloc::{AllocError, Global};
use switch_net::{NetId, Pair};

/// The most pairs of nets that are listed.
const MOST: usize = 65_536;

/// The pairs of nets that some placement meets on a wire, in the order of the pairs, with their counts. There are at most
/// 16 wires, and `regions` has a region for each net and wire: those of net 0 in the order of the wires, then those of net
/// 1, and so on. No coordinate of them is over 16,777,216 from 0. There are 1 to 8 sides, which rise.
///
/// `TooManyBridges` comes exactly where there are more than 65,536 such pairs.
pub fn count_regions(
    alloc: Global,
    nets: usize,
    wires: usize,
    regions: &[Region],
    sides: &[SideWeight],
) -> Result<CountList, SweepRefusal>
    requires whole { length regions.now ≡ nets * wires }
    requires few_nets { nets ≤ 2 ^ 32 }
    requires few_wires { wires ≤ 16 }
    requires near { AreRegionsWithin (2 ^ 24) regions.now }
    requires sides { AreSides sides.now }
    ensures counts { IfOk result (λ list. list ≡ counts_of sides.now nets wires regions.now) }
    ensures few { IfOk result (λ list. length list ≤ 65536) }
    ensures many { result ≡ Err SweepRefusal.TooManyBridges → 65536 < length (counts_of sides.now nets wires regions.now) }
{
    let reaches = reaches_of(alloc, nets, wires, regions, sides)?;
    let mut found = Vec::new(alloc);
    for a in 0..nets {
        let nets = reaches.as_slice();
        if let Err(refusal) = push_row(&mut found, alloc, wires, a, nets, sides) {
            return Err(refusal);
        }
    }
    Ok(CountList::new(found))
}

/// What each net reaches.
fn reaches_of(
    alloc: Global,
    nets: usize,
    wires: usize,
    regions: &[Region],
    sides: &[SideWeight],
) -> Result<Vec<NetReach>, AllocError>
    requires whole { length regions.now ≡ nets * wires }
    requires near { AreRegionsWithin (2 ^ 24) regions.now }
    requires sides { AreSides sides.now }
    ensures each { IfOk result (λ v. length v.items ≡ nets) }
    ensures spread { IfOk result (λ v. AreSpread sides.now wires regions.now v.items) }
{
    let mut reaches = Vec::new(alloc);
    for net in 0..nets {
        let first = net * wires;
        let own = &regions[first..first + wires];
        reaches.push(NetReach::new(alloc, own, sides)?)?;
    }
    Ok(reaches)
}

/// Adds the counts of the net `a` with each later net.
fn push_row(
    found: &mut Vec<PairCount>,
    alloc: Global,
    wires: usize,
    a: usize,
    nets: &[NetReach],
    sides: &[SideWeight],
) -> Result<(), SweepRefusal>
    requires within { a < length nets.now }
    requires few_nets { length nets.now ≤ 2 ^ 32 }
    requires few_wires { wires ≤ 16 }
    requires few { length found.old.items ≤ 65536 }
    requires sides { AreSides sides.now }
    requires for_sides { AreForAll sides.now wires nets.now }
    ensures row { OnOk result (found.new.items ≡ found.old.items ++ row_of sides.now wires nets.now a) }
    ensures few { OnOk result (length found.new.items ≤ 65536) }
    ensures many { result ≡ Err SweepRefusal.TooManyBridges → 65536 < length (found.old.items ++ row_of sides.now wires nets.now a) }
{
    for b in a + 1..nets.len() {
        if nets[a].is_apart(&nets[b]) {
            continue;
        }
        let count = nets[a].count_with(alloc, &nets[b], pair_of(a, b), sides)?;
        if let Err(refusal) = push_count(found, count) {
            return Err(refusal);
        }
    }
    Ok(())
}

/// Adds a count that is above 0, where there is room.
fn push_count(found: &mut Vec<PairCount>, count: PairCount) -> Result<(), SweepRefusal>
    ensures ok { OnOk result (found.new.items ≡ found.old.items ++ listed (count ∷ [])) }
    ensures few { OnOk result (length found.old.items ≤ 65536 → length found.new.items ≤ 65536) }
    ensures many { result ≡ Err SweepRefusal.TooManyBridges → 65536 < length (found.old.items ++ listed (count ∷ [])) }
{
    if count.total() == 0 {
        return Ok(());
    }
    if found.len() >= MOST {
        return Err(SweepRefusal::TooManyBridges);
    }
    match found.push(count) {
        Ok(()) => Ok(()),
        Err(fault) => Err(AllocError::from(fault).into()),
    }
}

/// The pair of the nets with these numbers, the smaller one first.
fn pair_of(a: usize, b: usize) -> Pair
    requires first { a < b }
    requires second { b < 2 ^ 32 }
    ensures { result ≡ pair_with a b }
{
    Pair::in_order(NetId(a as u32), NetId(b as u32))
}
