//! Which nets are joined by names.

ghost use Rattle.std.specs.Prelude.{◌≡◌, All, IfOk, length, IsPermutation, IsSorted};
ghost use Rattle.std.specs.Str.{bytes_eq};
ghost use Rattle.layer_map.specs.Names.{is_among};
ghost use Rattle.layout_extract.specs.Names.{is_joining};
ghost use Rattle.layout_extract.specs.Tags.{nets_among, AreChained, AreJoins, AreJoinedAt, HasNode, are_among, name_order};

use crate::tags::{Spot, Tag, tags};
use layer_map::LayerMap;
use net_trace::Traced;
use plane_geom::Label;
use std::alloc::{AllocError, Global};
use switch_net::NetId;

/// Two nets that are joined.
type NetPair = (NetId, NetId);

/// Whether the name is one of these.
fn is_among(names: &[Label], name: &Label) -> bool
    ensures { result ≡ is_among name.now names.now }
{
    names.iter().any(|n| n.as_bytes() == name.as_bytes())
}

/// The nets to which these names are bound.
fn nets_among(alloc: Global, tags: &[Tag<'_>], names: &[Label]) -> Result<Vec<NetId>, AllocError>
    ensures { IfOk result (λ v. v.items ≡ nets_among names.now tags.now) }
{
    tags.iter()
        .filter(|t| is_among(names, t.name))
        .map(|t| t.net)
        .collect(alloc)
}

/// Pairs that join all these nets.
fn chained(alloc: Global, nets: &[NetId]) -> Result<Vec<NetPair>, AllocError>
    ensures { IfOk result (λ v. AreChained nets.now (length nets.now) v.items) }
{
    let mut pairs = Vec::new(alloc);
    for k in 1..nets.len() {
        pairs.push((nets[k - 1], nets[k]))?;
    }
    Ok(pairs)
}

/// Pairs that join all nets to which these names are bound.
fn supply_pairs(
    alloc: Global,
    tags: &[Tag<'_>],
    names: &[Label],
) -> Result<Vec<NetPair>, AllocError>
    ensures { IfOk result (λ v. AreJoins (are_among names.now) tags.now v.items) }
{
    let nets = nets_among(alloc, tags, names)?;
    chained(alloc, nets.as_slice())
}

/// The tags in the order of their names.
fn sorted<'a>(alloc: Global, tags: &[Tag<'a>]) -> Result<Vec<Tag<'a>>, AllocError>
    ensures same { IfOk result (λ v. IsPermutation tags.now v.items) }
    ensures order { IfOk result (λ v. IsSorted name_order v.items) }
{
    let mut sorted = Vec::from_slice(alloc, tags)?;
    sorted.sort_unstable_by(|a, b| a.name.as_bytes().cmp(b.name.as_bytes()));
    Ok(sorted)
}

/// Whether the tags have one name.
fn have_one_name(a: &Tag<'_>, b: &Tag<'_>) -> bool
    ensures { result ≡ bytes_eq a.now.name.now b.now.name.now }
{
    a.name.as_bytes() == b.name.as_bytes()
}

/// Pairs that join all nets to which one name is bound. The tags are in the order of their names.
fn adjacent_pairs(alloc: Global, tags: &[Tag<'_>]) -> Result<Vec<NetPair>, AllocError>
    requires { IsSorted name_order tags.now }
    ensures { IfOk result (λ v. AreJoins bytes_eq tags.now v.items) }
{
    let mut pairs = Vec::new(alloc);
    for k in 1..tags.len() {
        let (before, tag) = (&tags[k - 1], &tags[k]);
        if have_one_name(before, tag) {
            pairs.push((before.net, tag.net))?;
        }
    }
    Ok(pairs)
}

/// Pairs that join all nets that the names join.
fn joins(alloc: Global, map: &LayerMap, tags: &[Tag<'_>]) -> Result<Vec<NetPair>, AllocError>
    ensures { IfOk result (λ v. AreJoins (is_joining map.now) tags.now v.items) }
{
    let sorted = sorted(alloc, tags)?;
    let mut pairs = adjacent_pairs(alloc, sorted.as_slice())?;
    let high = supply_pairs(alloc, tags, map.high())?;
    pairs.extend_from_slice(high.as_slice())?;
    let low = supply_pairs(alloc, tags, map.low())?;
    pairs.extend_from_slice(low.as_slice())?;
    Ok(pairs)
}

/// The nets, joined by the names that are bound at these spots.
pub(crate) fn join(
    alloc: Global,
    map: &LayerMap,
    traced: Traced,
    spots: &[Spot<'_>],
) -> Result<Traced, AllocError>
    requires { All (HasNode traced) spots.now }
    ensures { IfOk result (λ t. AreJoinedAt map.now spots.now traced t) }
{
    let tags = tags(alloc, &traced, spots)?;
    let pairs = joins(alloc, map, tags.as_slice())?;
    traced.joined(alloc, pairs.as_slice())
}
