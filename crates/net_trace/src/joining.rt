//! Nets that are joined.

ghost use Rattle.std.specs.Prelude.{◌≡◌, ◌<◌, length, map, All, IfOk, OnOk, slice_index, slice_get, ◌++◌};
ghost use Rattle.net_trace.specs.Nets.{IsNetCount, IsJoinedBy};
ghost use Rattle.net_trace.specs.Wirings.{AreRenumbered, ArePicked, AreEndsOf};

use crate::node::Node;
use std::alloc::{AllocError, Global};
use switch_net::NetId;

/// The numbers of the nets of each pair.
pub(crate) fn numbers(
    alloc: Global,
    pairs: &[(NetId, NetId)],
) -> Result<Vec<(usize, usize)>, AllocError>
    ensures { IfOk result (λ v. v.items ≡ map (λ p. (p.0.0, p.1.0)) pairs.now) }
{
    pairs
        .iter()
        .map(|pair| (pair.0.0 as usize, pair.1.0 as usize))
        .collect(alloc)
}

/// Adds the least nodes of the nets of each pair.
pub(crate) fn add_ends(
    joins: &mut Vec<(Node, Node)>,
    roots: &[Node],
    pairs: &[(usize, usize)],
) -> Result<(), AllocError>
    requires { All (λ p. (p.0 < length roots.now) × (p.1 < length roots.now)) pairs.now }
    ensures { OnOk result (AreEndsOf roots.now pairs.now (length pairs.now) joins.old.items joins.new.items) }
{
    for (first, second) in pairs {
        joins.push((roots[*first], roots[*second]))?;
    }
    Ok(())
}

/// The numbers of the new nets, where `second` has the new number of each old one.
pub(crate) fn numbered(
    alloc: Global,
    label: &[usize],
    second: &[usize],
) -> Result<Vec<usize>, AllocError>
    requires { All (λ k. k < length second.now) label.now }
    ensures { IfOk result (λ v. AreRenumbered second.now label.now (length label.now) v.items) }
{
    let mut new = Vec::new(alloc);
    for k in label {
        new.push(second[*k])?;
    }
    Ok(new)
}

/// The nodes with these indices.
pub(crate) fn picked(
    alloc: Global,
    nodes: &[Node],
    indices: &[usize],
) -> Result<Vec<Node>, AllocError>
    requires { All (λ k. k < length nodes.now) indices.now }
    ensures { IfOk result (λ v. ArePicked nodes.now indices.now (length indices.now) v.items) }
{
    let mut new = Vec::new(alloc);
    for k in indices {
        new.push(nodes[*k])?;
    }
    Ok(new)
}
