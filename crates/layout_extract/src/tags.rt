//! Labels that are bound, and the nets to which they are bound.

ghost use Rattle.std.specs.Prelude.{◌≡◌, true, IfOk, MatchOption, All, length, count_by};
ghost use Rattle.std.specs.List.{AllZip};
ghost use Rattle.layout_extract.specs.Tags.{first_with, AreSpotsOf, HasNoAmbiguous, HasAmbiguousAt, HasNode, IsTagOf, is_deep, is_unbound, is_bound};

use crate::bindings::Binding;
use cif_flatten::Mark;
use layer_map::WireId;
use net_trace::Traced;
use plane_geom::{Label, Point};
use std::alloc::{AllocError, Global};
use switch_net::NetId;

/// The name of a label that is bound, and a node to which it is bound.
#[derive(Clone, Copy, Debug)]
pub(crate) struct Spot<'a> {
    pub(crate) name: &'a Label,
    pub(crate) wire: WireId,
    pub(crate) cell: Point,
}

/// The name of a label that is bound, and the net to which it is bound.
#[derive(Clone, Copy, Debug)]
pub(crate) struct Tag<'a> {
    pub(crate) name: &'a Label,
    pub(crate) net: NetId,
}

/// The least position of an ambiguous label.
pub(crate) fn first_ambiguous(marks: &[Mark], bindings: &[Binding]) -> Option<u64>
    requires { length marks.now ≡ length bindings.now }
    ensures { MatchOption result (HasNoAmbiguous bindings.now (length marks.now)) (HasAmbiguousAt marks.now bindings.now (length marks.now)) }
{
    let mut first = None;
    for (k, mark) in marks.iter().enumerate() {
        first = first_with(first, bindings[k], mark.pos);
    }
    first
}

/// The first position, and this one where its label is ambiguous.
fn first_with(first: Option<u64>, binding: Binding, pos: u64) -> Option<u64>
    ensures { result ≡ first_with first binding pos }
{
    match (first, binding) {
        (Some(first), Binding::Ambiguous) if first <= pos => Some(first),
        (_, Binding::Ambiguous) => Some(pos),
        (first, _) => first,
    }
}

/// The labels that are bound, each at one node.
pub(crate) fn spots<'a>(
    alloc: Global,
    marks: &'a [Mark],
    bindings: &[Binding],
) -> Result<Vec<Spot<'a>>, AllocError>
    requires { length marks.now ≡ length bindings.now }
    ensures { IfOk result (λ v. AreSpotsOf marks.now bindings.now (length marks.now) v.items) }
{
    let mut spots = Vec::new(alloc);
    for (k, mark) in marks.iter().enumerate() {
        if let Binding::Bound(wire, cell) = bindings[k] {
            spots.push(Spot {
                name: &mark.name,
                wire,
                cell,
            })?;
        }
    }
    Ok(spots)
}

/// How many labels stand too deep to be bound.
pub(crate) fn count_deep(bindings: &[Binding]) -> usize
    ensures { result ≡ count_by is_deep bindings.now }
{
    bindings
        .iter()
        .filter(|b| matches!(b, Binding::Deep))
        .count()
}

/// How many labels are not bound, though they stand high enough.
pub(crate) fn count_unbound(bindings: &[Binding]) -> usize
    ensures { result ≡ count_by is_unbound bindings.now }
{
    bindings
        .iter()
        .filter(|b| matches!(b, Binding::Unbound))
        .count()
}

/// How many labels have a wire.
pub(crate) fn count_bound(bindings: &[Binding]) -> usize
    ensures { result ≡ count_by is_bound bindings.now }
{
    bindings
        .iter()
        .filter(|b| matches!(b, Binding::Bound(_, _) | Binding::Ambiguous))
        .count()
}

/// The nets to which labels are bound.
pub(crate) fn tags<'a>(
    alloc: Global,
    traced: &Traced,
    spots: &[Spot<'a>],
) -> Result<Vec<Tag<'a>>, AllocError>
    requires { All (HasNode traced.now) spots.now }
    ensures { IfOk result (λ v. AllZip (IsTagOf traced.now) spots.now v.items) }
{
    let mut tags = Vec::new(alloc);
    for spot in spots {
        if let Some(net) = traced.net_at(spot.wire, spot.cell) {
            tags.push(Tag {
                name: spot.name,
                net,
            })?;
        }
    }
    Ok(tags)
}
