//! The names of nets.

ghost use Rattle.std.specs.Prelude.{◌≡◌, ℕ, ◌<◌, List, Some, IfOk, All, length, slice_get, slice_index_or, option_copied, None};
ghost use Rattle.std.specs.List.{AllZip};
ghost use Rattle.layout_extract.specs.Tags.{lesser_name, HasNode, IsLeast, IsNameBy, IsKept, AreNamesAt, name_or};

use crate::named::{BoundName, NetNames};
use crate::tags::{Spot, Tag, tags};
use itoa::Buffer;
use net_trace::Traced;
use plane_geom::Label;
use std::alloc::{AllocError, Global};

/// The one of two names that comes first by bytes.
fn lesser_name<'a>(first: Option<&'a Label>, name: &'a Label) -> &'a Label
    ensures { result.now ≡ lesser_name (option_copied first.entry) name.now }
{
    match first {
        None => name,
        Some(first) if name.as_bytes().cmp(first.as_bytes()).is_lt() => name,
        Some(first) => first,
    }
}

/// The first by bytes of the names that are bound to each net.
fn least_names<'a>(
    alloc: Global,
    tags: &[Tag<'a>],
    count: usize,
) -> Result<Vec<Option<&'a Label>>, AllocError>
    requires { All (λ t. t.net.0 < count) tags.now }
    ensures each { IfOk result (λ v. length v.items ≡ count) }
    ensures least { IfOk result (λ v. (net : ℕ) → net < count → IsLeast tags.now (length tags.now) net (option_copied (slice_index_or v.items net None))) }
{
    let mut least = vec![in alloc; None; count]?;
    for tag in tags {
        let net = tag.net.0 as usize;
        least[net] = Some(lesser_name(least[net], tag.name));
    }
    Ok(least)
}

/// The name of the net of this number: the first of its bound names, else `#` and the number.
fn net_name(alloc: Global, number: usize, first: Option<&Label>) -> Result<Label, AllocError>
    ensures { IfOk result (λ name. name ≡ name_or number (option_copied first.entry)) }
{
    if let Some(name) = first {
        return Label::new(alloc, name.as_bytes());
    }
    let mut text = Vec::new(alloc);
    text.push(b'#')?;
    text.extend_from_slice(Buffer::new().format(number).as_bytes())?;
    Label::new(alloc, text.as_slice())
}

/// The names of so many nets.
fn named(alloc: Global, tags: &[Tag<'_>], count: usize) -> Result<Vec<Label>, AllocError>
    requires { All (λ t. t.net.0 < count) tags.now }
    ensures each { IfOk result (λ v. length v.items ≡ count) }
    ensures named { IfOk result (λ v. (net : ℕ) (name : List ℕ) → slice_get v.items net ≡ Some name → IsNameBy tags.now net name) }
{
    let least = least_names(alloc, tags, count)?;
    let mut names = Vec::new(alloc);
    for (number, first) in least.iter().enumerate() {
        names.push(net_name(alloc, number, *first)?)?;
    }
    Ok(names)
}

/// The names of the tags, each with its net.
fn kept(alloc: Global, tags: &[Tag<'_>]) -> Result<Vec<BoundName>, AllocError>
    ensures { IfOk result (λ v. AllZip IsKept tags.now v.items) }
{
    let mut kept = Vec::new(alloc);
    for tag in tags {
        let name = Label::new(alloc, tag.name.as_bytes())?;
        kept.push(BoundName { net: tag.net, name })?;
    }
    Ok(kept)
}

/// The names of the nets, by what is bound at these spots.
pub(crate) fn net_names(
    alloc: Global,
    traced: &Traced,
    spots: &[Spot<'_>],
) -> Result<NetNames, AllocError>
    requires { All (HasNode traced.now) spots.now }
    ensures { IfOk result (λ n. AreNamesAt spots.now traced.now n.names.items n.bound.items) }
{
    let tags = tags(alloc, traced, spots)?;
    let names = named(alloc, tags.as_slice(), traced.count() as usize)?;
    let bound = kept(alloc, tags.as_slice())?;
    Ok(NetNames { names, bound })
}
