//! To which nodes labels are bound.

ghost use Rattle.std.specs.Prelude.{◌≡◌, ◌^◌, IfOk, option_copied, find};
ghost use Rattle.std.specs.List.{All, AllZip};
ghost use Rattle.std.specs.Str.{bytes_eq};
ghost use Rattle.plane_geom.specs.Bounds.{IsPointWithin};
ghost use Rattle.layer_map.specs.Views.{numbers_seen};
ghost use Rattle.layout_extract.specs.Labels.{all_wires, tried_wires, is_near};
ghost use Rattle.layout_extract.specs.Binding.{IsBinding};

use crate::around::{Near, around, is_near};
use cif_flatten::Mark;
use layer_map::{LabelLine, LayerMap, WireId};
use net_trace::Traced;
use plane_geom::{Point, Short};
use std::alloc::{AllocError, Global};

/// To what a label is bound.
#[derive(Clone, Copy, Debug, PartialEq, Eq)]
pub(crate) enum Binding {
    /// It stands too deep to be bound.
    Deep,
    /// No wire that it tries has a node round its point.
    Unbound,
    /// The nodes of its wire lie in two or more pieces.
    Ambiguous,
    /// The nodes of its wire lie in one piece, and one lies at this cell.
    Bound(WireId, Point),
}

/// The wires, in the order of the map.
fn all_wires(alloc: Global, map: &LayerMap) -> Result<Vec<WireId>, AllocError>
    ensures { IfOk result (λ v. numbers_seen v.items ≡ all_wires map.now) }
{
    let mut all = Vec::new(alloc);
    for k in 0..map.wires().len() {
        all.push(WireId(k as u32))?;
    }
    Ok(all)
}

/// The line of the layer.
fn line_of(lines: &[LabelLine], layer: Short) -> Option<&LabelLine>
    ensures { option_copied result ≡ find (λ l. bytes_eq l.layer layer) lines.now }
{
    lines
        .iter()
        .find(|l| l.layer.as_bytes() == layer.as_bytes())
}

/// The wires that a label with this layer tries.
fn tried_wires<'a>(map: &'a LayerMap, all: &'a [WireId], layer: Option<Short>) -> &'a [WireId]
    requires { numbers_seen all.now ≡ all_wires map.now }
    ensures { numbers_seen result.now ≡ tried_wires map.now layer }
{
    let Some(layer) = layer else {
        return all;
    };
    match line_of(map.labels(), layer) {
        Some(line) => line.wires.as_slice(),
        None => all,
    }
}

/// The first of the wires that has a node round the point.
fn first_near(traced: &Traced, wires: &[WireId], at: &Point) -> Option<WireId>
    requires { IsPointWithin (2 ^ 24) at.now }
    ensures { result ≡ find (λ w. is_near traced.now at.now w.0) wires.now }
{
    wires.iter().find(|w| is_near(traced, **w, at)).copied()
}

/// To what the label is bound.
fn binding_of(traced: &Traced, map: &LayerMap, all: &[WireId], mark: &Mark) -> Binding
    requires all { numbers_seen all.now ≡ all_wires map.now }
    requires within { IsPointWithin (2 ^ 24) mark.now.at }
    ensures { IsBinding traced.now map.now mark.now result }
{
    if mark.depth >= 2 {
        return Binding::Deep;
    }
    let wires = tried_wires(map, all, mark.layer);
    let Some(wire) = first_near(traced, wires, &mark.at) else {
        return Binding::Unbound;
    };
    match around(traced, wire, &mark.at) {
        Near::Nothing => Binding::Unbound,
        Near::One(cell, _) => Binding::Bound(wire, cell),
        Near::Two => Binding::Ambiguous,
    }
}

/// To what each label is bound.
pub(crate) fn bindings(
    alloc: Global,
    traced: &Traced,
    map: &LayerMap,
    marks: &[Mark],
) -> Result<Vec<Binding>, AllocError>
    requires { All (λ m. IsPointWithin (2 ^ 24) m.at) marks.now }
    ensures { IfOk result (λ v. AllZip (IsBinding traced.now map.now) marks.now v.items) }
{
    let all = all_wires(alloc, map)?;
    let mut found = Vec::new(alloc);
    for mark in marks {
        found.push(binding_of(traced, map, all.as_slice(), mark))?;
    }
    Ok(found)
}
