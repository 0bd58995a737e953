//! The naming of the nets of a layout.

ghost use Rattle.std.specs.Prelude.{◌≡◌, ◌<◌, ◌^◌, IfOk, Err, length};
ghost use Rattle.layout_extract.specs.declared.refusal.LayoutRefusal.{LayoutRefusal};
ghost use Rattle.layout_extract.specs.Layouts.{IsNamed, RefusesNaming, IsNamedFrom, RefusesLayout};

use crate::bindings::bindings;
use crate::joins::join;
use crate::named::{Named, Tallies};
use crate::names::net_names;
use crate::refusal::LayoutRefusal;
use crate::tags::{count_bound, count_deep, count_unbound, first_ambiguous, spots};
use cif_flatten::{Flat, flatten};
use cif_reader::CifFile;
use layer_map::LayerMap;
use mask_algebra::evaluate;
use net_trace::trace;
use std::alloc::Global;

/// The named nets of a layout, as the definition `IsNamed` says. It is refused as `RefusesNaming` says: where there are
/// over 8,192 pieces, and then where a label is ambiguous.
pub(crate) fn name_layout(
    alloc: Global,
    map: &LayerMap,
    flat: &Flat,
) -> Result<Named, LayoutRefusal>
    requires { length flat.now.marks < 2 ^ 32 }
    ensures named { IfOk result (λ named. IsNamed map.now flat.now named) }
    ensures refused { (refusal : LayoutRefusal) → result ≡ Err refusal → RefusesNaming map.now flat.now refusal }
{
    let masks = evaluate(alloc, map, flat)?;
    let traced = trace(alloc, &masks, map)?;
    let marks = flat.marks();
    let bindings = bindings(alloc, &traced, map, marks)?;
    let bindings = bindings.as_slice();
    if let Some(pos) = first_ambiguous(marks, bindings) {
        return Err(LayoutRefusal::LabelAmbiguous(pos));
    }
    let spots = spots(alloc, marks, bindings)?;
    let spots = spots.as_slice();
    let joined = join(alloc, map, traced, spots)?;
    let names = net_names(alloc, &joined, spots)?;
    let tallies = Tallies {
        bound: count_bound(bindings) as u32,
        unbound: count_unbound(bindings) as u32,
        deep: count_deep(bindings) as u32,
    };
    Ok(Named::new(joined, masks, names, tallies))
}

/// The named nets of a file, as the definition `IsNamedFrom` says. The file is refused as `RefusesLayout` says: where it
/// does not unfold, where there are over 8,192 pieces, and where a label is ambiguous, in this order. Where no memory is
/// found, it gives `NoMemory`.
pub fn name_nets(alloc: Global, file: &CifFile, map: &LayerMap) -> Result<Named, LayoutRefusal>
    ensures named { IfOk result (λ named. IsNamedFrom file.now map.now named) }
    ensures refused { (refusal : LayoutRefusal) → result ≡ Err refusal → RefusesLayout file.now map.now refusal }
{
    let flat = flatten(alloc, file)?;
    name_layout(alloc, map, &flat)
}
