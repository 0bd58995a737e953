//! The tracing of nets.

ghost use Rattle.std.specs.Prelude.{◌≡◌, ◌<◌, [], length, All, IfOk, Err};
ghost use Rattle.net_trace.specs.Touching.{traced_nets};
ghost use Rattle.net_trace.specs.Nets.{HasMoreNets};
ghost use Rattle.net_trace.specs.Wirings.{AreCorners, AreAllBanded, IsTraced};

use crate::cuts::{CutArea, cut_areas};
use crate::node::Node;
use crate::refusal::TraceRefusal;
use crate::ties::edges;
use crate::traced::Traced;
use crate::wiring::{Vertex, Wiring};
use layer_map::LayerMap;
use link_classes::{Classes, classes_of};
use mask_region::{Masks, Region};
use std::alloc::{AllocError, Global};

/// The most nets that a layout may have before any are joined.
const MOST_NETS: usize = 8192;

/// The nets of the wires and cuts of a map with these masks, where nothing is joined. The masks have one region for each
/// line of the map. It is refused exactly where there are over 8,192 nets, but for a want of memory, where it gives
/// `NoMemory`.
pub fn trace(alloc: Global, masks: &Masks, map: &LayerMap) -> Result<Traced, TraceRefusal>
    requires wires { length masks.now.wires ≡ length map.now.wires }
    requires cuts { length masks.now.cuts ≡ length map.now.cuts }
    requires channels { length masks.now.channels ≡ length map.now.fets }
    ensures traced { IfOk result (λ t. t ≡ traced_nets map.now masks.now) }
    ensures few { IfOk result (λ t. HasMoreNets t 8192 → ⊥) }
    ensures many { result ≡ Err TraceRefusal.TooManyNets → HasMoreNets (traced_nets map.now masks.now) 8192 }
{
    let cuts = cut_areas(alloc, masks.cuts(), map.cuts())?;
    let wiring = Wiring::new(alloc, copies(alloc, masks.wires())?)?;
    let Labels { label, roots } = labels_of(alloc, &wiring, cuts.as_slice())?;
    if roots.len() > MOST_NETS {
        return Err(TraceRefusal::TooManyNets);
    }
    Ok(Traced::new(alloc, wiring, cuts, Vec::new(alloc), label, roots)?)
}

/// The nets of wires and cuts, where nothing is joined: the net of each strip of the wires, and the least node of each net.
#[derive(Debug, Drop)]
pub(crate) struct Labels {
    pub label: Vec<usize>,
    pub roots: Vec<Node>,
}

/// The nets of the wires and cuts, where nothing is joined.
pub(crate) fn labels_of(
    alloc: Global,
    wiring: &Wiring,
    cuts: &[CutArea],
) -> Result<Labels, AllocError>
    ensures traced { IfOk result (λ l. IsTraced (record { wires = wiring.now; cuts = cuts.now; joins = [] }) l.label.items l.roots.items) }
    ensures banded { IfOk result (λ _. AreAllBanded wiring.now) }
{
    let pairs = edges(alloc, wiring, cuts)?;
    let Classes { label, least } = classes_of(alloc, wiring.vertices().len(), pairs.as_slice())?;
    let roots = corners(alloc, wiring.vertices(), least.as_slice())?;
    Ok(Labels { label, roots })
}

/// The same regions once more.
pub(crate) fn copies(alloc: Global, regions: &[Region]) -> Result<Vec<Region>, AllocError>
    ensures { IfOk result (λ v. v.items ≡ regions.now) }
{
    let mut copies = Vec::new(alloc);
    for region in regions {
        copies.push(region.copy(alloc)?)?;
    }
    Ok(copies)
}

/// The least nodes of the strips with these indices.
fn corners(alloc: Global, vertices: &[Vertex], indices: &[usize]) -> Result<Vec<Node>, AllocError>
    requires { All (λ k. k < length vertices.now) indices.now }
    ensures { IfOk result (λ nodes. AreCorners vertices.now indices.now (length indices.now) nodes.items) }
{
    let mut nodes = Vec::new(alloc);
    for k in indices {
        nodes.push(vertices[*k].corner())?;
    }
    Ok(nodes)
}
