//! The regions of nets.

ghost use Rattle.std.specs.Prelude.{◌≡◌, ◌<◌, ◌≤◌, length, IfOk};
ghost use Rattle.std.specs.List.{All};
ghost use Rattle.net_trace.specs.Wirings.{AreOrdered, AreEmpty, AreParts};

use crate::wiring::Vertex;
use mask_region::Region;
use std::alloc::{AllocError, Global};

/// The regions of all nets, one for each net and wire, where `label` has the net of each strip.
pub(crate) fn parts(
    alloc: Global,
    nets: usize,
    wires: usize,
    vertices: &[Vertex],
    label: &[usize],
) -> Result<Vec<Region>, AllocError>
    requires few_nets { nets ≤ 8192 }
    requires few_wires { wires ≤ 16 }
    requires ordered { AreOrdered vertices.now }
    requires each { length label.now ≡ length vertices.now }
    requires labels { All (λ n. n < nets) label.now }
    requires of_wires { All (λ v. v.wire < wires) vertices.now }
    ensures { IfOk result (λ regions. AreParts vertices.now label.now nets wires (length vertices.now) regions.items) }
{
    let mut regions = empty_regions(alloc, nets * wires)?;
    for (i, vertex) in vertices.iter().enumerate() {
        regions[label[i] * wires + vertex.wire as usize].push(vertex.strip)?;
    }
    Ok(regions)
}

/// So many regions with no cell.
fn empty_regions(alloc: Global, count: usize) -> Result<Vec<Region>, AllocError>
    ensures { IfOk result (λ regions. AreEmpty count regions.items) }
{
    let mut regions = Vec::new(alloc);
    for _ in 0..count {
        regions.push(Region::empty(alloc))?;
    }
    Ok(regions)
}
