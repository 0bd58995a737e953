//! The list of transistors.

ghost use Rattle.std.specs.Prelude.{◌≡◌, length, IfOk};
ghost use Rattle.std.specs.List.{All};
ghost use Rattle.device_extract.specs.Contacts.{HasGate, HasPair, IsFetAt, AreFetsAt};

use crate::terminals::Ends;
use layer_map::LayerMap;
use net_trace::{Node, Traced};
use plane_geom::Point;
use std::alloc::{AllocError, Global};
use switch_net::Fet;

/// The transistors with these least cells and terminals.
pub(crate) fn fets(
    alloc: Global,
    map: &LayerMap,
    traced: &Traced,
    roots: &[Node],
    ends: &[Ends],
) -> Result<Vec<Fet>, AllocError>
    requires gates { All (HasGate map.now traced.now) roots.now }
    requires each { length ends.now ≡ length roots.now }
    requires pairs { All HasPair ends.now }
    ensures { IfOk result (λ v. AreFetsAt map.now traced.now roots.now ends.now (length roots.now) v.items) }
{
    let mut fets = Vec::new(alloc);
    for (t, root) in roots.iter().enumerate() {
        fets.push(fet_at(map, traced, root, ends[t]))?;
    }
    Ok(fets)
}

/// The transistor with this least cell and these terminals.
fn fet_at(map: &LayerMap, traced: &Traced, root: &Node, ends: Ends) -> Fet
    requires gate { HasGate map.now traced.now root.now }
    requires pair { HasPair ends }
    ensures { IsFetAt map.now traced.now root.now ends result }
{
    let line = &map.fets()[root.wire as usize];
    let gate = traced.net_at(line.gate, cell_of(root)).unwrap();
    let (a, b) = ends.pair().unwrap();
    Fet {
        kind: line.kind,
        gate,
        a,
        b,
    }
}

/// The cell of the node.
pub(crate) fn cell_of(node: &Node) -> Point
    ensures x { result.x ≡ node.now.x }
    ensures y { result.y ≡ node.now.y }
{
    Point {
        x: node.x as i64,
        y: node.y as i64,
    }
}
