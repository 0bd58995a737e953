//! Traced nets.

ghost use Rattle.std.specs.Prelude.{◌≡◌, ℕ, ◌<◌, ◌≤◌, ◌^◌, length, map, All, IfOk, MatchOption, false};
ghost use Rattle.mask_region.specs.Strips.{AreRegionsWithin};
ghost use Rattle.net_trace.specs.Touching.{has_node};
ghost use Rattle.net_trace.specs.Nets.{node_at, IsNetCount, IsNetNumber, IsRegionOf, AreRegionsOf, IsJoinedBy};
ghost use Rattle.net_trace.specs.Wirings.{IsTraced};

use crate::cuts::CutArea;
use crate::joining::{add_ends, numbered, numbers, picked};
use crate::node::Node;
use crate::parts::parts;
use crate::wiring::Wiring;
use layer_map::WireId;
use link_classes::classes_of;
use mask_region::Region;
use plane_geom::Point;
use std::alloc::{AllocError, Global};
use std::marker::Model;
use switch_net::NetId;

/// The nets of a layout. Contracts see what they are of: the cells of each wire, the cuts, and the pairs of nodes that are
/// joined. It has at most 16 wires and at most 8,192 nets.
#[derive(Debug, Drop)]
pub struct Traced {
    wiring: Wiring,
    cuts: Vec<CutArea>,
    joins: Vec<(Node, Node)>,
    /// The net of each strip of the wiring.
    label: Vec<usize>,
    /// The least node of each net.
    roots: Vec<Node>,
    /// The cells of each net on each wire, net by net.
    regions: Vec<Region>,
}

impl Model for Traced {
    ghost use Rattle.std.specs.Prelude.{◌≤◌, ◌^◌, length};
    ghost use Rattle.mask_region.specs.Strips.{AreRegionsWithin};
    ghost use Rattle.net_trace.specs.Touching.{Nets};
    ghost use Rattle.net_trace.specs.Wirings.{IsTraced, AreAllBanded, AreParts, vertices_of};

    ghost Value = { Nets };

    ghost view = { λ t. record { wires = t.wiring; cuts = t.cuts.items; joins = t.joins.items } };

    ghost invariant = { λ t. AreAllBanded t.wiring × (length t.wiring ≤ 16) × (length t.roots.items ≤ 8192) × IsTraced (record { wires = t.wiring; cuts = t.cuts.items; joins = t.joins.items }) t.label.items t.roots.items × AreParts (vertices_of 0 t.wiring) t.label.items (length t.roots.items) (length t.wiring) (length (vertices_of 0 t.wiring)) t.regions.items × AreRegionsWithin (2 ^ 24) t.regions.items };
}

impl Traced {
    /// The nets with these least nodes, where `label` has the net of each strip.
    pub(crate) fn new(
        alloc: Global,
        wiring: Wiring,
        cuts: Vec<CutArea>,
        joins: Vec<(Node, Node)>,
        label: Vec<usize>,
        roots: Vec<Node>,
    ) -> Result<Traced, AllocError>
        requires few { length roots.items ≤ 8192 }
        requires traced { IsTraced (record { wires = wiring; cuts = cuts.items; joins = joins.items }) label.items roots.items }
        ensures { IfOk result (λ t. t ≡ record { wires = wiring; cuts = cuts.items; joins = joins.items }) }
    {
        let nets = roots.len();
        let wires = wiring.wires().len();
        let regions = parts(alloc, nets, wires, wiring.vertices(), label.as_slice())?;
        Ok(Traced {
            wiring,
            cuts,
            joins,
            label,
            roots,
            regions,
        })
    }

    /// How many nets there are.
    pub fn count(&self) -> u32
        ensures is { IsNetCount self.now result }
        ensures most { result ≤ 8192 }
    {
        self.roots.len() as u32
    }

    /// How many wires there are.
    pub fn wires(&self) -> u32
        ensures is { result ≡ length self.now.wires }
        ensures most { result ≤ 16 }
    {
        self.wiring.wires().len() as u32
    }

    /// The net of the wire's node at the cell; `None` where the wire has no node there.
    pub fn net_at(&self, wire: WireId, cell: Point) -> Option<NetId>
        ensures { MatchOption result (has_node self.now wire.0 cell.x cell.y ≡ false) (λ n. IsNetNumber self.now (node_at wire.0 cell.x cell.y) n.0) }
    {
        let index = self.wiring.index_at(wire.0, cell)?;
        Some(NetId(self.label[index] as u32))
    }

    /// The cells of the net on the wire. Both are in range.
    pub fn region(&self, net: NetId, wire: WireId) -> &Region
        requires net { (n : ℕ) → IsNetCount self.now n → net.0 < n }
        requires wire { wire.0 < length self.now.wires }
        ensures { IsRegionOf self.now net.0 wire.0 result.now }
    {
        &self.regions[net.0 as usize * self.wiring.wires().len() + wire.0 as usize]
    }

    /// The cells of each net on each wire: those of net 0 in the order of the wires, then those of net 1, and so on.
    pub fn regions(&self) -> &[Region]
        ensures of { AreRegionsOf self.now result.now }
        ensures within { AreRegionsWithin (2 ^ 24) result.now }
    {
        self.regions.as_slice()
    }

    /// The same nets, where the two nets of each pair are joined, and all are numbered anew. The numbers are in range.
    /// It fails only where no memory is found.
    pub fn joined(self, alloc: Global, pairs: &[(NetId, NetId)]) -> Result<Traced, AllocError>
        requires { (n : ℕ) → IsNetCount self n → All (λ p. (p.0.0 < n) × (p.1.0 < n)) pairs.now }
        ensures { IfOk result (λ t. IsJoinedBy self (map (λ p. (p.0.0, p.1.0)) pairs.now) t) }
    {
        let Traced {
            wiring,
            cuts,
            mut joins,
            label,
            roots,
            regions: _,
        } = self;
        let pairs = numbers(alloc, pairs)?;
        let found = classes_of(alloc, roots.len(), pairs.as_slice())?;
        add_ends(&mut joins, roots.as_slice(), pairs.as_slice())?;
        let label = numbered(alloc, label.as_slice(), found.label.as_slice())?;
        let roots = picked(alloc, roots.as_slice(), found.least.as_slice())?;
        Traced::new(alloc, wiring, cuts, joins, label, roots)
    }
}
