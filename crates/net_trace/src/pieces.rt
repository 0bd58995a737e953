//! Pieces of regions.

ghost use Rattle.std.specs.Prelude.{◌≡◌, ◌≤◌, ◌^◌, length, false, IfOk, MatchOption};
ghost use Rattle.mask_region.specs.Strips.{AreRegionsWithin};
ghost use Rattle.net_trace.specs.Touching.{plane_of, has_node};
ghost use Rattle.net_trace.specs.Nets.{node_at, AreNetRoots, IsNetNumber};

use crate::node::Node;
use crate::tracing::{Labels, copies, labels_of};
use crate::wiring::Wiring;
use mask_region::Region;
use plane_geom::Point;
use std::alloc::{AllocError, Global};
use std::marker::Model;

/// The pieces of regions: classes of cells of one region that are linked by shared edges. Contracts see the plane whose
/// wires have the regions, with no cuts and where nothing is joined. Its nets are the pieces; there may be any number.
#[derive(Debug, Drop)]
pub struct Pieces {
    wiring: Wiring,
    /// The piece of each strip of the wiring.
    label: Vec<usize>,
    /// The least node of each piece.
    roots: Vec<Node>,
}

impl Model for Pieces {
    ghost use Rattle.std.specs.Prelude.{[]};
    ghost use Rattle.net_trace.specs.Touching.{Nets};
    ghost use Rattle.net_trace.specs.Wirings.{IsTraced, AreAllBanded};

    ghost Value = { Nets };

    ghost view = { λ p. record { wires = p.wiring; cuts = []; joins = [] } };

    ghost invariant = { λ p. AreAllBanded p.wiring × IsTraced (record { wires = p.wiring; cuts = []; joins = [] }) p.label.items p.roots.items };
}

/// The pieces of at most 16 regions, of which no coordinate is over 16,777,216 from 0. It fails only where no memory is
/// found.
pub fn pieces_of(alloc: Global, regions: &[Region]) -> Result<Pieces, AllocError>
    requires few { length regions.now ≤ 16 }
    requires within { AreRegionsWithin (2 ^ 24) regions.now }
    ensures { IfOk result (λ p. p ≡ plane_of regions.now) }
{
    let wiring = Wiring::new(alloc, copies(alloc, regions)?)?;
    let Labels { label, roots } = labels_of(alloc, &wiring, &[])?;
    Ok(Pieces {
        wiring,
        label,
        roots,
    })
}

impl Pieces {
    /// The least node of each piece, in the order of the pieces' numbers.
    pub fn roots(&self) -> &[Node]
        ensures { AreNetRoots self.now result.now }
    {
        self.roots.as_slice()
    }

    /// The number of the piece that has the cell of the region; `None` where the region has no such cell.
    pub fn piece_at(&self, region: u32, cell: Point) -> Option<usize>
        ensures { MatchOption result (has_node self.now region cell.x cell.y ≡ false) (λ n. IsNetNumber self.now (node_at region cell.x cell.y) n) }
    {
        let index = self.wiring.index_at(region, cell)?;
        Some(self.label[index])
    }
}
