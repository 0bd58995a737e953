//! The strips of all wires.

ghost use Rattle.std.specs.Prelude.{◌≡◌, ℕ, ◌≤◌, ◌^◌, ◌++◌, ◌&&◌, false, None, IfOk, IfSome, OnOk, MatchOption, length, slice_get};
ghost use Rattle.mask_region.specs.Strips.{Banded, AreRegionsWithin};
ghost use Rattle.net_trace.specs.Touching.{is_in_wire};
ghost use Rattle.net_trace.specs.Nets.{node_at};
ghost use Rattle.net_trace.specs.Wirings.{corner, strips_of, vertices_of, AreStarts, AreAllBanded, IsVertexAt};

use crate::node::Node;
use mask_region::{Region, Strip};
use plane_geom::Point;
use std::alloc::{AllocError, Global};
use std::marker::Model;

/// A strip of a wire.
#[derive(Clone, Copy, Debug, PartialEq, Eq)]
pub(crate) struct Vertex {
    pub wire: u32,
    pub strip: Strip,
}

impl Vertex {
    /// The least node of the strip.
    pub(crate) fn corner(&self) -> Node
        ensures { result ≡ corner self.now }
    {
        Node {
            wire: self.wire,
            x: self.strip.x0,
            y: self.strip.y0,
        }
    }
}

/// The regions of all wires. Contracts see them as a list of lists of strips.
#[derive(Debug, Drop)]
pub(crate) struct Wiring {
    wires: Vec<Region>,
    /// The strips of all wires, wire by wire.
    vertices: Vec<Vertex>,
    /// The index of the first strip of each wire.
    starts: Vec<usize>,
}

impl Model for Wiring {
    ghost use Rattle.std.specs.Prelude.{◌≡◌, ◌≤◌, ◌^◌, List, length};
    ghost use Rattle.mask_region.specs.declared.strips.Strip.{Strip};
    ghost use Rattle.mask_region.specs.Strips.{AreRegionsWithin};
    ghost use Rattle.net_trace.specs.Wirings.{vertices_of, AreStarts, AreAllBanded};

    ghost Value = { List (List Strip) };

    ghost view = { λ w. w.wires.items };

    ghost invariant = { λ w. (length w.wires.items ≤ 16) × (w.vertices.items ≡ vertices_of 0 w.wires.items) × AreStarts w.wires.items w.starts.items (length w.wires.items) × AreAllBanded w.wires.items × AreRegionsWithin (2 ^ 24) w.wires.items };
}

impl Wiring {
    /// The wires with these regions.
    pub(crate) fn new(alloc: Global, wires: Vec<Region>) -> Result<Wiring, AllocError>
        requires few { length wires.items ≤ 16 }
        requires within { AreRegionsWithin (2 ^ 24) wires.items }
        ensures { IfOk result (λ w. w ≡ wires.items) }
    {
        let mut vertices = Vec::new(alloc);
        let mut starts = Vec::new(alloc);
        for (wire, region) in wires.iter().enumerate() {
            starts.push(vertices.len())?;
            add_strips(&mut vertices, wire as u32, region)?;
        }
        Ok(Wiring {
            wires,
            vertices,
            starts,
        })
    }

    /// The regions of the wires.
    pub(crate) fn wires(&self) -> &[Region]
        ensures same { result.now ≡ self.now }
        ensures few { length self.now ≤ 16 }
        ensures banded { AreAllBanded self.now }
        ensures within { AreRegionsWithin (2 ^ 24) self.now }
    {
        self.wires.as_slice()
    }

    /// The strips of all wires, wire by wire.
    pub(crate) fn vertices(&self) -> &[Vertex]
        ensures same { result.now ≡ vertices_of 0 self.now }
        ensures banded { AreAllBanded self.now }
    {
        self.vertices.as_slice()
    }

    /// The index of the strip that has the cell on the wire; `None` where the wire has no node there.
    pub(crate) fn index_at(&self, wire: u32, cell: Point) -> Option<usize>
        ensures { MatchOption result (is_in_wire (slice_get self.now wire) cell.x cell.y ≡ false) (λ i. IsVertexAt (vertices_of 0 self.now) (node_at wire cell.x cell.y) i) }
    {
        let region = self.wires.get(wire as usize)?;
        let k = region.strip_at(cell)?;
        Some(self.starts[wire as usize] + k)
    }

    /// The indices of the strips that have the cell on the two wires; `None` where one of them has no node there.
    pub(crate) fn pair_at(&self, first: u32, second: u32, cell: Point) -> Option<(usize, usize)>
        ensures none { result ≡ None → (is_in_wire (slice_get self.now first) cell.x cell.y && is_in_wire (slice_get self.now second) cell.x cell.y) ≡ false }
        ensures first { IfSome result (λ pair. IsVertexAt (vertices_of 0 self.now) (node_at first cell.x cell.y) pair.0) }
        ensures second { IfSome result (λ pair. IsVertexAt (vertices_of 0 self.now) (node_at second cell.x cell.y) pair.1) }
    {
        let lower = self.index_at(first, cell)?;
        let upper = self.index_at(second, cell)?;
        Some((lower, upper))
    }
}

/// Adds the strips of a wire.
fn add_strips(vertices: &mut Vec<Vertex>, wire: u32, region: &Region) -> Result<(), AllocError>
    ensures added { OnOk result (vertices.new.items ≡ vertices.old.items ++ strips_of wire region.now) }
    ensures banded { Banded region.now }
{
    for strip in region.strips() {
        vertices.push(Vertex {
            wire,
            strip: *strip,
        })?;
    }
    Ok(())
}
