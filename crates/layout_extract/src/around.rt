//! What of a wire lies round a point.

ghost use Rattle.std.specs.Prelude.{◌≡◌, ◌^◌, length};
ghost use Rattle.std.specs.List.{list_any};
ghost use Rattle.plane_geom.specs.Bounds.{IsPointWithin};
ghost use Rattle.net_trace.specs.Touching.{has_node};
ghost use Rattle.layout_extract.specs.Labels.{cells_round, is_near};
ghost use Rattle.layout_extract.specs.Binding.{IsAround, more};

use layer_map::WireId;
use net_trace::Traced;
use plane_geom::Point;
use switch_net::NetId;

/// The nodes of a wire at some cells.
#[derive(Clone, Copy, Debug, PartialEq, Eq)]
pub(crate) enum Near {
    /// There is none.
    Nothing,
    /// They are of this net, and one lies at this cell.
    One(Point, NetId),
    /// They are of two or more nets.
    Two,
}

/// The four cells round a point.
fn cells_round(at: &Point) -> [Point; 4]
    requires { IsPointWithin (2 ^ 24) at.now }
    ensures { result ≡ cells_round at.now }
{
    let (left, right) = (at.x - 1, at.x);
    let (below, above) = (at.y - 1, at.y);
    [
        Point { x: left, y: below },
        Point { x: right, y: below },
        Point { x: left, y: above },
        Point { x: right, y: above },
    ]
}

/// Whether the wire has a node at the cell.
fn has_node(traced: &Traced, wire: WireId, cell: Point) -> bool
    ensures { result ≡ has_node traced.now wire.0 cell.x cell.y }
{
    traced.net_at(wire, cell).is_some()
}

/// Whether the wire has a node at one of the cells.
fn has_some(traced: &Traced, wire: WireId, cells: &[Point]) -> bool
    ensures { result ≡ list_any (λ c. has_node traced.now wire.0 c.x c.y) cells.now }
{
    cells.iter().any(|cell| has_node(traced, wire, *cell))
}

/// Whether the wire has a node at one of the four cells round the point.
pub(crate) fn is_near(traced: &Traced, wire: WireId, at: &Point) -> bool
    requires { IsPointWithin (2 ^ 24) at.now }
    ensures { result ≡ is_near traced.now at.now wire.0 }
{
    has_some(traced, wire, &cells_round(at))
}

/// The nodes of the wire at the cells.
fn nodes_at(traced: &Traced, wire: WireId, cells: &[Point]) -> Near
    ensures { IsAround traced.now wire.0 cells.now (length cells.now) result }
{
    let mut near = Near::Nothing;
    for cell in cells {
        near = near.and(*cell, traced.net_at(wire, *cell));
    }
    near
}

/// The nodes of the wire at the four cells round the point.
pub(crate) fn around(traced: &Traced, wire: WireId, at: &Point) -> Near
    requires { IsPointWithin (2 ^ 24) at.now }
    ensures { IsAround traced.now wire.0 (cells_round at.now) 4 result }
{
    nodes_at(traced, wire, &cells_round(at))
}

impl Near {
    /// These and the node of this net at the cell, if there is one.
    fn and(self, cell: Point, net: Option<NetId>) -> Near
        ensures { result ≡ more self cell net }
    {
        match (self, net) {
            (near, None) => near,
            (Near::Nothing, Some(net)) => Near::One(cell, net),
            (Near::One(first, other), Some(net)) if other == net => Near::One(first, other),
            _ => Near::Two,
        }
    }
}
