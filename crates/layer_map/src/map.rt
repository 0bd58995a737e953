//! Layer maps.

use crate::expr::Expr;
use plane_geom::{Label, Short};
use std::alloc::Global;
use std::marker::Model;
use switch_net::Kind;

/// A wire, by its place among the wires of its map, from 0.
#[derive(Clone, Copy, Debug, PartialEq, Eq)]
pub struct WireId(pub u32);

/// A wire: it has a node at each cell where the expression is true.
#[derive(Debug, Drop)]
pub struct WireLine {
    pub name: Label,
    pub expr: Expr,
}

/// A cut: it links the nodes of its wires at each cell where the expression is true.
#[derive(Debug, Drop)]
pub struct CutLine {
    pub expr: Expr,
    pub wires: Vec<WireId>,
}

/// A kind of transistors: their channels are the cells where the expression is true. Their gates are on one wire, their
/// other terminals on another.
#[derive(Debug, Drop)]
pub struct FetLine {
    pub kind: Kind,
    pub channel: Expr,
    pub gate: WireId,
    pub diff: WireId,
}

/// The wires that a label on this layer names, the first one that is there.
#[derive(Debug, Drop)]
pub struct LabelLine {
    pub layer: Short,
    pub wires: Vec<WireId>,
}

/// A layer map, as it is read: its lines in the order of the text, and the names of the two supplies. Contracts see plain
/// lists, by `Plan`. Each map keeps `IsKeptMap`: it has at most 16 wires and 8 kinds of transistors, the numbers of wires
/// are in range and their lists not empty, no two label lines are of one layer, and no expression is true where no layer
/// is present.
#[derive(Debug, Drop)]
pub struct LayerMap {
    pub(crate) wires: Vec<WireLine>,
    pub(crate) cuts: Vec<CutLine>,
    pub(crate) fets: Vec<FetLine>,
    pub(crate) labels: Vec<LabelLine>,
    pub(crate) high: Vec<Label>,
    pub(crate) low: Vec<Label>,
}

impl Model for LayerMap {
    ghost use Rattle.std.specs.Prelude.{map};
    ghost use Rattle.std.specs.Coded.{codes};
    ghost use Rattle.layer_map.specs.Codes.{formula_code};
    ghost use Rattle.layer_map.specs.Plan.{Plan, IsKeptMap};
    ghost use Rattle.layer_map.specs.Views.{wire_seen, cut_seen, fet_seen, label_seen};

    ghost Value = { Plan };

    ghost coded = { Prim.hlevel (codes, formula_code) };

    ghost view = { λ m. record { wires = map wire_seen m.wires.items; cuts = map cut_seen m.cuts.items; fets = map fet_seen m.fets.items; labels = map label_seen m.labels.items; high = m.high.items; low = m.low.items } };

    ghost invariant = { λ m. IsKeptMap (record { wires = map wire_seen m.wires.items; cuts = map cut_seen m.cuts.items; fets = map fet_seen m.fets.items; labels = map label_seen m.labels.items; high = m.high.items; low = m.low.items }) };
}

impl LayerMap {
    ghost use Rattle.std.specs.Prelude.{◌≡◌, [], map};
    ghost use Rattle.layer_map.specs.Plan.{IsKeptMap, map_of};
    ghost use Rattle.layer_map.specs.Views.{wire_seen, cut_seen, fet_seen, label_seen};

    /// A map with no lines.
    pub(crate) fn empty(alloc: Global) -> LayerMap
        ensures { result ≡ map_of [] }
    {
        LayerMap {
            wires: Vec::new(alloc),
            cuts: Vec::new(alloc),
            fets: Vec::new(alloc),
            labels: Vec::new(alloc),
            high: Vec::new(alloc),
            low: Vec::new(alloc),
        }
    }

    /// The wires, in the order of their numbers.
    pub fn wires(&self) -> &[WireLine]
        ensures same { map wire_seen result.now ≡ self.now.wires }
        ensures kept { IsKeptMap self.now }
    {
        self.wires.as_slice()
    }

    /// The cuts.
    pub fn cuts(&self) -> &[CutLine]
        ensures same { map cut_seen result.now ≡ self.now.cuts }
        ensures kept { IsKeptMap self.now }
    {
        self.cuts.as_slice()
    }

    /// The kinds of transistors.
    pub fn fets(&self) -> &[FetLine]
        ensures same { map fet_seen result.now ≡ self.now.fets }
        ensures kept { IsKeptMap self.now }
    {
        self.fets.as_slice()
    }

    /// The wires of labels, by their layers.
    pub fn labels(&self) -> &[LabelLine]
        ensures same { map label_seen result.now ≡ self.now.labels }
        ensures kept { IsKeptMap self.now }
    {
        self.labels.as_slice()
    }

    /// The names of the high supply.
    pub fn high(&self) -> &[Label]
        ensures { result.now ≡ self.now.high }
    {
        self.high.as_slice()
    }

    /// The names of the low supply.
    pub fn low(&self) -> &[Label]
        ensures { result.now ≡ self.now.low }
    {
        self.low.as_slice()
    }
}
