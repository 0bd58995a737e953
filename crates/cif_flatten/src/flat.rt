//! What is left of a layout when its calls are unfolded, in mask units.

ghost use Rattle.std.specs.Prelude.{◌≡◌, ◌^◌};
ghost use Rattle.std.specs.List.{All};
ghost use Rattle.plane_geom.specs.Bounds.{IsPointWithin};
ghost use Rattle.cif_flatten.specs.Flat.{IsShapeWithin, IsFlatWithin};

use plane_geom::{Label, Point, Shape, Short};
use std::marker::Model;

/// A placed shape, its layer, and where its command stands in the text.
#[derive(Debug, Drop)]
pub struct Draw {
    pub layer: Short,
    pub shape: Shape,
    /// The number of bytes before the command's first byte.
    pub pos: u64,
}

/// A placed label, the layer that it names, if it names one, and where its command stands in the text.
#[derive(Debug, Drop)]
pub struct Mark {
    pub name: Label,
    pub at: Point,
    pub layer: Option<Short>,
    /// How many calls it stands in.
    pub depth: u32,
    /// The number of bytes before the command's first byte.
    pub pos: u64,
}

/// A layout without calls: its placed shapes and labels in the order in which the calls are unfolded. Each shape is well
/// formed, and its reach and each label's point are within `plane_geom::RANGE` of 0.
#[derive(Debug, Drop)]
pub struct Flat {
    draws: Vec<Draw>,
    marks: Vec<Mark>,
}

impl Model for Flat {
    ghost use Rattle.std.specs.Prelude.{◌^◌};
    ghost use Rattle.cif_flatten.specs.Flat.{Lists, IsFlatWithin};

    ghost Value = { Lists };

    ghost view = { λ f. record { draws = f.draws.items; marks = f.marks.items } };

    ghost invariant = { λ f. IsFlatWithin (2 ^ 24) (record { draws = f.draws.items; marks = f.marks.items }) };
}

impl Flat {
    /// The layout of these placed shapes and labels. Each shape is to be well formed, and its reach and each label's
    /// point within `plane_geom::RANGE` of 0.
    pub fn new(draws: Vec<Draw>, marks: Vec<Mark>) -> Flat
        requires draws_within { All (λ d. IsShapeWithin (2 ^ 24) d.shape) draws.items }
        requires marks_within { All (λ m. IsPointWithin (2 ^ 24) m.at) marks.items }
        ensures has_draws { result.draws ≡ draws.items }
        ensures has_marks { result.marks ≡ marks.items }
    {
        Flat { draws, marks }
    }

    /// The placed shapes.
    pub fn draws(&self) -> &[Draw]
        ensures same { result.now ≡ self.now.draws }
        ensures within { IsFlatWithin (2 ^ 24) self.now }
    {
        self.draws.as_slice()
    }

    /// The placed labels.
    pub fn marks(&self) -> &[Mark]
        ensures same { result.now ≡ self.now.marks }
        ensures within { IsFlatWithin (2 ^ 24) self.now }
    {
        self.marks.as_slice()
    }
}
