//! Points, rectangles and shapes, and how far they reach.

ghost use Rattle.std.specs.Prelude.{◌≡◌, ◌^◌, ◌<◌, ◌↔◌, IsTrue, length};
ghost use Rattle.std.specs.List.{All};
ghost use Rattle.plane_geom.specs.Bounds.{IsWithin, IsPointWithin};
ghost use Rattle.plane_geom.specs.Covering.{figure_of, wire, stretched_to, IsWellFormed, IsFigureWithin, IsReach};

/// A point, in mask units.
#[derive(Clone, Copy, Debug, PartialEq, Eq)]
pub struct Point {
    pub x: i64,
    pub y: i64,
}

/// The greatest distance of a coordinate of a layout from 0, in mask units.
pub const RANGE: i64 = 16_777_216;

/// The cells with `x0 <= x < x1` and `y0 <= y < y1`: none where the corners are not in order, as `IsRect` says.
#[derive(Clone, Copy, Debug, PartialEq, Eq)]
pub struct Rect {
    pub x0: i64,
    pub y0: i64,
    pub x1: i64,
    pub y1: i64,
}

/// A drawn shape, as the definition `covers` gives its cells. It is well formed where a block's corners are in
/// order, a polygon or wire has a point, all its edges lie on the axes, and a wire's `half` is not negative.
#[derive(Debug, Drop)]
pub enum Shape {
    Block(Rect),
    /// The points of the outline; the last is joined to the first.
    Polygon(Vec<Point>),
    /// The centre line, and half the width.
    Wire { half: i64, path: Vec<Point> },
}

impl Point {
    /// Whether no coordinate is over `RANGE` from 0.
    pub(crate) fn is_in_range(&self) -> bool
        ensures { IsTrue result ↔ IsPointWithin (2 ^ 24) self.now }
    {
        -RANGE <= self.x && self.x <= RANGE && -RANGE <= self.y && self.y <= RANGE
    }
}

impl Rect {
    /// The least rectangle round this one and the point.
    fn stretched(self, p: Point) -> Rect
        ensures { result ≡ stretched_to self p }
    {
        Rect {
            x0: self.x0.min(p.x),
            y0: self.y0.min(p.y),
            x1: self.x1.max(p.x),
            y1: self.y1.max(p.y),
        }
    }
}

impl Shape {
    /// The least rectangle round all corners and points, for a wire with `half` to each side of them. The shape is well
    /// formed, and no coordinate of it is over 2^60 from 0.
    pub fn reach(&self) -> Rect
        requires formed { IsWellFormed (figure_of self.now) }
        requires within { IsFigureWithin (2 ^ 60) (figure_of self.now) }
        ensures { IsReach (figure_of self.now) result }
    {
        match self {
            Shape::Block(rect) => *rect,
            Shape::Polygon(points) => reach_of_path(points, 0),
            Shape::Wire { half, path } => reach_of_path(path, *half),
        }
    }
}

/// The least rectangle round the points, with `half` to each side.
fn reach_of_path(points: &[Point], half: i64) -> Rect
    requires some { 0 < length points.now }
    requires near { All (IsPointWithin (2 ^ 60)) points.now }
    requires thick { IsWithin (2 ^ 60) half }
    ensures { IsReach (wire half points.now) result }
{
    let first = points[0];
    let mut reach = Rect {
        x0: first.x,
        y0: first.y,
        x1: first.x,
        y1: first.y,
    };
    for p in points {
        reach = reach.stretched(*p);
    }
    Rect {
        x0: reach.x0 - half,
        y0: reach.y0 - half,
        x1: reach.x1 + half,
        y1: reach.y1 + half,
    }
}
