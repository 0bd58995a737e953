//! The law of a shape's reach.

ghost use Rattle.std.specs.Prelude.{ℕ};
ghost use Rattle.plane_geom.specs.declared.shapes.Rect.{Rect};
ghost use Rattle.plane_geom.specs.Bounds.{IsRectWithin};
ghost use Rattle.plane_geom.specs.Covering.{Figure, IsReach};

/// A shape has one reach, so where a reach is within a bound each one is. This gives what `cut` asks from what
/// `Shape::reach` answers.
pub fn one_reach()
    ensures { (bound : ℕ) (figure : Figure) (r s : Rect) → IsReach figure r → IsRectWithin bound r → IsReach figure s → IsRectWithin bound s }
{}
