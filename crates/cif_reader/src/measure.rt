//! What commands measure: in mask units before the scale, and in mask units.

ghost use Rattle.std.specs.Prelude.{◌≡◌, ◌^◌, ◌<◌, ◌≤◌, ◌*◌, ◌/◌, nat_abs, false, pos, ◌*ℤ◌, ◌+ℤ◌, ◌-ℤ◌, ◌&&◌, ◌||◌};
ghost use Rattle.std.specs.List.{list_any, list_all};
ghost use Rattle.plane_geom.specs.Bounds.{IsWithin, IsPointWithin, IsRectWithin};
ghost use Rattle.cif_grammar.specs.Words.{limit};
ghost use Rattle.cif_reader.specs.Measure.{value_of as value_of_lem, point_of, facing, doubled, sides, is_far as is_far_lem, is_whole as is_whole_lem, scaled as scaled_lem, scaled_point as scaled_point_lem, scaled_rect as scaled_rect_lem, is_upright as is_upright_lem, corners as corners_lem, box_corners as box_corners_lem};
ghost use Rattle.cif_reader.specs.Near.{AreNear};

use crate::facing::{Facing, facing_along, lies_along_y};
use cif_grammar::{LIMIT, Signed, Spot};
use plane_geom::{Point, Rect};

/// A scale a/b.
#[derive(Clone, Copy, Debug, PartialEq, Eq)]
pub(crate) struct Scale {
    pub a: u32,
    pub b: u32,
}

/// The corners of a box, in mask units before the scale.
#[derive(Clone, Copy, Debug, PartialEq, Eq)]
pub(crate) struct Corners {
    pub x0: i128,
    pub y0: i128,
    pub x1: i128,
    pub y1: i128,
}

/// The scale where none is given.
pub(crate) const PLAIN: Scale = Scale { a: 1, b: 1 };

impl Scale {
    /// So many mask units before the scale, without sign, times a.
    fn times_a(self, z: i128) -> u128
        requires { IsWithin (2 ^ 96) z }
        ensures { result ≡ nat_abs z * self.a }
    {
        z.unsigned_abs() * u128::from(self.a)
    }

    /// Whether so many mask units before the scale are too far from 0.
    #[tactic(auto, unfolding(cif_grammar::specs::Words::limit))]
    pub(crate) fn is_far(self, z: i128) -> bool
        requires { IsWithin (2 ^ 96) z }
        ensures { result ≡ is_far_lem self z }
    {
        u128::from(LIMIT) * u128::from(self.b) < self.times_a(z)
    }

    /// Whether so many mask units before the scale are a whole number of mask units.
    pub(crate) fn is_whole(self, z: i128) -> bool
        requires near { IsWithin (2 ^ 96) z }
        requires some { 0 < self.b }
        ensures { result ≡ is_whole_lem self z }
    {
        self.times_a(z).is_multiple_of(u128::from(self.b))
    }

    /// Whether one of two numbers is too far.
    pub(crate) fn is_either_far(self, x: i128, y: i128) -> bool
        requires x_near { IsWithin (2 ^ 96) x }
        requires y_near { IsWithin (2 ^ 96) y }
        ensures { result ≡ (is_far_lem self x || is_far_lem self y) }
    {
        self.is_far(x) || self.is_far(y)
    }

    /// Whether both numbers are whole.
    pub(crate) fn are_both_whole(self, x: i128, y: i128) -> bool
        requires x_near { IsWithin (2 ^ 96) x }
        requires y_near { IsWithin (2 ^ 96) y }
        requires some { 0 < self.b }
        ensures { result ≡ (is_whole_lem self x && is_whole_lem self y) }
    {
        self.is_whole(x) && self.is_whole(y)
    }

    /// So many mask units before the scale are at most so many mask units, without sign.
    #[tactic(auto, unfolding(cif_grammar::specs::Words::limit))]
    fn size(self, z: i128) -> u32
        requires near { IsWithin (2 ^ 96) z }
        requires some { 0 < self.b }
        requires not_far { is_far_lem self z ≡ false }
        ensures value { result ≡ nat_abs z * self.a / self.b }
        ensures small { result ≤ limit }
    {
        (self.times_a(z) / u128::from(self.b)) as u32
    }

    /// The number of mask units that so many before the scale are.
    #[tactic(auto, unfolding(cif_grammar::specs::Words::limit))]
    pub(crate) fn scaled(self, z: i128) -> i64
        requires near { IsWithin (2 ^ 96) z }
        requires some { 0 < self.b }
        requires not_far { is_far_lem self z ≡ false }
        ensures value { result ≡ scaled_lem self z }
        ensures within { IsWithin limit result }
    {
        let size = i64::from(self.size(z));
        if z < 0 { -size } else { size }
    }

    /// A point in mask units.
    pub(crate) fn scaled_point(self, p: Spot) -> Point
        requires some { 0 < self.b }
        requires not_far { list_any (is_far_lem self) (doubled (point_of p)) ≡ false }
        ensures value { result ≡ scaled_point_lem self (point_of p) }
        ensures within { IsPointWithin limit result }
    {
        Point {
            x: self.scaled(doubled_value(p.x)),
            y: self.scaled(doubled_value(p.y)),
        }
    }

    /// The corners in mask units.
    pub(crate) fn scaled_rect(self, corners: Corners) -> Rect
        requires some { 0 < self.b }
        requires near { AreNear corners }
        requires not_far { list_any (is_far_lem self) (sides corners) ≡ false }
        ensures value { result ≡ scaled_rect_lem self corners }
        ensures within { IsRectWithin limit result }
    {
        Rect {
            x0: self.scaled(corners.x0),
            y0: self.scaled(corners.y0),
            x1: self.scaled(corners.x1),
            y1: self.scaled(corners.y1),
        }
    }

    /// Whether a corner is too far.
    pub(crate) fn is_far_box(self, corners: Corners) -> bool
        requires near { AreNear corners }
        ensures { result ≡ list_any (is_far_lem self) (sides corners) }
    {
        self.is_either_far(corners.x0, corners.y0) || self.is_either_far(corners.x1, corners.y1)
    }

    /// Whether all corners are whole.
    pub(crate) fn is_whole_box(self, corners: Corners) -> bool
        requires some { 0 < self.b }
        requires near { AreNear corners }
        ensures { result ≡ list_all (is_whole_lem self) (sides corners) }
    {
        self.are_both_whole(corners.x0, corners.y0) && self.are_both_whole(corners.x1, corners.y1)
    }

    /// Whether a point is too far.
    pub(crate) fn is_far_point(self, p: Spot) -> bool
        ensures { result ≡ list_any (is_far_lem self) (doubled (point_of p)) }
    {
        self.is_far(doubled_value(p.x)) || self.is_far(doubled_value(p.y))
    }

    /// Whether both coordinates of a point are whole.
    pub(crate) fn is_whole_point(self, p: Spot) -> bool
        requires { 0 < self.b }
        ensures { result ≡ list_all (is_whole_lem self) (doubled (point_of p)) }
    {
        self.is_whole(doubled_value(p.x)) && self.is_whole(doubled_value(p.y))
    }
}

/// A number with its sign.
pub(crate) fn value_of(number: Signed) -> i128
    ensures value { result ≡ value_of_lem number }
    ensures near { IsWithin (2 ^ 64) result }
{
    let size = i128::from(number.size.value);
    if number.minus { -size } else { size }
}

/// Twice a number: so many mask units before the scale.
pub(crate) fn doubled_value(number: Signed) -> i128
    ensures value { result ≡ pos 2 *ℤ value_of_lem number }
    ensures near { IsWithin (2 ^ 65) result }
{
    2 * value_of(number)
}

/// Twice a coordinate: so many mask units before the scale.
pub(crate) fn twice(coordinate: i64) -> i128
    ensures value { result ≡ pos 2 *ℤ coordinate }
    ensures near { IsWithin (2 ^ 65) result }
{
    2 * i128::from(coordinate)
}

/// The same, of a number within the limit.
#[tactic(auto, unfolding(cif_grammar::specs::Words::limit))]
pub(crate) fn small_value(number: Signed) -> i64
    requires { number.size.value ≤ limit }
    ensures value { result ≡ pos 2 *ℤ value_of_lem number }
    ensures near { IsWithin (2 ^ 33) result }
{
    let size = 2 * number.size.value as i64;
    if number.minus { -size } else { size }
}

/// The direction of a point from (0, 0), or `None` where it lies on no axis.
pub(crate) fn facing_of(d: Spot) -> Option<Facing>
    ensures { result ≡ facing (point_of d) }
{
    facing_along(value_of(d.x), value_of(d.y))
}

/// Whether a direction is along y.
pub(crate) fn is_upright(direction: Option<Spot>) -> bool
    ensures { result ≡ is_upright_lem direction }
{
    match direction {
        None => false,
        Some(d) => lies_along_y(facing_of(d)),
    }
}

/// From where to where a box of this length lies.
fn span(centre: Signed, length: u64) -> (i128, i128)
    ensures from { result.0 ≡ (pos 2 *ℤ value_of_lem centre) -ℤ pos length }
    ensures to { result.1 ≡ (pos 2 *ℤ value_of_lem centre) +ℤ pos length }
    ensures from_near { IsWithin (2 ^ 96) result.0 }
    ensures to_near { IsWithin (2 ^ 96) result.1 }
{
    let middle = doubled_value(centre);
    let half = i128::from(length);
    (middle - half, middle + half)
}

/// The corners of a box, so wide in x and in y.
fn corners_round(across: u64, up: u64, centre: Spot) -> Corners
    ensures value { result ≡ corners_lem across up (point_of centre) }
    ensures near { AreNear result }
{
    let (x0, x1) = span(centre.x, across);
    let (y0, y1) = span(centre.y, up);
    Corners { x0, y0, x1, y1 }
}

/// The corners of a box, so long in its direction and so wide.
pub(crate) fn box_corners(length: u64, width: u64, centre: Spot, direction: Option<Spot>) -> Corners
    ensures value { result ≡ box_corners_lem length width centre direction }
    ensures near { AreNear result }
{
    if is_upright(direction) {
        corners_round(width, length, centre)
    } else {
        corners_round(length, width, centre)
    }
}
