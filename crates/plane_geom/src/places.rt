//! Turns and places, and where they take a point.

ghost use Rattle.std.specs.Prelude.{◌≡◌, ℕ, ◌+◌, ◌^◌, ◌↔◌, IsSome, IfSome, if◌then◌else◌, neg_ℤ};
ghost use Rattle.plane_geom.specs.Bounds.{IsWithin, IsPointWithin};
ghost use Rattle.plane_geom.specs.Placement.{moved, turn_steps, placed, IsShiftWithin};
ghost use Rattle.plane_geom.specs.declared.shapes.Point.{Point};
ghost use Rattle.plane_geom.specs.declared.places.Place.{Place};

use crate::shapes::Point;

/// Exchanges x and y where `swap` is set, and then negates x, y or both.
#[derive(Clone, Copy, Debug, PartialEq, Eq)]
pub struct Turn {
    pub swap: bool,
    pub neg_x: bool,
    pub neg_y: bool,
}

/// A turn, and then a shift by `dx` and `dy` mask units.
#[derive(Clone, Copy, Debug, PartialEq, Eq)]
pub struct Place {
    pub turn: Turn,
    pub dx: i64,
    pub dy: i64,
}

impl Turn {
    /// Where the turn takes the point.
    fn turned(self, p: Point) -> Point
        requires { IsPointWithin (2 ^ 60) p }
        ensures { result ≡ moved (turn_steps self) p }
    {
        let (x, y) = if self.swap { (p.y, p.x) } else { (p.x, p.y) };
        Point {
            x: negated_if(self.neg_x, x),
            y: negated_if(self.neg_y, y),
        }
    }

    /// First `self`, then `next`.
    fn then(self, next: Turn) -> Turn
        ensures { (p : Point) → moved (turn_steps result) p ≡ moved (turn_steps next) (moved (turn_steps self) p) }
    {
        let (neg_x, neg_y) = if next.swap {
            (self.neg_y, self.neg_x)
        } else {
            (self.neg_x, self.neg_y)
        };
        Turn {
            swap: self.swap ^ next.swap,
            neg_x: neg_x ^ next.neg_x,
            neg_y: neg_y ^ next.neg_y,
        }
    }
}

impl Place {
    /// The place that moves a point as `self` does and then `next`. Neither may shift by over 2^60; the result shifts
    /// by the sum of their shifts at most.
    pub fn then(self, next: Place) -> Place
        requires first { IsShiftWithin (2 ^ 60) self }
        requires second { IsShiftWithin (2 ^ 60) next }
        ensures moves { (p : Point) → placed result p ≡ placed next (placed self p) }
        ensures near { (m n : ℕ) → IsShiftWithin m self → IsShiftWithin n next → IsShiftWithin (m + n) result }
    {
        let shift = next.turn.turned(Point {
            x: self.dx,
            y: self.dy,
        });
        Place {
            turn: self.turn.then(next.turn),
            dx: shift.x + next.dx,
            dy: shift.y + next.dy,
        }
    }

    /// Where the place takes the point, or `None` exactly where that has a coordinate over `RANGE` from 0. Neither the
    /// shift nor a coordinate of the point may be over 2^60 from 0.
    pub fn apply(&self, p: Point) -> Option<Point>
        requires near { IsShiftWithin (2 ^ 60) self.now }
        requires point { IsPointWithin (2 ^ 60) p }
        ensures within { IsSome result ↔ IsPointWithin (2 ^ 24) (placed self.now p) }
        ensures value { IfSome result (λ q. q ≡ placed self.now p) }
    {
        let turned = self.turn.turned(p);
        let moved = Point {
            x: turned.x + self.dx,
            y: turned.y + self.dy,
        };
        moved.is_in_range().then_some(moved)
    }
}

/// `-z` where it is to be negated, else `z`.
fn negated_if(negate: bool, z: i64) -> i64
    requires { IsWithin (2 ^ 60) z }
    ensures { result ≡ (if negate then neg_ℤ z else z) }
{
    if negate { -z } else { z }
}

/// A place is told by how it moves points: no other place moves all points alike.
#[tactic(auto, using(crate::proofs::Turning::place_unique))]
pub fn one_place()
    ensures { (a b : Place) → ((p : Point) → placed a p ≡ placed b p) → a ≡ b }
{}
