//! Rectangles that hold sets of cells.

ghost use Rattle.std.specs.Prelude.{◌≡◌, ℤ, ◌≤ℤ◌, true, false, ◌&&◌};
ghost use Rattle.plane_geom.specs.Cells.{is_between};
ghost use Rattle.defect_sweep.specs.Reaching.{AreApart, Holds, HoldsStrip, HoldsStrips};

use mask_region::Strip;
use plane_geom::Rect;

/// The rectangle that holds no cell, and lies in every other one.
pub(crate) fn no_bounds() -> Rect {
    Rect {
        x0: i64::MAX,
        y0: i64::MAX,
        x1: i64::MIN,
        y1: i64::MIN,
    }
}

/// A rectangle that holds both.
pub(crate) fn around(a: &Rect, b: &Rect) -> Rect
    ensures first { Holds result a.now }
    ensures second { Holds result b.now }
{
    Rect {
        x0: lesser(a.x0, b.x0),
        y0: lesser(a.y0, b.y0),
        x1: greater(a.x1, b.x1),
        y1: greater(a.y1, b.y1),
    }
}

/// A rectangle that holds all of the strips.
pub(crate) fn around_all(strips: &[Strip]) -> Rect
    ensures { HoldsStrips result strips.now }
{
    let mut bounds = no_bounds();
    for strip in strips {
        bounds = around(&bounds, &rect_of(strip));
    }
    bounds
}

/// The strip as a rectangle.
fn rect_of(strip: &Strip) -> Rect
    ensures { HoldsStrip result strip.now }
{
    Rect {
        x0: strip.x0 as i64,
        y0: strip.y0 as i64,
        x1: strip.x1 as i64,
        y1: strip.y1 as i64,
    }
}

/// Whether it is seen at once that the rectangles have no cell in common.
pub(crate) fn are_apart(a: &Rect, b: &Rect) -> bool
    ensures { result ≡ true → AreApart a.now b.now }
{
    have_gap(a.x0, a.x1, b.x0, b.x1) || have_gap(a.y0, a.y1, b.y0, b.y1)
}

/// Whether one of the spans ends before the other begins, or where it begins.
fn have_gap(a0: i64, a1: i64, b0: i64, b1: i64) -> bool
    ensures { result ≡ true → (z : ℤ) → (is_between a0 a1 z && is_between b0 b1 z) ≡ false }
{
    a1 <= b0 || b1 <= a0
}

/// The lesser of the two.
fn lesser(a: i64, b: i64) -> i64
    ensures first { result ≤ℤ a }
    ensures second { result ≤ℤ b }
{
    if a < b { a } else { b }
}

/// The greater of the two.
fn greater(a: i64, b: i64) -> i64
    ensures first { a ≤ℤ result }
    ensures second { b ≤ℤ result }
{
    if a < b { b } else { a }
}
