//! The rectangles of a polygon, slab by slab.

ghost use Rattle.std.specs.Prelude.{◌≡◌, ◌^◌, ◌<◌, ℕ, ℤ, pos, neg_ℤ, ◌≤ℤ◌, ◌<ℤ◌, ◌∷◌, [], ◌++◌, ◌&&◌, ◌||◌, false, IfOk, OnOk, length, if◌then◌else◌};
ghost use Rattle.std.specs.List.{All};
ghost use Rattle.plane_geom.specs.declared.shapes.Rect.{Rect};
ghost use Rattle.plane_geom.specs.Bounds.{IsPointWithin};
ghost use Rattle.plane_geom.specs.Cells.{is_between, is_in_rects};
ghost use Rattle.plane_geom.specs.Ends.{is_odd, flips};
ghost use Rattle.plane_geom.specs.Covering.{polygon_covers, is_vertical, spans, outline, IsOutline, IsRect, IsRectIn, HoldsAround};
ghost use Rattle.std.specs.Int.{int_min, int_max};
ghost use Rattle.shape_cut.specs.Slabs.{nearest, IsNextCornerRow, AreCrossings, IsPaired, AreNotFalling};

use plane_geom::{Point, RANGE, Rect};
use std::alloc::{AllocError, Global};

/// Cuts a polygon slab by slab. A slab lies between two rows of corners that follow each other, so that the same edges
/// span all of its rows.
pub(crate) fn cut_polygon(alloc: Global, points: &[Point]) -> Result<Vec<Rect>, AllocError>
    requires outline { IsOutline points.now }
    requires near { All (IsPointWithin (2 ^ 24)) points.now }
    ensures cells { IfOk result (λ v. (x y : ℤ) → is_in_rects v.items x y ≡ polygon_covers points.now x y) }
    ensures formed { IfOk result (λ v. All IsRect v.items) }
    ensures inside { IfOk result (λ v. (r : Rect) → All (HoldsAround r (pos 0)) points.now → All (IsRectIn r) v.items) }
{
    let mut rects = Vec::new(alloc);
    let mut ends = Vec::new(alloc);
    // No shape reaches below this row.
    let mut y = -RANGE;
    while let Some(next) = next_row(points, y) {
        read_crossings(points, y, &mut ends)?;
        ends.sort_unstable();
        pair_up(&mut rects, ends.as_slice(), y, next)?;
        y = next;
    }
    Ok(rects)
}

/// The lowest row of a corner above `y`.
fn next_row(points: &[Point], y: i64) -> Option<i64>
    requires { All (IsPointWithin (2 ^ 24)) points.now }
    ensures { IsNextCornerRow points.now points.now y result }
{
    let mut next = None;
    for p in points {
        next = nearer(next, p.y, y);
    }
    next
}

/// The lesser of `next` and `row`, of those that are above `y`.
fn nearer(next: Option<i64>, row: i64, y: i64) -> Option<i64>
    ensures { result ≡ nearest y row next }
{
    if row <= y {
        return next;
    }
    match next {
        None => Some(row),
        Some(n) => Some(if row < n { row } else { n }),
    }
}

/// Writes the x of each vertical edge that spans the row `y`.
fn read_crossings(points: &[Point], y: i64, ends: &mut Vec<i64>) -> Result<(), AllocError>
    requires { IsOutline points.now }
    ensures { OnOk result (AreCrossings points.now (outline points.now) y ends.new.items) }
{
    ends.clear();
    let first = points[0];
    let mut from = first;
    for k in 1..points.len() {
        let to = points[k];
        cross(from, to, y, ends)?;
        from = to;
    }
    cross(from, first, y, ends)
}

/// Adds the edge's x, where the edge is vertical and spans the row `y`.
fn cross(from: Point, to: Point, y: i64, ends: &mut Vec<i64>) -> Result<(), AllocError>
    ensures { OnOk result (ends.new.items ≡ (if is_vertical (from, to) && spans y (from, to) then ends.old.items ++ from.x ∷ [] else ends.old.items)) }
{
    if is_crossing(from, to, y) {
        ends.push(from.x)?;
    }
    Ok(())
}

/// Whether the edge is vertical and spans the row `y`.
fn is_crossing(from: Point, to: Point, y: i64) -> bool
    ensures { result ≡ (is_vertical (from, to) && spans y (from, to)) }
{
    from.x == to.x && is_spanned(from.y, to.y, y)
}

/// Whether one of the numbers is at most `y` and the other one is above it.
fn is_spanned(a: i64, b: i64, y: i64) -> bool
    ensures { result ≡ is_between (int_min a b) (int_max a b) y }
{
    (a <= y) != (b <= y)
}

/// Adds a rectangle from each end with an even index to the next one, from row `y0` up to row `y1`.
fn pair_up(rects: &mut Vec<Rect>, ends: &[i64], y0: i64, y1: i64) -> Result<(), AllocError>
    requires order { y0 <ℤ y1 }
    requires even { is_odd (length ends.now) ≡ false }
    requires sorted { AreNotFalling ends.now }
    ensures { OnOk result (IsPaired rects.old.items ends.now (length ends.now) y0 y1 rects.new.items) }
{
    let mut k = 0;
    while k + 1 < ends.len() {
        rects.push(Rect {
            x0: ends[k],
            y0,
            x1: ends[k + 1],
            y1,
        })?;
        k += 2;
    }
    Ok(())
}
