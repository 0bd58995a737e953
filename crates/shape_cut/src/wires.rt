//! The rectangles of a wire, segment by segment.

ghost use Rattle.std.specs.Prelude.{◌≡◌, ◌^◌, ◌<◌, ℤ, pos, ◌≤ℤ◌, IfOk, length};
ghost use Rattle.std.specs.List.{All};
ghost use Rattle.plane_geom.specs.declared.shapes.Rect.{Rect};
ghost use Rattle.plane_geom.specs.Bounds.{IsWithin, IsPointWithin};
ghost use Rattle.plane_geom.specs.Cells.{is_in_rects};
ghost use Rattle.plane_geom.specs.Covering.{wire_covers, widened, IsRect, IsRectIn, HoldsAround};

use plane_geom::{Point, Rect};
use std::alloc::{AllocError, Global};

/// The widened rectangle of each segment of a wire.
pub(crate) fn cut_wire(alloc: Global, half: i64, path: &[Point]) -> Result<Vec<Rect>, AllocError>
    requires some { 0 < length path.now }
    requires thick { pos 0 ≤ℤ half }
    requires thin { half ≤ℤ pos (2 ^ 24) }
    requires near { All (IsPointWithin (2 ^ 24)) path.now }
    ensures cells { IfOk result (λ v. (x y : ℤ) → is_in_rects v.items x y ≡ wire_covers half path.now x y) }
    ensures formed { IfOk result (λ v. All IsRect v.items) }
    ensures inside { IfOk result (λ v. (r : Rect) → All (HoldsAround r half) path.now → All (IsRectIn r) v.items) }
{
    let mut rects = Vec::new(alloc);
    let mut from = path[0];
    if path.len() == 1 {
        rects.push(around(half, from, from))?;
        return Ok(rects);
    }
    for k in 1..path.len() {
        let to = path[k];
        rects.push(around(half, from, to))?;
        from = to;
    }
    Ok(rects)
}

/// The rectangle of the two points, widened by `half` on all four sides.
fn around(half: i64, from: Point, to: Point) -> Rect
    requires thick { pos 0 ≤ℤ half }
    requires thin { half ≤ℤ pos (2 ^ 24) }
    requires from_near { IsPointWithin (2 ^ 24) from }
    requires to_near { IsPointWithin (2 ^ 24) to }
    ensures { result ≡ widened half (from, to) }
{
    Rect {
        x0: from.x.min(to.x) - half,
        y0: from.y.min(to.y) - half,
        x1: from.x.max(to.x) + half,
        y1: from.y.max(to.y) + half,
    }
}
