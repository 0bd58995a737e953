//! The strips of rectangles.

ghost use Rattle.std.specs.Prelude.{◌≡◌, ◌^◌, ℤ, IfOk, IfSome, false};
ghost use Rattle.std.specs.List.{All};
ghost use Rattle.plane_geom.specs.Bounds.{IsRectWithin};
ghost use Rattle.plane_geom.specs.Cells.{is_in_rect, is_in_rects};
ghost use Rattle.mask_region.specs.Strips.{is_in_strip, is_in, IsStrip, Banded};

use crate::bands::join;
use crate::ends::Joining;
use crate::strips::Strip;
use plane_geom::Rect;
use std::alloc::{AllocError, Global};

/// The strips of the cells of all rectangles: those of each half, joined.
pub(crate) fn strips_of(alloc: Global, rects: &[Rect]) -> Result<Vec<Strip>, AllocError>
    requires { All (IsRectWithin (2 ^ 25)) rects.now }
    ensures banded { IfOk result (λ v. Banded v.items) }
    ensures cells { IfOk result (λ v. (x y : ℤ) → is_in v.items x y ≡ is_in_rects rects.now x y) }
{
    match rects {
        [] => Ok(Vec::new(alloc)),
        [rect] => strips_of_one(alloc, rect),
        _ => {
            let (front, back) = rects.split_at(rects.len() / 2);
            let first = strips_of(alloc, front)?;
            let second = strips_of(alloc, back)?;
            join(alloc, Joining::Union, first.as_slice(), second.as_slice())
        }
    }
}

/// The strip of the rectangle's cells, in a list; no strip where it has none.
fn strips_of_one(alloc: Global, rect: &Rect) -> Result<Vec<Strip>, AllocError>
    requires { IsRectWithin (2 ^ 25) rect.now }
    ensures banded { IfOk result (λ v. Banded v.items) }
    ensures cells { IfOk result (λ v. (x y : ℤ) → is_in v.items x y ≡ is_in_rect rect.now x y) }
{
    let mut strips = Vec::new(alloc);
    if let Some(strip) = strip_of(rect) {
        strips.push(strip)?;
    }
    Ok(strips)
}

/// The rectangle as a strip, or `None` where it has no cell.
fn strip_of(rect: &Rect) -> Option<Strip>
    requires { IsRectWithin (2 ^ 25) rect.now }
    ensures none { result ≡ None → (x y : ℤ) → is_in_rect rect.now x y ≡ false }
    ensures strip { IfSome result IsStrip }
    ensures cells { IfSome result (λ s. (x y : ℤ) → is_in_strip s x y ≡ is_in_rect rect.now x y) }
{
    if rect.x0 >= rect.x1 {
        return None;
    }
    if rect.y0 >= rect.y1 {
        return None;
    }
    Some(Strip {
        y0: rect.y0 as i32,
        y1: rect.y1 as i32,
        x0: rect.x0 as i32,
        x1: rect.x1 as i32,
    })
}
