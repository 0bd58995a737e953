//! The rectangles of a shape.

ghost use Rattle.std.specs.Prelude.{◌≡◌, ◌^◌, ℤ, [], ◌∷◌, IfOk};
ghost use Rattle.std.specs.List.{All};
ghost use Rattle.plane_geom.specs.declared.shapes.Rect.{Rect};
ghost use Rattle.plane_geom.specs.Bounds.{IsRectWithin};
ghost use Rattle.plane_geom.specs.Cells.{is_in_rects};
ghost use Rattle.plane_geom.specs.Covering.{figure_of, covers, IsRect, IsRectIn, IsReach, IsWellFormed};

use crate::polygons::cut_polygon;
use crate::wires::cut_wire;
use plane_geom::{Rect, Shape};
use std::alloc::{AllocError, Global};

/// Rectangles that cover exactly the cells of the shape, by the definition `covers`. Each has its corners in order and
/// lies within the shape's reach, which may go up to 16,777,216 from 0. It fails only where no memory is found.
pub fn cut(alloc: Global, shape: &Shape) -> Result<Vec<Rect>, AllocError>
    requires formed { IsWellFormed (figure_of shape.now) }
    requires within { (r : Rect) → IsReach (figure_of shape.now) r → IsRectWithin (2 ^ 24) r }
    ensures cells { IfOk result (λ v. (x y : ℤ) → is_in_rects v.items x y ≡ covers (figure_of shape.now) x y) }
    ensures formed { IfOk result (λ v. All IsRect v.items) }
    ensures inside { IfOk result (λ v. (r : Rect) → IsReach (figure_of shape.now) r → All (IsRectIn r) v.items) }
{
    match shape {
        Shape::Block(rect) => only(alloc, *rect),
        Shape::Polygon(points) => cut_polygon(alloc, points),
        Shape::Wire { half, path } => cut_wire(alloc, *half, path),
    }
}

/// The rectangle, in a list.
fn only(alloc: Global, rect: Rect) -> Result<Vec<Rect>, AllocError>
    ensures { IfOk result (λ v. v.items ≡ rect ∷ []) }
{
    let mut rects = Vec::new(alloc);
    rects.push(rect)?;
    Ok(rects)
}
