//! The rectangles of a few shapes.

ghost use Rattle.std.specs.Prelude.{◌≡◌, ◌^◌, true, false, IfOk};
ghost use Rattle.plane_geom.specs.Bounds.{IsWithin, IsRectWithin};
ghost use Rattle.plane_geom.specs.Covering.{figure_of, IsFigureWithin, IsWellFormed};

use plane_geom::{Point, RANGE, Rect, Shape};
use shape_cut::cut;
use std::alloc::{AllocError, Global};
use std::test::Fail;

/// The rectangle with these corners.
fn rect(x0: i64, y0: i64, x1: i64, y1: i64) -> Rect
    ensures { result ≡ record { x0 = x0; y0 = y0; x1 = x1; y1 = y1 } }
{
    Rect { x0, y0, x1, y1 }
}

/// Whether the number is over 16,777,216 from 0.
fn is_far(z: i64) -> bool
    ensures { result ≡ false → IsWithin (2 ^ 24) z }
{
    z < -RANGE || RANGE < z
}

/// Whether no coordinate is over 16,777,216 from 0.
fn is_near(r: &Rect) -> bool
    ensures { result ≡ true → IsRectWithin (2 ^ 24) r.now }
{
    if is_far(r.x0) {
        return false;
    }
    if is_far(r.y0) {
        return false;
    }
    if is_far(r.x1) {
        return false;
    }
    !is_far(r.y1)
}

/// The rectangles of the shape, or none where its reach goes too far.
fn pieces(alloc: Global, shape: &Shape) -> Result<Vec<Rect>, AllocError>
    requires formed { IsWellFormed (figure_of shape.now) }
    requires near { IsFigureWithin (2 ^ 60) (figure_of shape.now) }
{
    let reach = shape.reach();
    if !is_near(&reach) {
        return Ok(Vec::new(alloc));
    }
    cut(alloc, shape)
}

/// The line from (0, 0) to (20, 0).
fn line(alloc: Global, half: u16) -> Result<Shape, AllocError>
    ensures formed { IfOk result (λ s. IsWellFormed (figure_of s)) }
    ensures near { IfOk result (λ s. IsFigureWithin (2 ^ 60) (figure_of s)) }
{
    let mut path = Vec::new(alloc);
    path.push(Point { x: 0, y: 0 })?;
    path.push(Point { x: 20, y: 0 })?;
    Ok(Shape::Wire {
        half: half as i64,
        path,
    })
}

/// A wire of one point.
fn dot(alloc: Global) -> Result<Shape, AllocError>
    ensures formed { IfOk result (λ s. IsWellFormed (figure_of s)) }
    ensures near { IfOk result (λ s. IsFigureWithin (2 ^ 60) (figure_of s)) }
{
    let mut path = Vec::new(alloc);
    path.push(Point { x: 5, y: -5 })?;
    Ok(Shape::Wire { half: 3, path })
}

/// A polygon whose outline crosses itself at (2, 2).
fn crossed(alloc: Global) -> Result<Shape, AllocError>
    ensures formed { IfOk result (λ s. IsWellFormed (figure_of s)) }
    ensures near { IfOk result (λ s. IsFigureWithin (2 ^ 60) (figure_of s)) }
{
    let mut points = Vec::new(alloc);
    points.push(Point { x: 0, y: 0 })?;
    points.push(Point { x: 2, y: 0 })?;
    points.push(Point { x: 2, y: 4 })?;
    points.push(Point { x: 5, y: 4 })?;
    points.push(Point { x: 5, y: 2 })?;
    points.push(Point { x: 0, y: 2 })?;
    Ok(Shape::Polygon(points))
}

#[test]
fn cuts_wires(rt: HostRuntime) -> Result<(), Fail> {
    let thick = pieces(rt.alloc(), &line(rt.alloc(), 4)?)?;
    assert_eq!(rt; thick.as_slice(), [rect(-4, -4, 24, 4)].as_slice());

    let thin = pieces(rt.alloc(), &line(rt.alloc(), 0)?)?;
    assert_eq!(rt; thin.as_slice(), [rect(0, 0, 20, 0)].as_slice());

    let square = pieces(rt.alloc(), &dot(rt.alloc())?)?;
    assert_eq!(rt; square.as_slice(), [rect(2, -8, 8, -2)].as_slice());
    Ok(())
}

#[test]
fn cuts_a_polygon_that_crosses_itself(rt: HostRuntime) -> Result<(), Fail> {
    let slabs = pieces(rt.alloc(), &crossed(rt.alloc())?)?;
    let wanted = [rect(0, 0, 2, 2), rect(2, 2, 5, 4)];
    assert_eq!(rt; slabs.as_slice(), wanted.as_slice());
    Ok(())
}

#[test]
fn keeps_blocks(rt: HostRuntime) -> Result<(), Fail> {
    let flat = rect(2, 2, 2, 9);
    let made = pieces(rt.alloc(), &Shape::Block(flat))?;
    assert_eq!(rt; made.as_slice(), [flat].as_slice());

    let block = rect(-3, 0, 4, 9);
    let made = pieces(rt.alloc(), &Shape::Block(block))?;
    assert_eq!(rt; made.as_slice(), [block].as_slice());
    Ok(())
}
