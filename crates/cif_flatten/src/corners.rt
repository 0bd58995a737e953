//! How fine the corners of placed shapes lie.

ghost use Rattle.std.specs.Prelude.{◌≡◌, ◌+◌, ◌<◌, ◌^◌, ℤ, ◌+ℤ◌, ◌-ℤ◌, ◌↔◌, IsTrue, ◌++◌, map, IfOk, OnOk};
ghost use Rattle.std.specs.List.{All};
ghost use Rattle.std.specs.Int.{int_min, int_max};
ghost use Rattle.plane_geom.specs.Bounds.{IsWithin, IsPointWithin};
ghost use Rattle.plane_geom.specs.Covering.{figure_of, IsFigureWithin, wire, widened as widened_lem};
ghost use Rattle.plane_geom.specs.declared.shapes.Point.{Point};
ghost use Rattle.cif_flatten.specs.Faults.{rect_corners, corners, fineness, most_fineness, count_distinct as count_distinct_lem};
ghost use Rattle.cif_flatten.specs.Unrolling.{corners_of, AreRoomy};

use crate::flat::Draw;
use plane_geom::{Point, Rect, Shape};
use std::alloc::{AllocError, Global};

/// The most different x times different y.
const MOST_FINENESS: usize = 4_194_304;

/// Whether the corners have too many different x and y.
pub(crate) fn is_too_fine(alloc: Global, draws: &[Draw]) -> Result<bool, AllocError>
    requires { AreRoomy draws.now }
    ensures { IfOk result (λ fine. IsTrue fine ↔ most_fineness < fineness (corners_of draws.now)) }
{
    let points = all_corners(alloc, draws)?;
    let xs = count_distinct(all_x(alloc, &points)?);
    let ys = count_distinct(all_y(alloc, &points)?);
    Ok(xs.saturating_mul(ys) > MOST_FINENESS)
}

/// How many different numbers there are.
fn count_distinct(mut numbers: Vec<i64>) -> usize
    ensures { result ≡ count_distinct_lem numbers.items }
{
    numbers.sort_unstable();
    numbers.dedup();
    numbers.len()
}

fn all_x(alloc: Global, points: &[Point]) -> Result<Vec<i64>, AllocError>
    ensures { IfOk result (λ xs. xs.items ≡ map (λ (p : Point). p.x) points.now) }
{
    let mut xs = Vec::new(alloc);
    for p in points {
        xs.push(p.x)?;
    }
    Ok(xs)
}

fn all_y(alloc: Global, points: &[Point]) -> Result<Vec<i64>, AllocError>
    ensures { IfOk result (λ ys. ys.items ≡ map (λ (p : Point). p.y) points.now) }
{
    let mut ys = Vec::new(alloc);
    for p in points {
        ys.push(p.y)?;
    }
    Ok(ys)
}

/// The corners of all shapes.
fn all_corners(alloc: Global, draws: &[Draw]) -> Result<Vec<Point>, AllocError>
    requires { AreRoomy draws.now }
    ensures { IfOk result (λ points. points.items ≡ corners_of draws.now) }
{
    let mut points = Vec::new(alloc);
    for draw in draws {
        add_corners(&mut points, &draw.shape)?;
    }
    Ok(points)
}

/// Adds the corners of a shape.
fn add_corners(points: &mut Vec<Point>, shape: &Shape) -> Result<(), AllocError>
    requires { IsFigureWithin (2 ^ 60) (figure_of shape.now) }
    ensures { OnOk result (points.new.items ≡ points.old.items ++ corners (figure_of shape.now)) }
{
    match shape {
        Shape::Block(rect) => add_ends(points, *rect),
        Shape::Polygon(outline) => points.extend_from_slice(outline),
        Shape::Wire { half, path } => add_wire_corners(points, *half, path),
    }
}

/// Adds two opposite corners.
fn add_ends(points: &mut Vec<Point>, rect: Rect) -> Result<(), AllocError>
    ensures { OnOk result (points.new.items ≡ points.old.items ++ rect_corners rect) }
{
    points.push(Point {
        x: rect.x0,
        y: rect.y0,
    })?;
    points.push(Point {
        x: rect.x1,
        y: rect.y1,
    })?;
    Ok(())
}

/// Adds the corners of the widened segments of a wire.
fn add_wire_corners(points: &mut Vec<Point>, half: i64, path: &[Point]) -> Result<(), AllocError>
    requires thick { IsWithin (2 ^ 60) half }
    requires near { All (IsPointWithin (2 ^ 60)) path.now }
    ensures { OnOk result (points.new.items ≡ points.old.items ++ corners (wire half path.now)) }
{
    let Some((first, rest)) = path.split_first() else {
        return Ok(());
    };
    if rest.is_empty() {
        return add_ends(points, widened(half, *first, *first));
    }
    let mut from = *first;
    for to in rest {
        add_ends(points, widened(half, from, *to))?;
        from = *to;
    }
    Ok(())
}

/// The rectangle of a segment's end points, widened by `half` on all four sides.
fn widened(half: i64, from: Point, to: Point) -> Rect
    requires thick { IsWithin (2 ^ 60) half }
    requires from { IsPointWithin (2 ^ 60) from }
    requires to { IsPointWithin (2 ^ 60) to }
    ensures { result ≡ widened_lem half (from, to) }
{
    Rect {
        x0: below(from.x, to.x, half),
        y0: below(from.y, to.y, half),
        x1: above(from.x, to.x, half),
        y1: above(from.y, to.y, half),
    }
}

/// `half` below the lesser of two coordinates.
fn below(a: i64, b: i64, half: i64) -> i64
    requires thick { IsWithin (2 ^ 60) half }
    requires a { IsWithin (2 ^ 60) a }
    requires b { IsWithin (2 ^ 60) b }
    ensures { result ≡ int_min a b -ℤ half }
{
    if a < b { a - half } else { b - half }
}

/// `half` above the greater of two coordinates.
fn above(a: i64, b: i64, half: i64) -> i64
    requires thick { IsWithin (2 ^ 60) half }
    requires a { IsWithin (2 ^ 60) a }
    requires b { IsWithin (2 ^ 60) b }
    ensures { result ≡ int_max a b +ℤ half }
{
    if a < b { b + half } else { a + half }
}
