//! Placed shapes and labels, and how far they reach.

ghost use Rattle.std.specs.Prelude.{◌≡◌, ◌^◌, ◌↔◌, ◌++◌, IsTrue, List, map, IfOk, OnOk};
ghost use Rattle.std.specs.List.{All};
ghost use Rattle.plane_geom.specs.Bounds.{IsWithin, IsPointWithin, IsRectWithin};
ghost use Rattle.plane_geom.specs.Placement.{placed, steps_of, IsShiftWithin};
ghost use Rattle.plane_geom.specs.Covering.{figure_of, moved_figure, rect_round as rect_round_lem};
ghost use Rattle.cif_flatten.specs.Faults.{corners};
ghost use Rattle.cif_flatten.specs.Flat.{IsShapeWithin};
ghost use Rattle.cif_flatten.specs.Unfolding.{drawn_by, marked_by, drawn, marked};
ghost use Rattle.cif_flatten.specs.Flattening.{drawn_of, marked_of};
ghost use Rattle.cif_flatten.specs.Unrolling.{placed_of, IsPlaceable, IsIn, IsLeastOut, IsWideIn, IsWideAt, IsPairIn, IsHalf, IsDrawable, AreRoomy, lesser_of};

use crate::flat::{Draw, Mark};
use crate::unfolding::Command;
use cif_reader::What;
use plane_geom::{Label, Place, Point, RANGE, Rect, Shape};
use std::alloc::{AllocError, Global};

/// The least position of a command that reaches out of the range, if one does.
pub(crate) fn least_out(commands: &[Command<'_>]) -> Option<u64>
    requires { All IsPlaceable commands.now }
    ensures { IsLeastOut (map placed_of commands.now) result }
{
    let mut least = None;
    for command in commands {
        if !is_in_range(command) {
            least = Some(lesser(least, command.item.pos));
        }
    }
    least
}

/// The lesser of the positions.
fn lesser(least: Option<u64>, pos: u64) -> u64
    ensures { result ≡ lesser_of least pos }
{
    match least {
        Some(other) => other.min(pos),
        None => pos,
    }
}

/// Whether what the command places lies within the range.
fn is_in_range(command: &Command<'_>) -> bool
    requires { IsPlaceable command.now }
    ensures { IsTrue result ↔ IsIn (placed_of command.now) }
{
    match &command.item.what {
        What::Draw { shape, .. } => is_shape_in_range(command.place, shape),
        What::Call { .. } => true,
        What::Mark { at, .. } => command.place.apply(*at).is_some(),
    }
}

/// Whether the corners of the placed shape lie within the range.
fn is_shape_in_range(place: Place, shape: &Shape) -> bool
    requires shift { IsShiftWithin (2 ^ 60) place }
    requires drawn { IsDrawable (figure_of shape.now) }
    ensures { IsTrue result ↔ All (IsPointWithin (2 ^ 24)) (corners (moved_figure (steps_of place) (figure_of shape.now))) }
{
    match shape {
        Shape::Block(rect) => is_rect_in_range(place, *rect),
        Shape::Polygon(points) => is_path_in_range(place, 0, points),
        Shape::Wire { half, path } => is_path_in_range(place, *half, path),
    }
}

/// Whether two opposite corners of the placed rectangle lie within the range.
fn is_rect_in_range(place: Place, rect: Rect) -> bool
    requires shift { IsShiftWithin (2 ^ 60) place }
    requires within { IsRectWithin (2 ^ 60) rect }
    ensures { IsTrue result ↔ IsPairIn (placed place (record { x = rect.x0; y = rect.y0 })) (placed place (record { x = rect.x1; y = rect.y1 })) }
{
    let low = Point {
        x: rect.x0,
        y: rect.y0,
    };
    let high = Point {
        x: rect.x1,
        y: rect.y1,
    };
    place.apply(low).is_some() && place.apply(high).is_some()
}

/// Whether all placed points lie within the range, with `half` to each side.
fn is_path_in_range(place: Place, half: i64, path: &[Point]) -> bool
    requires shift { IsShiftWithin (2 ^ 60) place }
    requires points { All (IsPointWithin (2 ^ 60)) path.now }
    requires thick { IsHalf half }
    ensures { IsTrue result ↔ All (λ p. IsWideIn half (placed place p)) path.now }
{
    for p in path {
        if !is_point_in_range(place, half, *p) {
            return false;
        }
    }
    true
}

/// Whether the placed point lies within the range, with `half` to each side.
fn is_point_in_range(place: Place, half: i64, p: Point) -> bool
    requires shift { IsShiftWithin (2 ^ 60) place }
    requires point { IsPointWithin (2 ^ 60) p }
    requires thick { IsHalf half }
    ensures { IsTrue result ↔ IsWideIn half (placed place p) }
{
    match place.apply(p) {
        Some(q) => is_wide_in_range(half, q),
        None => false,
    }
}

/// Whether a point lies within the range, with `half` to each side.
fn is_wide_in_range(half: i64, p: Point) -> bool
    requires point { IsPointWithin (2 ^ 60) p }
    requires thick { IsHalf half }
    ensures { IsTrue result ↔ IsWideIn half p }
{
    is_wide_at(half, p.x) && is_wide_at(half, p.y)
}

/// Whether a coordinate lies within the range, with `half` to each side.
fn is_wide_at(half: i64, z: i64) -> bool
    requires near { IsWithin (2 ^ 60) z }
    requires thick { IsHalf half }
    ensures { IsTrue result ↔ IsWideAt half z }
{
    -RANGE <= z - half && z + half <= RANGE
}

/// The placed shapes of the commands, in order.
pub(crate) fn placed_draws(alloc: Global, commands: &[Command<'_>]) -> Result<Vec<Draw>, AllocError>
    requires placeable { All IsPlaceable commands.now }
    requires inside { All (λ c. IsIn (placed_of c)) commands.now }
    ensures draws { IfOk result (λ draws. map drawn_of draws.items ≡ drawn (map placed_of commands.now)) }
    ensures within { IfOk result (λ draws. All (λ d. IsShapeWithin (2 ^ 24) d.shape) draws.items) }
    ensures roomy { IfOk result (λ draws. AreRoomy draws.items) }
{
    let mut draws = Vec::new(alloc);
    for command in commands {
        add_draw(alloc, &mut draws, command)?;
    }
    Ok(draws)
}

/// Adds the placed shape of the command, if it is one.
fn add_draw(alloc: Global, draws: &mut Vec<Draw>, command: &Command<'_>) -> Result<(), AllocError>
    requires placeable { IsPlaceable command.now }
    requires inside { IsIn (placed_of command.now) }
    ensures draws { OnOk result (map drawn_of draws.new.items ≡ map drawn_of draws.old.items ++ drawn_by (steps_of command.now.place) command.now.item.now.pos command.now.item.now.what) }
    ensures within { OnOk result (All (λ d. IsShapeWithin (2 ^ 24) d.shape) draws.old.items → All (λ d. IsShapeWithin (2 ^ 24) d.shape) draws.new.items) }
    ensures roomy { OnOk result (AreRoomy draws.old.items → AreRoomy draws.new.items) }
{
    if let What::Draw { layer, shape } = &command.item.what {
        let shape = placed_shape(alloc, command.place, shape)?;
        draws.push(Draw {
            layer: *layer,
            shape,
            pos: command.item.pos,
        })?;
    }
    Ok(())
}

/// The shape in its place.
fn placed_shape(alloc: Global, place: Place, shape: &Shape) -> Result<Shape, AllocError>
    requires shift { IsShiftWithin (2 ^ 60) place }
    requires drawn { IsDrawable (figure_of shape.now) }
    requires inside { All (IsPointWithin (2 ^ 24)) (corners (moved_figure (steps_of place) (figure_of shape.now))) }
    ensures { IfOk result (λ made. figure_of made ≡ moved_figure (steps_of place) (figure_of shape.now)) }
{
    Ok(match shape {
        Shape::Block(rect) => Shape::Block(placed_rect(place, *rect)),
        Shape::Polygon(points) => Shape::Polygon(placed_path(alloc, place, points)?),
        Shape::Wire { half, path } => Shape::Wire {
            half: *half,
            path: placed_path(alloc, place, path)?,
        },
    })
}

/// The rectangle in its place.
fn placed_rect(place: Place, rect: Rect) -> Rect
    requires shift { IsShiftWithin (2 ^ 60) place }
    requires within { IsRectWithin (2 ^ 60) rect }
    requires low { IsPointWithin (2 ^ 24) (placed place (record { x = rect.x0; y = rect.y0 })) }
    requires high { IsPointWithin (2 ^ 24) (placed place (record { x = rect.x1; y = rect.y1 })) }
    ensures { result ≡ rect_round_lem (placed place (record { x = rect.x0; y = rect.y0 })) (placed place (record { x = rect.x1; y = rect.y1 })) }
{
    let low = Point {
        x: rect.x0,
        y: rect.y0,
    };
    let high = Point {
        x: rect.x1,
        y: rect.y1,
    };
    rect_round(placed_point(place, low), placed_point(place, high))
}

/// The rectangle with two opposite corners at these points.
fn rect_round(p: Point, q: Point) -> Rect
    ensures { result ≡ rect_round_lem p q }
{
    Rect {
        x0: p.x.min(q.x),
        y0: p.y.min(q.y),
        x1: p.x.max(q.x),
        y1: p.y.max(q.y),
    }
}

/// The points in their place.
fn placed_path(alloc: Global, place: Place, path: &[Point]) -> Result<Vec<Point>, AllocError>
    requires shift { IsShiftWithin (2 ^ 60) place }
    requires points { All (IsPointWithin (2 ^ 60)) path.now }
    requires inside { All (λ p. IsPointWithin (2 ^ 24) (placed place p)) path.now }
    ensures { IfOk result (λ made. made.items ≡ map (placed place) path.now) }
{
    let mut made = Vec::new(alloc);
    for p in path {
        made.push(placed_point(place, *p))?;
    }
    Ok(made)
}

/// The point in its place.
fn placed_point(place: Place, p: Point) -> Point
    requires shift { IsShiftWithin (2 ^ 60) place }
    requires point { IsPointWithin (2 ^ 60) p }
    requires inside { IsPointWithin (2 ^ 24) (placed place p) }
    ensures { result ≡ placed place p }
{
    place.apply(p).unwrap()
}

/// The placed labels of the commands, in order.
pub(crate) fn placed_marks(alloc: Global, commands: &[Command<'_>]) -> Result<Vec<Mark>, AllocError>
    requires placeable { All IsPlaceable commands.now }
    requires inside { All (λ c. IsIn (placed_of c)) commands.now }
    ensures marks { IfOk result (λ marks. map marked_of marks.items ≡ marked (map placed_of commands.now)) }
    ensures within { IfOk result (λ marks. All (λ m. IsPointWithin (2 ^ 24) m.at) marks.items) }
{
    let mut marks = Vec::new(alloc);
    for command in commands {
        add_mark(alloc, &mut marks, command)?;
    }
    Ok(marks)
}

/// Adds the placed label of the command, if it is one.
fn add_mark(alloc: Global, marks: &mut Vec<Mark>, command: &Command<'_>) -> Result<(), AllocError>
    requires placeable { IsPlaceable command.now }
    requires inside { IsIn (placed_of command.now) }
    ensures marks { OnOk result (map marked_of marks.new.items ≡ map marked_of marks.old.items ++ marked_by (steps_of command.now.place) command.now.depth command.now.item.now.pos command.now.item.now.what) }
    ensures within { OnOk result (All (λ m. IsPointWithin (2 ^ 24) m.at) marks.old.items → All (λ m. IsPointWithin (2 ^ 24) m.at) marks.new.items) }
{
    if let What::Mark { name, at, layer } = &command.item.what {
        marks.push(Mark {
            name: Label::new(alloc, name.as_bytes())?,
            at: placed_point(command.place, *at),
            layer: *layer,
            depth: command.depth,
            pos: command.item.pos,
        })?;
    }
    Ok(())
}
