//! The points of polygons and wires.

ghost use Rattle.std.specs.Prelude.{◌≡◌, ◌<◌, false, true, map, flat_map, IfOk, Some, None, if◌then◌else◌, is_some};
ghost use Rattle.std.specs.List.{list_any, list_all, All};
ghost use Rattle.plane_geom.specs.Bounds.{IsPointWithin};
ghost use Rattle.plane_geom.specs.Covering.{is_along as is_along_lem, outline, segments};
ghost use Rattle.cif_grammar.specs.Words.{limit};
ghost use Rattle.cif_grammar.specs.Seen.{points_of};
ghost use Rattle.cif_reader.specs.Measure.{value_of as value_of_lem, point_of, points_along, doubled, is_far as is_far_lem, is_whole as is_whole_lem, scaled_point as scaled_point_lem};
ghost use Rattle.cif_reader.specs.Faults.{are_many as are_many_lem};
ghost use Rattle.cif_reader.specs.Near.{is_spot_far, is_spot_whole, end_along};

use crate::measure::{Scale, value_of};
use cif_grammar::{Path, Spot};
use plane_geom::Point;
use std::alloc::{AllocError, Global};

/// The most points of a polygon or wire.
const MOST_POINTS: usize = 1024;

/// Whether a path has too many points.
pub(crate) fn are_many(path: &Path) -> bool
    ensures { result ≡ are_many_lem (points_of path.now) }
{
    path.others.len() >= MOST_POINTS
}

/// Whether one of the points is too far.
fn is_any_far(scale: Scale, spots: &[Spot]) -> bool
    ensures { result ≡ list_any (is_spot_far scale) spots.now }
{
    spots.iter().any(|p| scale.is_far_point(*p))
}

/// Whether all of the points are whole.
fn are_all_whole(scale: Scale, spots: &[Spot]) -> bool
    requires { 0 < scale.b }
    ensures { result ≡ list_all (is_spot_whole scale) spots.now }
{
    spots.iter().all(|p| scale.is_whole_point(*p))
}

/// Whether a point of the path is too far.
pub(crate) fn is_far_path(scale: Scale, path: &Path) -> bool
    ensures { result ≡ list_any (is_far_lem scale) (flat_map doubled (points_along (points_of path.now))) }
{
    scale.is_far_point(path.first) || is_any_far(scale, &path.others)
}

/// Whether all points of the path are whole.
pub(crate) fn is_whole_path(scale: Scale, path: &Path) -> bool
    requires { 0 < scale.b }
    ensures { result ≡ list_all (is_whole_lem scale) (flat_map doubled (points_along (points_of path.now))) }
{
    scale.is_whole_point(path.first) && are_all_whole(scale, &path.others)
}

/// Whether the line from one point to the other lies on an axis.
fn is_along(p: Spot, q: Spot) -> bool
    ensures { result ≡ is_along_lem (point_of p, point_of q) }
{
    value_of(p.x) == value_of(q.x) || value_of(p.y) == value_of(q.y)
}

/// The last point, if all lines from each point to the next lie on the axes.
fn end_along_axes(first: Spot, others: &[Spot]) -> Option<Spot>
    ensures { result ≡ end_along first others.now }
{
    let mut last = first;
    for next in others {
        if !is_along(last, *next) {
            return None;
        }
        last = *next;
    }
    Some(last)
}

/// Whether the edges of an outline lie on the axes, the closing one included.
pub(crate) fn is_outline_along(path: &Path) -> bool
    ensures { result ≡ list_all is_along_lem (outline (points_along (points_of path.now))) }
{
    match end_along_axes(path.first, &path.others) {
        Some(last) => is_along(last, path.first),
        None => false,
    }
}

/// Whether the segments of a centre line lie on the axes.
pub(crate) fn is_line_along(path: &Path) -> bool
    ensures { result ≡ list_all is_along_lem (segments (points_along (points_of path.now))) }
{
    end_along_axes(path.first, &path.others).is_some()
}

/// The points in mask units.
pub(crate) fn scaled_path(
    alloc: Global,
    scale: Scale,
    path: &Path,
) -> Result<Vec<Point>, AllocError>
    requires some { 0 < scale.b }
    requires not_far { list_any (is_far_lem scale) (flat_map doubled (points_along (points_of path.now))) ≡ false }
    ensures value { IfOk result (λ v. v.items ≡ map (scaled_point_lem scale) (points_along (points_of path.now))) }
{
    let mut points = Vec::new(alloc);
    points.push(scale.scaled_point(path.first))?;
    for spot in &path.others {
        points.push(scale.scaled_point(*spot))?;
    }
    Ok(points)
}
