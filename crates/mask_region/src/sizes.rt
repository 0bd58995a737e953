//! What strips say of a region: its growth, its area, and the strip of a cell.

ghost use Rattle.std.specs.Prelude.{◌≡◌, ◌^◌, ◌<◌, ◌≤◌, ℤ, false, IfOk, MatchOption};
ghost use Rattle.std.specs.List.{All};
ghost use Rattle.plane_geom.specs.Bounds.{IsRectWithin};
ghost use Rattle.plane_geom.specs.Cells.{is_in_rects, is_met, count_cells};
ghost use Rattle.mask_region.specs.Strips.{is_in, AreStripsWithin, Banded, HasCellAt};

use crate::strips::Strip;
use plane_geom::{Point, Rect};
use std::alloc::{AllocError, Global};

/// For each strip the rectangle of the placements whose square of `side` cells on a side meets the strip.
pub(crate) fn grown_rects(
    alloc: Global,
    strips: &[Strip],
    side: u32,
) -> Result<Vec<Rect>, AllocError>
    requires some { 0 < side }
    requires small { side ≤ 65536 }
    requires banded { Banded strips.now }
    requires within { AreStripsWithin (2 ^ 24) strips.now }
    ensures within { IfOk result (λ v. All (IsRectWithin (2 ^ 25)) v.items) }
    ensures cells { IfOk result (λ v. (x y : ℤ) → is_in_rects v.items x y ≡ is_met side (is_in strips.now) x y) }
{
    let mut rects = Vec::new(alloc);
    for strip in strips {
        rects.push(strip.grown(side))?;
    }
    Ok(rects)
}

/// How many cells the strips have.
pub(crate) fn area_of(strips: &[Strip]) -> u64
    requires { Banded strips.now }
    ensures { result ≡ count_cells (is_in strips.now) }
{
    let mut total = 0;
    for strip in strips {
        total += strip.area();
    }
    total
}

/// Whether the cell is in one of the strips, by a binary search.
pub(crate) fn has_cell(strips: &[Strip], cell: Point) -> bool
    requires { Banded strips.now }
    ensures { result ≡ is_in strips.now cell.x cell.y }
{
    find_strip(strips, cell).is_some()
}

/// The index of the strip that has the cell, by a binary search.
pub(crate) fn find_strip(strips: &[Strip], cell: Point) -> Option<usize>
    requires { Banded strips.now }
    ensures { MatchOption result (is_in strips.now cell.x cell.y ≡ false) (λ k. HasCellAt strips.now cell.x cell.y k) }
{
    let k = strips.partition_point(|strip| strip.is_before(cell));
    match strips.get(k) {
        Some(strip) if strip.has(cell) => Some(k),
        _ => None,
    }
}
