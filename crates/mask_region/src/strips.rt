//! Strips: rectangles of cells.

ghost use Rattle.std.specs.Prelude.{◌≡◌, ◌^◌, ◌<◌, ◌≤◌, ℤ, not, int_lt};
ghost use Rattle.plane_geom.specs.Bounds.{IsRectWithin};
ghost use Rattle.plane_geom.specs.Cells.{is_between, is_in_rect, is_met, count_cells};
ghost use Rattle.mask_region.specs.Columns.{reaches};
ghost use Rattle.mask_region.specs.Strips.{is_in_strip, IsStrip, IsStripWithin};
ghost use Rattle.mask_region.specs.Sweeping.{is_before_cell};

use plane_geom::{Point, Rect};

/// The cells with `x0 <= x < x1` and `y0 <= y < y1`, in mask units.
#[derive(Clone, Copy, Debug, PartialEq, Eq)]
pub struct Strip {
    pub y0: i32,
    pub y1: i32,
    pub x0: i32,
    pub x1: i32,
}

impl Strip {
    /// How many cells the strip has.
    pub(crate) fn area(&self) -> u64
        requires { IsStrip self.now }
        ensures { result ≡ count_cells (is_in_strip self.now) }
    {
        let width = (self.x1 - self.x0) as u64;
        let height = (self.y1 - self.y0) as u64;
        width * height
    }

    /// The rectangle of the placements whose square of `side` cells on a side meets the strip: the square's lower left
    /// cell may lie up to `side - 1` cells further left and further down.
    pub(crate) fn grown(&self, side: u32) -> Rect
        requires some { 0 < side }
        requires small { side ≤ 65536 }
        requires strip { IsStrip self.now }
        requires within { IsStripWithin (2 ^ 24) self.now }
        ensures within { IsRectWithin (2 ^ 25) result }
        ensures cells { (x y : ℤ) → is_in_rect result x y ≡ is_met side (is_in_strip self.now) x y }
    {
        let more = side as i64 - 1;
        Rect {
            x0: self.x0 as i64 - more,
            y0: self.y0 as i64 - more,
            x1: self.x1 as i64,
            y1: self.y1 as i64,
        }
    }

    /// Whether the strip lies in a band below the cell, or left of the cell in a band that begins at the cell's row or
    /// below.
    pub(crate) fn is_before(&self, cell: Point) -> bool
        ensures { result ≡ is_before_cell cell.x cell.y self.now }
    {
        is_up_to(self.y1, cell.y) || (is_up_to(self.y0, cell.y) && is_up_to(self.x1, cell.x))
    }

    /// Whether the strip has a cell in the columns from `left` up to `right`.
    pub(crate) fn reaches(&self, left: i32, right: i32) -> bool
        ensures { result ≡ reaches left right self.now }
    {
        self.x0 < right && left < self.x1
    }

    /// Whether the cell is one of the strip's.
    pub(crate) fn has(&self, cell: Point) -> bool
        ensures { result ≡ is_in_strip self.now cell.x cell.y }
    {
        is_span_of(self.x0, self.x1, cell.x) && is_span_of(self.y0, self.y1, cell.y)
    }
}

/// Whether `low <= z`.
fn is_up_to(low: i32, z: i64) -> bool
    ensures { result ≡ not (int_lt z low) }
{
    low as i64 <= z
}

/// Whether `low <= z < high`.
fn is_span_of(low: i32, high: i32, z: i64) -> bool
    ensures { result ≡ is_between low high z }
{
    is_up_to(low, z) && !is_up_to(high, z)
}
