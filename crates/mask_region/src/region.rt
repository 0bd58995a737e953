//! Regions: sets of cells, and the operations on them.

ghost use Rattle.std.specs.Prelude.{◌≡◌, ◌^◌, ◌<◌, ◌≤◌, ◌++◌, ◌∷◌, ℤ, [], false, not, ◌&&◌, ◌||◌, IfOk, OnOk, OnErr, MatchOption};
ghost use Rattle.std.specs.List.{All};
ghost use Rattle.plane_geom.specs.Bounds.{IsRectWithin};
ghost use Rattle.plane_geom.specs.Cells.{is_in_rects, is_met, count_cells};
ghost use Rattle.mask_region.specs.Joins.{joined};
ghost use Rattle.mask_region.specs.Strips.{is_in, AreStripsWithin, Banded, HasCellAt};

use crate::bands::join;
use crate::columns::meet_strips;
use crate::ends::Joining;
use crate::rects::strips_of;
use crate::sizes::{area_of, find_strip, grown_rects, has_cell};
use crate::strips::Strip;
use plane_geom::{Point, Rect};
use std::alloc::{AllocError, Global};
use std::marker::Model;

/// A set of cells with both coordinates from -33,554,432 to 33,554,431. Contracts see it as its list of strips, of
/// which `is_in` says the cells. The strips are banded: none is empty, no two share a cell, and they come by `y0` and
/// then by `x0`.
#[derive(Debug, Drop)]
pub struct Region {
    strips: Vec<Strip>,
}

impl Model for Region {
    ghost use Rattle.std.specs.Prelude.{List};
    ghost use Rattle.mask_region.specs.declared.strips.Strip.{Strip};
    ghost use Rattle.mask_region.specs.Strips.{Banded};

    ghost Value = { List Strip };

    ghost view = { λ r. r.strips.items };

    ghost invariant = { λ r. Banded r.strips.items };
}

impl Region {
    /// The region with no cell.
    pub fn empty(alloc: Global) -> Region
        ensures { result ≡ [] }
    {
        Region {
            strips: Vec::new(alloc),
        }
    }

    /// The cells of all rectangles, whose coordinates are at most 33,554,432 from 0.
    /// It fails only where no memory is found.
    pub fn of_rects(alloc: Global, rects: &[Rect]) -> Result<Region, AllocError>
        requires { All (IsRectWithin (2 ^ 25)) rects.now }
        ensures { IfOk result (λ r. (x y : ℤ) → is_in r x y ≡ is_in_rects rects.now x y) }
    {
        Ok(Region {
            strips: strips_of(alloc, rects)?,
        })
    }

    /// The same region once more. It fails only where no memory is found.
    pub fn copy(&self, alloc: Global) -> Result<Region, AllocError>
        ensures { IfOk result (λ r. r ≡ self.now) }
    {
        Ok(Region {
            strips: Vec::from_slice(alloc, self.strips.as_slice())?,
        })
    }

    /// Adds a strip behind all others: it is not empty, and follows each of them as `Banded` says. Where no memory is
    /// found, the region stays as it is.
    pub fn push(&mut self, strip: Strip) -> Result<(), AllocError>
        requires { Banded (self.old ++ strip ∷ []) }
        ensures pushed { OnOk result (self.new ≡ self.old ++ strip ∷ []) }
        ensures kept { OnErr result (self.new ≡ self.old) }
    {
        self.strips.push(strip)?;
        Ok(())
    }

    /// The cells that are in this region, in the other one, or in both. It fails only where no memory is found.
    pub fn union(&self, alloc: Global, other: &Region) -> Result<Region, AllocError>
        ensures { IfOk result (λ r. (x y : ℤ) → is_in r x y ≡ (is_in self.now x y || is_in other.now x y)) }
    {
        self.joined(alloc, Joining::Union, other)
    }

    /// The cells that are in both regions. It fails only where no memory is found.
    pub fn meet(&self, alloc: Global, other: &Region) -> Result<Region, AllocError>
        ensures { IfOk result (λ r. (x y : ℤ) → is_in r x y ≡ (is_in self.now x y && is_in other.now x y)) }
    {
        let strips = meet_strips(alloc, self.strips.as_slice(), other.strips.as_slice())?;
        Ok(Region { strips })
    }

    /// The cells that are in this region and not in the other one. It fails only where no memory is found.
    pub fn minus(&self, alloc: Global, other: &Region) -> Result<Region, AllocError>
        ensures { IfOk result (λ r. (x y : ℤ) → is_in r x y ≡ (is_in self.now x y && not (is_in other.now x y))) }
    {
        self.joined(alloc, Joining::Minus, other)
    }

    /// The placements of a square of `side` cells on a side that meet the region. A placement is named by the lower
    /// left cell of the square. The side is from 1 to 65,536, and no coordinate of the region is over 16,777,216 from 0.
    /// It fails only where no memory is found.
    pub fn grow(&self, alloc: Global, side: u32) -> Result<Region, AllocError>
        requires some { 0 < side }
        requires small { side ≤ 65536 }
        requires within { AreStripsWithin (2 ^ 24) self.now }
        ensures { IfOk result (λ r. (x y : ℤ) → is_in r x y ≡ is_met side (is_in self.now) x y) }
    {
        let rects = grown_rects(alloc, self.strips.as_slice(), side)?;
        Region::of_rects(alloc, rects.as_slice())
    }

    /// Whether the cell is in the region.
    pub fn has(&self, cell: Point) -> bool
        ensures { result ≡ is_in self.now cell.x cell.y }
    {
        has_cell(self.strips.as_slice(), cell)
    }

    /// The index, among the strips, of the one that has the cell; `None` where none has. The search is a binary one.
    pub fn strip_at(&self, cell: Point) -> Option<usize>
        ensures { MatchOption result (is_in self.now cell.x cell.y ≡ false) (λ k. HasCellAt self.now cell.x cell.y k) }
    {
        find_strip(self.strips.as_slice(), cell)
    }

    /// How many cells the region has.
    pub fn area(&self) -> u64
        ensures { result ≡ count_cells (is_in self.now) }
    {
        area_of(self.strips.as_slice())
    }

    /// The strips of the region: none is empty, no two share a cell, and they come by `y0` and then by `x0`. Two of
    /// them have the same rows or no row in common, and those with the same rows don't touch.
    pub fn strips(&self) -> &[Strip]
        ensures same { result.now ≡ self.now }
        ensures banded { Banded self.now }
    {
        self.strips.as_slice()
    }

    /// The joined set.
    fn joined(&self, alloc: Global, op: Joining, other: &Region) -> Result<Region, AllocError>
        ensures { IfOk result (λ r. (x y : ℤ) → is_in r x y ≡ joined op (is_in self.now x y) (is_in other.now x y)) }
    {
        let strips = join(alloc, op, self.strips.as_slice(), other.strips.as_slice())?;
        Ok(Region { strips })
    }
}
