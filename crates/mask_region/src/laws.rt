//! Laws of the bounds of regions.

ghost use Rattle.std.specs.Prelude.{◌≡◌, ℕ, ℤ, true, ◌||◌, List};
ghost use Rattle.std.specs.List.{All};
ghost use Rattle.plane_geom.specs.declared.shapes.Rect.{Rect};
ghost use Rattle.plane_geom.specs.Bounds.{IsRectWithin};
ghost use Rattle.plane_geom.specs.Cells.{is_in_rects};
ghost use Rattle.mask_region.specs.declared.strips.Strip.{Strip};
ghost use Rattle.mask_region.specs.Strips.{is_in, Banded, IsCellWithin, AreStripsWithin};

/// Strips lie within a bound where all their cells do.
pub fn within_by_cells()
    ensures { (bound : ℕ) (strips : List Strip) → Banded strips → ((x y : ℤ) → is_in strips x y ≡ true → IsCellWithin bound x y) → AreStripsWithin bound strips }
{}

/// Strips lie within a bound where all their cells are in rectangles within that bound.
pub fn within_by_rects()
    ensures { (bound : ℕ) (strips : List Strip) (rects : List Rect) → Banded strips → All (IsRectWithin bound) rects → ((x y : ℤ) → is_in strips x y ≡ true → is_in_rects rects x y ≡ true) → AreStripsWithin bound strips }
{}

/// Strips lie within a bound where all their cells are in two regions within that bound. So the union, the meet and the
/// difference of two regions lie within every bound of both.
pub fn within_by_regions()
    ensures { (bound : ℕ) (strips a b : List Strip) → Banded strips → AreStripsWithin bound a → AreStripsWithin bound b → ((x y : ℤ) → is_in strips x y ≡ true → (is_in a x y || is_in b x y) ≡ true) → AreStripsWithin bound strips }
{}
