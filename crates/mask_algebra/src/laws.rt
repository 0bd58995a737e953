//! Laws of masks.

ghost use Rattle.std.specs.Prelude.{◌≡◌, ◌^◌, false, List};
ghost use Rattle.std.specs.List.{All, AllByRecursion};
ghost use Rattle.cif_flatten.specs.declared.flat.Draw.{Draw};
ghost use Rattle.cif_flatten.specs.Flat.{IsShapeWithin};
ghost use Rattle.layer_map.specs.Truth.{Formula, is_unbounded};
ghost use Rattle.mask_algebra.specs.Masks.{HaveMasks};

/// Expressions that are false where no layer is present have masks on each layout whose shapes are well formed and lie
/// within `plane_geom::RANGE` of 0.
pub fn some_masks()
    ensures { (draws : List Draw) (formulas : List Formula) → All (λ d. IsShapeWithin (2 ^ 24) d.shape) draws → AllByRecursion (λ f. is_unbounded f ≡ false) formulas → HaveMasks draws formulas }
{}
