//! The masks of a map.

ghost use Rattle.std.specs.Prelude.{◌≡◌, ◌^◌, false, IfOk, map};
ghost use Rattle.std.specs.List.{AllByRecursion};
ghost use Rattle.layer_map.specs.Truth.{Formula, formula_of, is_unbounded};
ghost use Rattle.mask_region.specs.Strips.{AreRegionsWithin};
ghost use Rattle.mask_algebra.specs.Masks.{wire_formulas, cut_formulas, channel_formulas, AreMasks};

use crate::canvas::Canvas;
use cif_flatten::Flat;
use layer_map::{CutLine, Expr, FetLine, LayerMap, WireLine};
use mask_region::{Masks, Region};
use std::alloc::{AllocError, Global};

/// One region for each wire, cut and transistor line of the map, in the map's order: exactly the cells where the line's
/// expression is true on the layout, by the definition `is_true_at`. It fails only where no memory is found.
pub fn evaluate(alloc: Global, map: &LayerMap, flat: &Flat) -> Result<Masks, AllocError>
    ensures wires { IfOk result (λ masks. AreMasks flat.now.draws (wire_formulas map.now) masks.wires) }
    ensures cuts { IfOk result (λ masks. AreMasks flat.now.draws (cut_formulas map.now) masks.cuts) }
    ensures channels { IfOk result (λ masks. AreMasks flat.now.draws (channel_formulas map.now) masks.channels) }
{
    let mut canvas = Canvas::new(alloc, flat)?;
    let wires = masks_of(alloc, &mut canvas, map.wires())?;
    let cuts = masks_of(alloc, &mut canvas, map.cuts())?;
    let channels = masks_of(alloc, &mut canvas, map.fets())?;
    Ok(Masks::new(wires, cuts, channels))
}

/// A line of a map that has a mask: the cells where its expression is true.
trait MaskLine {
    ghost formula: { Self → Formula };

    /// The expression of the line.
    fn expr(&self) -> &Expr
        ensures { formula_of result.now ≡ formula self.now };
}

impl MaskLine for WireLine {
    ghost formula = { λ l. formula_of l.expr };

    fn expr(&self) -> &Expr {
        &self.expr
    }
}

impl MaskLine for CutLine {
    ghost formula = { λ l. formula_of l.expr };

    fn expr(&self) -> &Expr {
        &self.expr
    }
}

impl MaskLine for FetLine {
    ghost formula = { λ l. formula_of l.channel };

    fn expr(&self) -> &Expr {
        &self.channel
    }
}

/// The masks of the lines, in their order.
fn masks_of<L: MaskLine>(
    alloc: Global,
    canvas: &mut Canvas<'_>,
    lines: &[L],
) -> Result<Vec<Region>, AllocError>
    requires { AllByRecursion (λ l. is_unbounded (L.formula l) ≡ false) lines.now }
    ensures same { canvas.new ≡ canvas.old }
    ensures masks { IfOk result (λ v. AreMasks canvas.old (map L.formula lines.now) v.items) }
    ensures near { IfOk result (λ v. AreRegionsWithin (2 ^ 24) v.items) }
{
    let mut masks = Vec::new(alloc);
    for line in lines {
        masks.push(canvas.mask(alloc, line.expr())?)?;
    }
    Ok(masks)
}
