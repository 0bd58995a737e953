//! Layouts on which expressions are evaluated.

ghost use Rattle.std.specs.Prelude.{◌≡◌, ◌^◌, false, IfOk};
ghost use Rattle.layer_map.specs.Truth.{formula_of, is_unbounded};
ghost use Rattle.mask_region.specs.Strips.{AreStripsWithin};
ghost use Rattle.mask_algebra.specs.Masks.{IsMask};
ghost use Rattle.mask_algebra.specs.Layers.{IsFrame, IsValue};

use crate::layers::{Layer, place_of};
use cif_flatten::{Draw, Flat};
use layer_map::Expr;
use mask_region::Region;
use plane_geom::{RANGE, Rect};
use std::alloc::{AllocError, Global};
use std::marker::Model;

/// A layout on which expressions are evaluated. Contracts see its placed shapes.
#[derive(Drop)]
pub(crate) struct Canvas<'a> {
    draws: &'a [Draw],
    /// The cells that any layout may cover.
    frame: Region,
    /// The layers that were named so far.
    layers: Vec<Layer>,
}

impl<'a> Model for Canvas<'a> {
    ghost use Rattle.std.specs.Prelude.{List};
    ghost use Rattle.cif_flatten.specs.declared.flat.Draw.{Draw};
    ghost use Rattle.mask_algebra.specs.Layers.{IsCanvas};

    ghost Value = { List Draw };

    ghost view = { λ c. c.draws.now };

    ghost invariant = { λ c. IsCanvas c.draws.now c.frame c.layers.items };
}

impl<'a> Canvas<'a> {
    /// The layout, with no layer named so far.
    pub(crate) fn new(alloc: Global, flat: &'a Flat) -> Result<Canvas<'a>, AllocError>
        ensures { IfOk result (λ c. c ≡ flat.now.draws) }
    {
        Ok(Canvas {
            draws: flat.draws(),
            frame: frame(alloc)?,
            layers: Vec::new(alloc),
        })
    }

    /// The cells where the expression is true. It is false where no layer is present.
    pub(crate) fn mask(&mut self, alloc: Global, expr: &Expr) -> Result<Region, AllocError>
        requires { is_unbounded (formula_of expr.now) ≡ false }
        ensures same { self.new ≡ self.old }
        ensures mask { IfOk result (IsMask self.old (formula_of expr.now)) }
        ensures near { IfOk result (AreStripsWithin (2 ^ 24)) }
    {
        let region = self.value(alloc, expr)?;
        // The strips are banded, and so they lie no further out than the cells.
        let _strips = region.strips();
        Ok(region)
    }

    /// The cells of the frame where the expression is true.
    fn value(&mut self, alloc: Global, expr: &Expr) -> Result<Region, AllocError>
        ensures same { self.new ≡ self.old }
        ensures value { IfOk result (IsValue self.old (formula_of expr.now)) }
    {
        match expr {
            Expr::Layer(name) => {
                let place = place_of(alloc, self.draws, &mut self.layers, *name)?;
                self.frame.meet(alloc, &self.layers[place].region)
            }
            Expr::Not(inner) => {
                let region = self.value(alloc, inner)?;
                self.frame.minus(alloc, &region)
            }
            Expr::And(left, right) => {
                let first = self.value(alloc, left)?;
                let second = self.value(alloc, right)?;
                first.meet(alloc, &second)
            }
            Expr::Or(left, right) => {
                let first = self.value(alloc, left)?;
                let second = self.value(alloc, right)?;
                first.union(alloc, &second)
            }
        }
    }
}

/// The cells that any layout may cover.
fn frame(alloc: Global) -> Result<Region, AllocError>
    ensures { IfOk result IsFrame }
{
    let square = Rect {
        x0: -RANGE,
        y0: -RANGE,
        x1: RANGE,
        y1: RANGE,
    };
    Region::of_rects(alloc, &[square])
}
