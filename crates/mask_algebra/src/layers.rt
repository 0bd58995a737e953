//! The regions of layers.

ghost use Rattle.std.specs.Prelude.{◌≡◌, ◌^◌, ◌||◌, ℤ, OnOk, IfOk, IfSome};
ghost use Rattle.std.specs.List.{All};
ghost use Rattle.plane_geom.specs.Bounds.{IsRectWithin};
ghost use Rattle.plane_geom.specs.Cells.{is_in_rects};
ghost use Rattle.plane_geom.specs.Covering.{figure_of, covers};
ghost use Rattle.cif_flatten.specs.Flat.{IsShapeWithin};
ghost use Rattle.mask_algebra.specs.Masks.{layer_covers};
ghost use Rattle.mask_algebra.specs.Layers.{IsNamedAt, IsLayer, IsLayerAt, AreLayers};

use cif_flatten::Draw;
use mask_region::Region;
use plane_geom::{Rect, Shape, Short};
use shape_cut::cut;
use std::alloc::{AllocError, Global};

/// A layer, and the cells that its shapes cover.
#[derive(Debug, Drop)]
pub(crate) struct Layer {
    pub(crate) name: Short,
    pub(crate) region: Region,
}

/// The place of the layer with this name, whose region is made if it isn't there yet.
pub(crate) fn place_of(
    alloc: Global,
    draws: &[Draw],
    layers: &mut Vec<Layer>,
    name: Short,
) -> Result<usize, AllocError>
    requires within { All (λ d. IsShapeWithin (2 ^ 24) d.shape) draws.now }
    requires made { AreLayers draws.now layers.old.items }
    ensures made { AreLayers draws.now layers.new.items }
    ensures place { IfOk result (λ k. IsLayerAt draws.now name layers.new.items k) }
{
    if let Some(place) = find(layers.as_slice(), name) {
        return Ok(place);
    }
    let region = region_of(alloc, draws, name)?;
    let place = layers.len();
    layers.push(Layer { name, region })?;
    Ok(place)
}

/// The place of the layer with this name, if its region is made.
fn find(layers: &[Layer], name: Short) -> Option<usize>
    ensures { IfSome result (λ k. IsNamedAt name layers.now k) }
{
    for k in 0..layers.len() {
        if layers[k].name.as_bytes() == name.as_bytes() {
            return Some(k);
        }
    }
    None
}

/// The cells that the shapes on this layer cover.
fn region_of(alloc: Global, draws: &[Draw], name: Short) -> Result<Region, AllocError>
    requires { All (λ d. IsShapeWithin (2 ^ 24) d.shape) draws.now }
    ensures { IfOk result (λ r. IsLayer draws.now name r) }
{
    let rects = rects_of(alloc, draws, name)?;
    Region::of_rects(alloc, rects.as_slice())
}

/// Rectangles that cover what the shapes on this layer cover.
fn rects_of(alloc: Global, draws: &[Draw], name: Short) -> Result<Vec<Rect>, AllocError>
    requires { All (λ d. IsShapeWithin (2 ^ 24) d.shape) draws.now }
    ensures cells { IfOk result (λ v. (x y : ℤ) → is_in_rects v.items x y ≡ layer_covers draws.now name x y) }
    ensures within { IfOk result (λ v. All (IsRectWithin (2 ^ 24)) v.items) }
{
    let mut rects = Vec::new(alloc);
    for draw in draws {
        if draw.layer.as_bytes() == name.as_bytes() {
            add_cut(alloc, &draw.shape, &mut rects)?;
        }
    }
    Ok(rects)
}

/// Adds rectangles that cover what the shape covers.
fn add_cut(alloc: Global, shape: &Shape, rects: &mut Vec<Rect>) -> Result<(), AllocError>
    requires shape { IsShapeWithin (2 ^ 24) shape.now }
    requires within { All (IsRectWithin (2 ^ 24)) rects.old.items }
    ensures cells { OnOk result ((x y : ℤ) → is_in_rects rects.new.items x y ≡ (is_in_rects rects.old.items x y || covers (figure_of shape.now) x y)) }
    ensures within { OnOk result (All (IsRectWithin (2 ^ 24)) rects.new.items) }
{
    let cut = cut(alloc, shape)?;
    rects.extend_from_slice(cut.as_slice())?;
    Ok(())
}
