//! Strips of two wires that a cut ties together.

ghost use Rattle.std.specs.Prelude.{◌≡◌, [], OnOk, IfOk};
ghost use Rattle.net_trace.specs.Wirings.{vertices_of, AreEdges, AreTied, AreTiedBy};

use crate::bands::bands;
use crate::cuts::CutArea;
use crate::wiring::Wiring;
use mask_region::{Region, Strip};
use plane_geom::Point;
use std::alloc::{AllocError, Global};

/// Pairs of strips, by their indices, that link exactly the strips that touching nodes link.
pub(crate) fn edges(
    alloc: Global,
    wiring: &Wiring,
    cuts: &[CutArea],
) -> Result<Vec<(usize, usize)>, AllocError>
    ensures { IfOk result (λ pairs. AreEdges (record { wires = wiring.now; cuts = cuts.now; joins = [] }) (vertices_of 0 wiring.now) pairs.items) }
{
    let mut pairs = bands(alloc, wiring.vertices())?;
    for cut in cuts {
        tie_all(alloc, &mut pairs, wiring, cut)?;
    }
    Ok(pairs)
}

/// Adds the pairs that a cut ties together.
fn tie_all(
    alloc: Global,
    pairs: &mut Vec<(usize, usize)>,
    wiring: &Wiring,
    cut: &CutArea,
) -> Result<(), AllocError>
    ensures { OnOk result (AreTied wiring.now cut.now pairs.old.items pairs.new.items) }
{
    for first in cut.wires() {
        for second in cut.wires() {
            if first < second {
                tie(alloc, pairs, wiring, cut.region(), *first, *second)?;
            }
        }
    }
    Ok(())
}

/// Adds the pairs of two wires that a cut ties together: of each strip of the cells that are in the cut and on both wires,
/// one cell is enough, since a strip's cells are linked along each wire.
fn tie(
    alloc: Global,
    pairs: &mut Vec<(usize, usize)>,
    wiring: &Wiring,
    cut: &Region,
    first: u32,
    second: u32,
) -> Result<(), AllocError>
    ensures { OnOk result (AreTiedBy wiring.now cut.now first second pairs.old.items pairs.new.items) }
{
    let Some(lower) = wiring.wires().get(first as usize) else {
        return Ok(());
    };
    let Some(upper) = wiring.wires().get(second as usize) else {
        return Ok(());
    };
    let common = cut.meet(alloc, lower)?.meet(alloc, upper)?;
    for strip in common.strips() {
        if let Some(pair) = wiring.pair_at(first, second, corner_of(strip)) {
            pairs.push(pair)?;
        }
    }
    Ok(())
}

/// The least cell of a strip.
fn corner_of(strip: &Strip) -> Point
    ensures x { result.x ≡ strip.now.x0 }
    ensures y { result.y ≡ strip.now.y0 }
{
    Point {
        x: strip.x0 as i64,
        y: strip.y0 as i64,
    }
}
