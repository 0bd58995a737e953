//! The points of polygons and wires.

ghost use Rattle.std.specs.Prelude.{◌≡◌, IfOk};
ghost use Rattle.cif_grammar.specs.Readers.{more_points_at};

use crate::spelled::Spot;
use crate::words::next_point_of;
use std::alloc::{AllocError, Global};

/// As many further points as there are.
pub(crate) fn more_points_of(
    alloc: Global,
    total: usize,
    bytes: &[u8],
) -> Result<(Vec<Spot>, &[u8]), AllocError>
    ensures { IfOk result (λ x. (x.0.items, x.1.now) ≡ more_points_at total bytes.now) }
{
    let mut points = Vec::new(alloc);
    let mut rest = bytes;
    while let Some((point, behind)) = next_point_of(total, rest) {
        points.push(point)?;
        rest = behind;
    }
    Ok((points, rest))
}
