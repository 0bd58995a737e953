//! The sides of channel cells.

ghost use Rattle.std.specs.Prelude.{◌≡◌, ◌<◌, length, IfOk};
ghost use Rattle.layer_map.specs.Plan.{IsKeptMap};
ghost use Rattle.device_extract.specs.Contacts.{AreSides};

use layer_map::{LayerMap, WireId};
use std::alloc::{AllocError, Global};

/// One of the four sides of the channel cells of a line: the cells that lie so far to the right and up from them, on the
/// line's diff wire.
#[derive(Clone, Copy)]
pub(crate) struct Side {
    pub line: u32,
    pub diff: WireId,
    pub right: i32,
    pub up: i32,
}

/// The four sides of the channel cells of each line.
pub(crate) fn sides(alloc: Global, map: &LayerMap) -> Result<Vec<Side>, AllocError>
    ensures sides { IfOk result (λ v. AreSides map.now.fets (length map.now.fets) v.items) }
    ensures kept { IsKeptMap map.now }
{
    let mut sides = Vec::new(alloc);
    for (k, line) in map.fets().iter().enumerate() {
        sides.push(side_of(k, line.diff, 1, 0))?;
        sides.push(side_of(k, line.diff, -1, 0))?;
        sides.push(side_of(k, line.diff, 0, 1))?;
        sides.push(side_of(k, line.diff, 0, -1))?;
    }
    Ok(sides)
}

/// The side of the line with that index.
fn side_of(k: usize, diff: WireId, right: i32, up: i32) -> Side
    requires { k < 8 }
    ensures { result ≡ record { line = k; diff = diff; right = right; up = up } }
{
    Side {
        line: k as u32,
        diff,
        right,
        up,
    }
}
