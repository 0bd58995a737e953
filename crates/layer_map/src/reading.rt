//! The whole text.

ghost use Rattle.std.specs.Prelude.{◌≡◌, ◌≢◌, IfOk, IfErr};
ghost use Rattle.layer_map.specs.Faults.{Accepts, Refuses};

use crate::map::LayerMap;
use crate::refusal::{MapRefusal, Side};
use crate::rows::row_of;
use crate::words::next_line;
use std::alloc::Global;

/// Reads a layer map. Its lines are `wire NAME EXPR`, `cut EXPR : NAMES`, `fet n EXPR gate NAME diff NAME`, `fet p ..`,
/// `label LAYER NAMES`, `high NAMES` and `low NAMES`; blank lines, and lines that begin with `#`, are skipped. In an
/// expression `+` is or, `*` is and, `!` is not.
///
/// The first line at fault decides what is refused. Within one line `BadLine` comes first, then `TooMany`,
/// `UnknownWire`, `TwiceNamed` and `Unbounded`; `NoSupplyLine` comes after all lines.
pub fn read(alloc: Global, bytes: &[u8]) -> Result<LayerMap, MapRefusal>
    // What is read has no fault, and is the map that the lines say.
    ensures accepted { IfOk result (Accepts bytes.now) }
    // What is refused has this fault first, unless memory runs out.
    ensures refused { IfErr result (λ fault. fault ≢ MapRefusal.NoMemory → Refuses bytes.now fault) }
{
    let mut map = LayerMap::empty(alloc);
    let mut number = 0;
    let mut rest = bytes;
    while let Some((line, behind)) = next_line(rest) {
        number += 1;
        let Some(row) = row_of(line) else {
            return Err(MapRefusal::BadLine(number));
        };
        if let Err(fault) = map.add(alloc, number, row) {
            return Err(fault);
        }
        rest = behind;
    }
    if map.high.is_empty() {
        return Err(MapRefusal::NoSupplyLine(Side::High));
    }
    if map.low.is_empty() {
        return Err(MapRefusal::NoSupplyLine(Side::Low));
    }
    Ok(map)
}
