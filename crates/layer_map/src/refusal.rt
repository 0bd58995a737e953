//! Why a map is refused.

use std::alloc::AllocError;

/// The two supplies.
#[derive(Clone, Copy, Debug, PartialEq, Eq)]
pub enum Side {
    High,
    Low,
}

/// Why a map is refused. A number is that of the line at fault, counted from 1.
#[derive(Clone, Copy, Debug, PartialEq, Eq)]
pub enum MapRefusal {
    /// The text is too long. `read` never gives it: it is for callers, who know how much they read.
    MapTooLong,
    /// The line is not of the grammar.
    BadLine(u64),
    /// The line uses a wire that no earlier line names.
    UnknownWire(u64),
    /// The line's expression is true where no layer is.
    Unbounded(u64),
    /// The line names a wire, a label's layer or a supply for a second time.
    TwiceNamed(u64),
    /// No line names a supply of this side.
    NoSupplyLine(Side),
    /// With the line there are over 16 wires, 32 cuts, 8 kinds of transistors, 64 label lines or 32 names of one supply,
    /// or the line has over 16 wires in a list or a too large expression: over 64 names of layers, or over 32 `(` and `!`
    /// open round one place.
    TooMany(u64),
    /// Memory ran out before the answer was known. It can come in place of any other answer.
    NoMemory,
}

impl From<AllocError> for MapRefusal {
    ghost use Rattle.std.specs.Prelude.{◌≡◌};
    ghost use Rattle.layer_map.specs.declared.refusal.MapRefusal.TheVariants.{NoMemory};

    ghost from_gives = { λ _ fault. fault ≡ NoMemory };

    fn from(_: AllocError) -> MapRefusal {
        MapRefusal::NoMemory
    }
}
