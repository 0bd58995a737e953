//! Strips of one wire of which the one lies on the other.

ghost use Rattle.std.specs.Prelude.{◌≡◌, IfOk};
ghost use Rattle.net_trace.specs.Wirings.{is_below, is_done, AreOrdered, AreBands};

use crate::wiring::Vertex;
use std::alloc::{AllocError, Global};

/// The pairs of strips, by their indices, of which the second lies on the first.
///
/// The strips come wire by wire and row by row, so two places that only move on pass all pairs, in linear time.
pub(crate) fn bands(alloc: Global, vertices: &[Vertex]) -> Result<Vec<(usize, usize)>, AllocError>
    requires { AreOrdered vertices.now }
    ensures { IfOk result (λ pairs. AreBands vertices.now pairs.items) }
{
    let mut pairs = Vec::new(alloc);
    let mut lower = 0;
    let mut upper = 0;
    while upper < vertices.len() {
        if vertices[lower].is_below(&vertices[upper]) {
            pairs.push((lower, upper))?;
        }
        if vertices[lower].is_done(&vertices[upper]) {
            lower += 1;
        } else {
            upper += 1;
        }
    }
    Ok(pairs)
}

impl Vertex {
    /// Whether the other strip lies on this one.
    fn is_below(&self, other: &Vertex) -> bool
        ensures { result ≡ is_below self.now other.now }
    {
        self.wire == other.wire
            && self.strip.y1 == other.strip.y0
            && self.strip.x0 < other.strip.x1
            && other.strip.x0 < self.strip.x1
    }

    /// Whether no strip behind the other one lies on this one.
    fn is_done(&self, other: &Vertex) -> bool
        ensures { result ≡ is_done self.now other.now }
    {
        self.wire < other.wire
            || (self.wire == other.wire
                && (self.strip.y1 < other.strip.y0
                    || (self.strip.y1 == other.strip.y0 && self.strip.x1 < other.strip.x1)))
    }
}
