//! Regions of a mask: sets of cells, kept as strips.
//!
//! A cell (x, y) is the unit square whose lower left corner is the point (x, y), in mask units. A `Region` holds the
//! cells of any rectangles, and gives their union, meet and difference, the placements of a square that meet it, its
//! area and whether a cell is in it. Its strips are banded: none is empty, any two have the same rows or no row in
//! common, and those with the same rows don't touch.
//!
//! The crate promises that each of these is the operation on sets of its name, for every cell of the plane, by the
//! definitions `is_in` and `Banded` of `specs/Strips`. A row is kept as the places where it begins and stops to be in
//! the set, and one merge, with a table of what is joined, serves the three operations.
//!
//! The evaluation of layer expressions, the tracing of nets, devices and the counts of defects stand on it.
#![tactic(auto)]

mod bands;
mod columns;
mod ends;
mod laws;
mod masks;
mod rects;
mod region;
mod sizes;
mod strips;

pub use laws::{within_by_cells, within_by_rects, within_by_regions};
pub use masks::Masks;
pub use region::Region;
pub use strips::Strip;
