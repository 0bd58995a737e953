//! Evaluates the expressions of a layer map on a layout.
//!
//! The crate promises that the masks have one region for each wire, cut and transistor line of the map, in the map's
//! order, with exactly the cells where the line's expression is true, by the definitions of `specs/Masks`. A layer's name
//! is true at a cell where a placed shape on that layer covers the cell.
//!
//! The region of a layer is made when the layer is first named, and once. Expressions are evaluated in a square that
//! holds all shapes, so that what `!` gives is finite. A map's expressions are false where no layer is present, so
//! nothing is missed outside of the square.
//!
//! The tracing of nets and the extraction of transistors stand on it.
#![tactic(auto)]

mod canvas;
mod evaluation;
mod laws;
mod layers;

pub use evaluation::evaluate;
pub use laws::some_masks;
