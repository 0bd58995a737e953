//! Cuts a shape of a mask layout into rectangles.
//!
//! The crate promises that the rectangles cover exactly the cells that the shape covers, by the definition `covers` of
//! `plane_geom`: the cells of a block, of a polygon by the even-odd rule, and of the widened segments of a wire. Each
//! rectangle lies within the shape's reach.
//!
//! A polygon is cut into slabs, whose rows are spanned by the same edges; the set of a row's cells is a parity of the
//! places where the row crosses edges. The making of masks stands on it.
#![tactic(auto)]

mod cutting;
mod laws;
mod polygons;
mod wires;

pub use cutting::cut;
pub use laws::one_reach;
