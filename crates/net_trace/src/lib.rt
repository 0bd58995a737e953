//! Nets: the classes of cells of wires that touch, through cuts too, and that are joined.
//!
//! A wire of a layer map has a node at each cell of its mask. Two nodes of one wire touch where their cells share an edge,
//! and two nodes of one cell touch where a cut lists both wires and has the cell. A net is a class of nodes that are linked
//! by touching, or by being joined; nets are numbered from 0 by their least nodes in the order of wire, y and x. The words
//! stand in `specs/Touching` and `specs/Nets`.
//!
//! The crate promises that a layout's nets are exactly these classes, in this order, that it says of each cell its net and
//! of each net its cells, and that a layout is refused exactly where it has over 8,192 nets before any are joined. Names of
//! nets, transistors and the counts of defects stand on it. The channels of transistors are the pieces of a plane of their
//! own, which `pieces_of` finds.
#![tactic(auto)]

mod bands;
mod cuts;
mod joining;
mod laws;
mod node;
mod parts;
mod pieces;
mod refusal;
mod ties;
mod traced;
mod tracing;
mod wiring;

pub use laws::one_numbering_of_nets;
pub use node::Node;
pub use pieces::{Pieces, pieces_of};
pub use refusal::TraceRefusal;
pub use traced::Traced;
pub use tracing::trace;
