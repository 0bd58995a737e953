//! Transistors: the classes of channel cells, with their gates and terminals.
//!
//! A line of a layer map has a channel cell wherever its expression holds. A transistor is a class of channel cells of one
//! line that are linked by shared edges. Its gate is the net of the line's gate wire on its cells, and its terminals are
//! the nets of the line's diff wire on the cells that share an edge with one of its cells. One net alone is both
//! terminals. Transistors come in the order of their lines, and on a line in the order of their least cells by y and x.
//! The words stand in `specs/Channels`, `specs/Transistors` and `specs/Refusals`.
//!
//! The crate promises that a layout's transistors are exactly these, in this order, and that a layout is refused exactly
//! where a channel cell has no gate, where a transistor has no terminal or more than two, and where there are over 4,096
//! transistors. The circuit stands on it.
#![tactic(auto)]

mod contacts;
mod extraction;
mod fets;
mod gates;
mod laws;
mod refusal;
mod shifts;
mod sides;
mod terminals;

pub use extraction::extract;
pub use laws::one_extraction;
pub use refusal::DeviceRefusal;
