//! Names the nets of a layout: which labels are bound where, which nets they join, and what each net is called.
//!
//! A label is bound to the nodes of one wire at the four cells round its point. Labels of one name, of two names of the
//! high supply or of two names of the low supply join the nets to which they are bound. A net is called by the first by
//! bytes of its bound names, else by `#` and its number. The words stand in `specs/Labels`, `specs/Names` and
//! `specs/Layouts`.
//!
//! The crate promises that the nets, their numbers, their names and the counts of labels are exactly these, and that a
//! layout is refused exactly where it has over 8,192 pieces, or where a label is bound to nodes of two pieces. The
//! extraction of the circuit and the counts of defects stand on it.
#![tactic(auto)]

mod around;
mod bindings;
mod joins;
mod laws;
mod named;
mod names;
mod naming;
mod refusal;
mod tags;

pub use laws::{one_naming, some_layout_masks};
pub use named::{BoundName, Named};
pub use naming::name_nets;
pub use refusal::LayoutRefusal;
