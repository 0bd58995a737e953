//! Classes of linked things: the words for them, their laws, and the search that finds them.
//!
//! Nets, transistors and groups are all classes of a relation of touching: two things are of one class where a list
//! of things leads from the one to the other, each of which touches the next. The classes are numbered from 0 by their
//! least members. These words stand in `specs/Linked` and `specs/Numbering`, for things of any kind.
//!
//! The crate promises that `classes_of` finds exactly the classes of the pairs that it is given, in that order, in nearly
//! linear time. The tracing of nets, the extraction of transistors and the grouping of gates stand on it.
#![tactic(auto)]

mod forest;
mod laws;
mod partition;

pub use laws::{one_numbering, tables_number_classes};
pub use partition::{Classes, classes_of};
