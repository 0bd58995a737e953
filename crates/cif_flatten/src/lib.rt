//! The unfolding of the calls of a layout, and what decides whether a file can be unfolded.
//!
//! A call stands for the commands of its symbol, moved by the steps of the call first and then by those that move the call
//! itself. `specs/Unfolding` says what a file unfolds to, `specs/Faults` why one is refused, and `specs/Flattening` what the
//! answer is.
//!
//! The crate promises that `flatten` gives exactly the placed shapes and labels of a file, in the order of its unfolding,
//! or the first of its faults, and that `one_flattening` holds: a file has one answer. Calls and weights are counted with
//! nothing unfolded. The layers' masks stand on it, and the labels of nets.
#![tactic(auto)]

mod calls;
mod circles;
mod components;
mod corners;
mod flat;
mod flattening;
mod laws;
mod placing;
mod refusal;
mod sizes;
mod unfolding;

pub use calls::{UndefinedCall, undefined_call};
pub use circles::recursive_symbol;
pub use flat::{Draw, Flat, Mark};
pub use flattening::flatten;
pub use laws::{flattened_within_range, one_flattening, read_calls_are_apart, some_unfolding};
pub use refusal::FlattenRefusal;
pub use sizes::{Size, unfolded_size};
