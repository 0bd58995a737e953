//! Circuits of switches: nets, transistors that conduct by the value of their gate, and the paths along them.
//!
//! An n transistor conducts where its gate is 1, a p transistor where it is 0. A path goes along conducting transistors
//! with no supply in between. The words stand in `specs/Switches`, `specs/Inputs` and `specs/Conduction`.
//!
//! The crate promises that a circuit is refused exactly where a gate floats, where there are more than 256 inputs or where
//! the user asks for a net that is no terminal, and that `drive` tells exactly to which supplies a net has a path. The
//! extraction of transistors, their groups and the recognition of gates stand on it.
#![tactic(auto)]

mod checks;
mod circuits;
mod classes;
mod conditions;
mod drives;
mod fets;
mod laws;
mod marks;
mod pairs;
mod parts;
mod refusal;
mod spreading;

pub use circuits::Circuit;
pub use classes::{Class, Test};
pub use conditions::are_parts;
pub use drives::{Drive, Scratch};
pub use fets::{Fet, conducts};
pub use laws::{empty_paths_drive_nothing, one_refusal, paths_are_chains};
pub use marks::{chosen, gates, terminals};
pub use pairs::Pair;
pub use refusal::CircuitRefusal;

/// A net of a circuit, by its number, from 0.
#[derive(Clone, Copy, Debug, PartialEq, Eq)]
pub struct NetId(pub u32);

/// The kind of a transistor.
#[derive(Clone, Copy, Debug, PartialEq, Eq)]
pub enum Kind {
    /// It conducts where its gate is 1.
    N,
    /// It conducts where its gate is 0.
    P,
}
