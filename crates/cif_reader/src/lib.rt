//! Reads a CIF text into the symbols, shapes, calls and labels that it spells, in mask units.
//!
//! A mask unit is half a hundredth of a micron. The crate promises that a text is read exactly where no refusal holds,
//! that the file then holds what the text spells, by the definition `Accepts`, and that each refusal is the first
//! fault of the text, at its exact position, by the definition `Refuses`.
//!
//! The flattening of calls and the extraction of nets stand on it.
#![tactic(auto)]

mod builder;
mod calls;
mod facing;
mod file;
mod judge;
mod label;
mod laws;
mod measure;
mod path;
mod reading;
mod refusal;

pub use file::{CifFile, Item, Symbol, What};
pub use laws::one_answer;
pub use reading::read;
pub use refusal::{CifRefusal, Feature};
