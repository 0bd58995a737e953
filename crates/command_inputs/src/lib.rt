//! The inputs that commands share: words that spell sides and budgets, the layer map, the layout with its named nets, and the
//! formula.
//!
//! Each input is a stage, which says what is given, which refusal comes for which cause, and which file is read. The crate
//! promises that each of its functions judges by its stage.
#![tactic(auto)]

mod files;
mod laws;
mod numbers;
mod sides;

pub use files::{MappedNets, read_formula, read_layout};
pub use laws::one_list_of_sides;
pub use numbers::read_budget;
pub use sides::read_sides;
