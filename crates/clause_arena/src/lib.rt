//! Clauses that are only added: one vector of all literals, and one of the places where each clause ends.
//!
//! The crate promises that a store, and an arena, is a list of clauses that only grows, that a number or a reference
//! always gives the clause that it was made for, and that want of memory changes nothing. Each clause of an arena lists
//! each literal once, in rising order, and no literal beside its negation. The checker of derivations and the solver
//! stand on it.
#![tactic(auto)]

mod arena;
mod store;

pub use arena::{Arena, ClauseRef};
pub use store::Store;
