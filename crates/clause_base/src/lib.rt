//! Clauses and formulas, and what it means to solve them.
//!
//! A literal is a variable or its negation, a clause is a list of literals of which one must be true, and a formula is
//! a list of clauses. The crate promises that `solves` tells exactly whether values make each clause true, and that
//! `distinct` and `normal` keep the set of a clause's literals. `read_formula` gives the one formula that a text spells,
//! or the text's first fault at its exact position. The definitions say when a clause is new, and when it teaches unit
//! propagation something new; the laws tie these together.
//!
//! The arena of clauses, the checker of derivations and the solver stand on it.
#![tactic(auto)]

mod clauses;
mod faults;
mod formulas;
mod laws;
mod literals;
mod numbers;
mod parts;
mod reading;
mod words;

pub use clauses::{Clause, distinct, normal};
pub use faults::FormulaFault;
pub use formulas::{Formula, solves};
pub use laws::{
    one_answer, one_rising_clause, tautology_or_apart, teaching_is_new, teaching_is_no_superset,
    values_are_consistent,
};
pub use literals::Lit;
pub use numbers::read_decimal;
pub use reading::read_formula;
