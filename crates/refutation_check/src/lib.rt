//! A checker of derivations: it takes clauses that are given, and accepts a further one only where its hints show that
//! it follows.
//!
//! A clause follows by unit propagation: its literals are taken to be false, each hinted clause but the last then has
//! one literal left, whose negation is taken to be false too, and the last has none left. The crate promises that
//! `Checker::step` accepts exactly the clauses that follow, that a refusal names the first hint at fault, and that no
//! values solve the given clauses once an empty clause was accepted. Its laws say the same of whole derivations, and
//! that hints have one first fault.
//!
//! The sinks of proof lines, the solver and the checker of reports stand on it.
#![tactic(auto)]

mod checker;
mod hints;
mod laws;
mod marks;

pub use checker::Checker;
pub use hints::StepRefusal;
pub use laws::{
    accepted_lines_are_a_derivation, derivation_grows, derivation_refutes, following_is_true,
    one_fault,
};
