//! A learning solver of formulas: it gives values that solve a formula, or derives the empty clause from it, line by
//! line, or stops once its budget of lines is spent.
//!
//! The crate promises that values solve the formula; that each derived line follows by its hints from the clauses and
//! the lines before it, and teaches unit propagation something new if it isn't empty; that a refutation ends with its
//! one empty line; and that a search is undecided only after exactly its budget of lines, where unit propagation alone
//! refutes nothing. The command `solve` stands on it.
#![tactic(auto)]

mod joining;
mod laws;
mod levels;
mod order;
mod restarts;
mod saying;
mod solving;
mod values;
mod verdict;

pub use laws::{few_new_lines, lines_are_new};
pub use solving::solve;
pub use verdict::{SolveFault, Verdict};
