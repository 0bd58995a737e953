//! The command `solve FORMULA BUDGET`: a search for values that solve a formula.
//!
//! It writes values, a refutation line by line, or that it came to its budget undecided. The crate promises that `solve`
//! ends as its job may end, and that the job has one refusal at most, and none beside a report.
#![tactic(auto)]

mod command;

pub use command::solve;
