//! What takes the lines of a proof: clauses that are given, and clauses that are derived, each with its hints.
//!
//! A `ProofSink` tells which lines were said so far, whether it takes another, and how many faults it had. The crate
//! promises that a line that was taken is the one line more that is said, that nothing is said after an error, and that
//! an error other than for want of memory comes only where a count of faults rose. `StepList` keeps the lines,
//! `StepText` prints them to a sink of text, `StepCheck` accepts derived lines only where they follow, `StepPair` gives
//! each line to two sinks, and `StepFail` fails at a chosen call.
//!
//! The solver, the search for tests and the report stand on it.
#![tactic(auto)]

mod check;
mod fail;
mod laws;
mod lines;
mod list;
mod pair;
mod printing;
mod sink;
mod text;

pub use check::StepCheck;
pub use fail::StepFail;
pub use laws::checked_lines_are_a_derivation;
pub use lines::{Hints, Said};
pub use list::StepList;
pub use pair::StepPair;
pub use printing::{put_clause, put_derived, put_given};
pub use sink::{ProofSink, StepFault};
pub use text::StepText;
