//! The report of a search on a formula, written as the search goes on.
//!
//! The report lists the formula's clauses, each sorted, then each derived line as it is found, and last the verdict:
//! values that solve the formula, a refutation, or neither within the budget. The crate promises that a report is whole
//! and true, that what was written after a failed write is a prefix of such a report, and where no memory was found a
//! report so far or nothing, and that a write failed only where the sink's count of faults rose. A formula has one sorted
//! form: the law `one_sorted_form`. The command `solve` stands on it.
#![tactic(auto)]

mod ending;
mod header;
mod laws;
mod report;
mod sorting;
mod verdict_line;

pub use ending::{Ending, ReportFault};
pub use laws::one_sorted_form;
pub use report::write;
