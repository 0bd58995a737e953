//! The command `bridges MAP CIF SIDES`: the pairs of nets that a square defect can short, for any layer map and any layout,
//! with exact counts, the largest first.
//!
//! The crate promises that `bridges` ends as its job may end, that the job has one refusal at most and none beside a report,
//! and that words and files have one report at most.
#![tactic(auto)]

mod command;
mod laws;
mod report;

pub use command::bridges;
pub use laws::one_report;
