//! Unit propagation over the clauses of a search, by two watched literals for each clause.
//!
//! Each clause that isn't settled on level 0 is watched at two of its literals, and each literal has a list of the
//! clauses that are watched there. Where a watched literal has become false, its list is gone through. The crate
//! promises that `Watches::propagate` ends at a clause whose literals are all false or with all literals of the trail
//! gone through, that only literals with reasons join the trail, and that the watches are kept: by the law
//! `passed_level_is_closed` unit propagation then adds nothing to a level that was gone through. Further laws say that
//! watches are kept where levels are taken back, a level begins, or a clause joins. The solver stands on it.
#![tactic(auto)]

mod laws;
mod lists;
mod numbers;
mod visit;
mod watches;

pub use laws::{back_keeps, clause_keeps, decision_keeps, implied_keeps, passed_level_is_closed};
pub use watches::Watches;
