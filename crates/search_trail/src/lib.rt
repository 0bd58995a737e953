//! The clauses of a search and its trail: which literals are taken to be true, in which order and why, and what a
//! conflict teaches.
//!
//! Each literal of a trail is a decision, the first of its level, or was made true by a clause whose other literals are
//! false before it; the type keeps these facts. The crate promises that `analyse` answers a conflict with a clause that
//! follows by its hints, lists each literal once and none beside its negation, and is empty on level 0; that its first
//! literal alone is of the current level, and that it teaches unit propagation something new, where the levels below
//! were closed; and that the level to jump to is the lowest on which all its literals but the first are false. The
//! watches of the clauses and the solver stand on it.
#![tactic(auto)]

mod analysis;
mod laws;
mod places;
mod trail;
mod walk;

pub use analysis::{Learnt, analyse};
pub use laws::learnt_is_a_reason;
pub use trail::Trail;
