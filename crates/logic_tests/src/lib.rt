//! The tests of the devices and of the crates that read formulas, search on them and check what a search derives.
//!
//! Each module tests the crate of its name. A test calls public items alone, on rows whose answers come from outside. The
//! tests stand apart from the crates, since the tests of a crate are checked together with all of its proofs.
#![tactic(auto)]

#[cfg(test)]
mod clause_arena_tests;
#[cfg(test)]
mod clause_base_tests;
#[cfg(test)]
mod conflict_solver_tests;
#[cfg(test)]
mod fixtures;
#[cfg(test)]
mod probe_io_tests;
#[cfg(test)]
mod proof_sinks_tests;
#[cfg(test)]
mod refutation_check_tests;
#[cfg(test)]
mod solve_report_tests;
