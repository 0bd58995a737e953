//! The tests of the top call that need a device that fails, an input made by code, or a sink in memory that tells what it
//! holds.
//!
//! Calls over plain files are lines of `report_rows`. Each module tests one command, and `diagnostics_tests` the stream that
//! tells why there is no report.
#![tactic(auto)]

#[cfg(test)]
mod bridges_tests;
#[cfg(test)]
mod diagnostics_tests;
#[cfg(test)]
mod fixtures;
#[cfg(test)]
mod solve_tests;
