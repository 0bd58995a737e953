//! What the tests of several crates build.

use clause_base::{Formula, Lit, read_formula};
use std::alloc::{AllocError, Global};
use std::test::Fail;

/// The literals of these numbers.
pub(crate) fn lits(alloc: Global, numbers: &[i32]) -> Result<Vec<Lit>, AllocError> {
    numbers
        .iter()
        .filter_map(|number| Lit::new(*number))
        .collect(alloc)
}

/// The formula that the text spells.
pub(crate) fn formula(alloc: Global, text: &[u8]) -> Result<Formula, Fail> {
    read_formula(alloc, text).map_err(|_| Fail::from("the text spells no formula"))
}
