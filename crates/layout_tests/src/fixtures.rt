//! What the tests of several crates build.

use cif_reader::CifFile;
use std::alloc::{AllocError, Global};
use std::test::Fail;

/// The file that the text spells.
pub(crate) fn file(alloc: Global, text: &str) -> Result<CifFile, Fail> {
    Ok(cif_reader::read(alloc, text.as_bytes())?)
}

/// The bytes so many times, after a start and before an end.
pub(crate) fn repeated(
    alloc: Global,
    start: &[u8],
    part: &[u8],
    count: usize,
    end: &[u8],
) -> Result<Vec<u8>, AllocError> {
    let mut text = Vec::new(alloc);
    text.extend_from_slice(start)?;
    for _ in 0..count {
        text.extend_from_slice(part)?;
    }
    text.extend_from_slice(end)?;
    Ok(text)
}
