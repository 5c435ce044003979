//! Long texts.

use std::alloc::{AllocError, Global};

/// So many times a text, with others before and behind.
pub(crate) fn repeated(
    alloc: Global,
    before: &[u8],
    text: &[u8],
    count: usize,
    behind: &[u8],
) -> Result<Vec<u8>, AllocError> {
    let middle = text.repeat(alloc, count)?;
    [before, &middle, behind].concat(alloc)
}
