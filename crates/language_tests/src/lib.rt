//! Tests of kernels: their texts, that is tokens, parse trees, which kernel is read or where and why there is none, and files that hold one; what
//! they mean; and what one serial run tells of all their runs.
//!
//! They stand beside the crates that they test, and not in them, since a crate with tests is proved twice.
#![tactic(auto)]

#[cfg(test)]
mod tests;
