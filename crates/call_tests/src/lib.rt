//! Tests of the top call: what `check`, `show`, `gen` and `upgrade` print of folders, `run` and `certify` of kernels, and `replay` of both; the
//! usage line; the same over real files; and each outside call that fails.
//!
//! They stand beside `top_call`, and not in it, since a crate with tests is proved twice. Those of its threads are in `worker_tests`.
#![tactic(auto)]

#[cfg(test)]
mod tests;
