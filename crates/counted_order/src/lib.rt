//! Happens-before decided by counting, without labels: two records are compared where the paths of their tasks part, by the
//! places of the records there in one log, or by the barriers that the two lanes of a region passed before.
#![tactic(auto)]

mod order;

pub use order::{counts_are_happens_before, paths_tell_unordered};
