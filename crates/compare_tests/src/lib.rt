//! Tests of barrier intervals that are compared: which pairs of lines race, with each number of workers, and which intervals are concurrent
//! with one; of strided runs, whether two share a byte, and trees of them; and of the mutexes that a task holds.
//!
//! They stand beside the crates that they test, and not in them, since a crate with tests is proved twice.
#![tactic(auto)]

#[cfg(test)]
mod tests;
