//! Tests of what threads share: words, mutexes and counters; parcels that are handed over; and a task's log behind its writer, its blocks, how
//! a buffer cuts it into pieces, and what is in it after each of its calls failed.
//!
//! They stand beside the crates that they test, and not in them, since a crate with tests is proved twice.
#![tactic(auto)]

#[cfg(test)]
mod tests;
