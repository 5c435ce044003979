//! Strided runs: summaries of accesses, whether two runs share a byte, and trees of runs; and of the mutexes that a task holds.

mod mutexes;
mod overlaps;
mod summaries;
mod trees;
