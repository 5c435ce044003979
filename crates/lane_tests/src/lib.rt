//! Tests of one lane: its steps on mutexes, the statements and worksharing loops that it executes, the regions that it forks, and the ends of
//! its phases and of its task, each with the records in its log.
//!
//! They stand beside the crate that they test, and not in it, since a crate with tests is proved twice.
#![tactic(auto)]

#[cfg(test)]
mod tests;
