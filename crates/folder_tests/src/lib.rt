//! Tests of folders of logs: which barrier intervals they hold, with which labels, or which bad place is the first; whether a log is that of a
//! task of a kernel; the folders of generated runs; and which records race.
//!
//! They stand beside the crates that they test, and not in them, since a crate with tests is proved twice.
#![tactic(auto)]

#[cfg(test)]
mod tests;
