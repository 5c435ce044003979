//! Tests of whole runs of kernels, over logs in memory: that lanes run at once, which records each log has and how it is cut, what is left
//! of nested regions that stop or whose logs fail, and what the command `run` answers and leaves; of the tasks of serial runs;
//! and of teams whose threads stay, whose lanes are numbers.
//!
//! They stand beside `region_runner` and `run_command` and not in them, since a crate with tests is proved twice, and since those of
//! `region_runner` read their kernels as text, on which no run rests.
#![tactic(auto)]

#[cfg(test)]
mod tests;
