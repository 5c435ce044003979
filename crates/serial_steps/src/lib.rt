//! The serial run of a kernel, told over logs, traces and memory alone (`GoesSerially`): the lanes of a region go on one after another, each to its next
//! barrier or its end, and a region that a task forks runs before the task goes on. A fixed kernel has one such run (`serial_run_is_one`).
#![tactic(auto)]

mod lanes;

pub use lanes::serial_run_is_one;
