//! Serial runs: all lanes of a kernel in turn, in one order.
//!
//! The serial order is that in which a tree of work tells its steps: in each phase of a region all lanes are split off, then lane 0 does
//! its work and is joined, then lane 1, and so on; then comes the next phase. Where each step finds the words and mutexes as those before
//! it left them, that order is a legal history (`serial_work_has_a_history`): no step needs to be moved, and every hand is out when it
//! takes its steps. So the logs of a tree that runs a kernel serially are those of a whole run, in the order of an index
//! (`serial_runs_are_runs`). Of the logs alone the serial order is told by happens-before and the paths of tasks (`ComesFirst`), and the two
//! are the same (`work_is_told_in_serial_order`).
#![tactic(auto)]

mod serial;

pub use serial::{serial_runs_are_runs, serial_work_has_a_history, work_is_told_in_serial_order};
