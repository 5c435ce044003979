//! The laws of serial runs: a root that `run_serially` ran to its end is a serial run of its kernel.
//!
//! `serial_teams_run_the_kernel`: where the kernel is lawful, its tasks have their traces, each step finds the words as the steps before it
//! left them, and the logs and the words are those of this run. So it is a whole run of the kernel, listed as in an index, with a legal
//! history in serial order that ends in the words (`serial_runs_are_whole_runs`); its tasks keep every rule of a folder
//! (`serial_logs_keep_the_rules`); and where the kernel is fixed and the run has no race, it is the certain run
//! (`serial_runs_without_races_are_certain`). Of a fixed kernel it is the run of `serial_steps`, told lane after lane over logs, traces and
//! memory alone (`serial_teams_go_serially`). What a root did that stopped is the work of a fork-join run in serial order
//! (`stopped_teams_work_serially`), and its logs are an execution of the kernel (`stopped_teams_begin_a_run`).
#![tactic(auto)]

mod laws;

pub use laws::{
    serial_logs_keep_the_rules, serial_runs_are_whole_runs, serial_runs_without_races_are_certain,
    serial_teams_go_serially, serial_teams_run_the_kernel, stopped_teams_begin_a_run,
    stopped_teams_work_serially,
};
