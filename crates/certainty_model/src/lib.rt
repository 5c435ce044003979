//! Certain kernels: one run without races is every run.
//!
//! A kernel is *fixed* (`IsFixed`) if it has no loop whose chunks are drawn, which lets the order of its lanes decide more than what they
//! read; no critical section, whose mutex hides a race; and no atomic update, without which the law is stated. A *run* (`IsRun`) is the
//! tasks of a whole run with a legal history that respects happens-before. A run of a fixed kernel that has no race is *certain*
//! (`IsCertain`).
//!
//! The laws, of lawful kernels: whatever an execution of the kernel logs, whole or stopped, the certain run logs first
//! (`executions_begin_the_certain_run`); no task of it stops at a divisor 0, an index outside its array or a full log
//! (`certain_kernels_never_stop`); a whole run has the certain run's logs (`certain_run_is_the_only_one`), and ends in its words
//! (`certain_runs_end_alike`).
#![tactic(auto)]

mod certainty;

pub use certainty::{
    certain_kernels_never_stop, certain_run_is_the_only_one, certain_runs_end_alike,
    executions_begin_the_certain_run,
};
