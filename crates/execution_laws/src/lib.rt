//! The laws of executions of a kernel.
//!
//! `trees_of_work_are_executions`: where the works of each task are those of its start, from the root down, and the steps of all
//! hands have one legal history, the logs of the tree are an execution. `tasks_of_works_are_listed`: the tasks of a tree of work stand
//! in the order of an index. `ended_executions_are_whole`: where the root of an execution ended, its tasks are those of a whole run.
#![tactic(auto)]

mod executions;
mod finished;
mod listing;

pub use executions::trees_of_work_are_executions;
pub use finished::ended_executions_are_whole;
pub use listing::tasks_of_works_are_listed;
