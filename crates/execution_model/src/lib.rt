//! Executions of a kernel: what the logs of a run are, whether it ended or stopped.
//!
//! `IsExecution` says it of the logs alone. The tasks are a tree, whose root runs `main`; each log begins the trace of its task under
//! the values that it read and the chunks that it drew, from the locals that its parent had at the fork; nobody goes on after a
//! barrier or a region before those that it waits for; the lanes of a team draw each chunk once; and all accesses and mutex steps have
//! one legal history that respects happens-before (sequential consistency).
//!
//! `RunsTask` says when a tree of work is that of a kernel: the works of each task are those of its start, from the root down. That the
//! logs of such a tree are an execution is a law of `execution_laws`.
#![tactic(auto)]
