//! What `run` of a certain kernel leaves: the logs of its one run, for every size of buffers and every timing.
//!
//! A run that ended is the certain run, and has its words (`ended_runs_are_the_certain_run`). What is added to the law of certainty is the order
//! of an index: two runs with the same logs, each listed so, are listed alike. So where a kernel of a file has a certain run, a `run` of the file
//! that ends with status 0 leaves exactly the logs of that run and their index, and prints its counts and sums (`run_leaves_the_certain_run`).
//! `certify` finds such a run (`runs_are_as_certified`), and a kernel that it calls certain never stops (`certified_kernels_never_stop`).
#![tactic(auto)]

mod agreeing;
mod ending;
mod leaving;

pub use agreeing::{certified_kernels_never_stop, runs_are_as_certified};
pub use ending::ended_runs_are_the_certain_run;
pub use leaving::run_leaves_the_certain_run;
