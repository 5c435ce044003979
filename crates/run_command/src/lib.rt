//! `run`: a kernel is run, and its logs and their index are written.
//!
//! `run` returns one of these: there is no kernel; the folder has an index; where the kernel stopped, with the logs of its tasks in the folder;
//! or the counts and last values of a run that ended, with its logs and their index. If it can't, the first of the logs are there,
//! and an index at most after all logs of a whole run. `print_outcome` prints it. `statuses_tell_what_files_hold` is a law on the
//! answers: each status that is due comes exactly where the files that were there say so. `ended_runs_keep_the_rules`: the logs of a run that
//! ended keep every rule of a folder.
#![tactic(auto)]

mod answering;
mod beginning;
mod laws;
mod outcome;
mod running;
mod sealing;

pub use answering::print_outcome;
pub use laws::{ended_runs_keep_the_rules, statuses_tell_what_files_hold};
pub use outcome::Outcome;
pub use running::run;
