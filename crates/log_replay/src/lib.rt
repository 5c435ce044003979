//! Whether a folder belongs to a kernel: each log against the trace of its task.
//!
//! Each task is run again, alone, under the values that its own log reads and the chunk numbers that it draws, from the locals of
//! its parent at the fork. Each record that it puts is compared with the next one of the log, which is read record by record and
//! not kept.
#![tactic(auto)]

mod ancestors;
mod body;
mod comparing;
mod forked;
mod lane;
mod laws;
mod replaying;
mod stray;
mod value;

pub use comparing::follow;
pub use forked::Forked;
pub use laws::{first_record_that_differs_is_unique, tasks_that_differ_are_no_run};
pub use replaying::{Replayed, replay};
pub use stray::Stray;
