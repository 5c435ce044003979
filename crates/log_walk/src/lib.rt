//! The logs of a folder, read and checked.
//!
//! `Sweep` goes over the root's log and then over those of one region of the root at a time, each log once through a
//! window, and gives the barrier intervals of each with their labels and accesses; `walk` gives all at once. Both do so
//! exactly where the folder is well formed: it is then that of a fork-join run. Else they name the folder's first bad place:
//! the index before the logs, the logs in the order of their rows, in each the records by number, and at one record the first
//! rule in the order of the table. Answers that aren't of a place are a read that failed, only where the folder's count of
//! read faults rose, and want of memory.
#![tactic(auto)]

mod ahead;
mod check;
mod fault;
mod last_step;
mod laws;
mod log;
mod rules;
mod spans;
mod stack;
mod state;
mod sweep;
mod swept;
mod taking;
mod task;
mod together;
mod walking;
mod window;

pub use fault::WalkFault;
pub use laws::{first_bad_place_is_unique, row_tells_its_task, well_formed_folder_holds_a_run};
pub use log_segment::Segment;
pub use race_model::RecordWhy;
pub use sweep::Sweep;
pub use swept::{sweep_all, sweep_all_as};
pub use walking::{walk, walk_as, walk_old};
