//! What the crates of `sword` share: a task's path with the name of its log, and the environment.
//!
//! The environment is five traits. A `Folder` holds files, a `File` is one that is open, a `Log` takes the pieces of one task's
//! records, an `Out` takes what is printed, and a `Gate` sees each lane and worker start. Their contracts say what each
//! call does to the content, what stands after an error, and that a call fails only where a count of faults rose.
#![tactic(auto)]

mod closed_log;
mod environment;
mod files;
mod path;
mod reading;
mod trouble;
mod window;

pub use closed_log::ClosedLog;
pub use environment::{File, Folder, Gate, Log, NoGate, Out};
pub use files::{INDEX_HEADER, LOG_HEADER, OLD_INDEX_HEADER, OLD_LOG_HEADER, index_name};
pub use path::{Path, Step};
pub use reading::read_file;
pub use trouble::{Memory, Trouble, take_faults};
pub use window::Window;
