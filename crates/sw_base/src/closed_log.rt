//! The log of a task that has ended or stopped, as it is handed on.

use crate::path::Path;

/// The log of a task that is closed: its task, the log, and how many records were put.
#[derive(Drop)]
pub struct ClosedLog<L> {
    pub path: Path,
    pub log: L,
    pub records: u32,
}
