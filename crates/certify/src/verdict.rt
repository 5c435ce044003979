//! What is told of a kernel.
use serial_team::StopWhy;
use std::collections::BTreeSet;
use sw_base::Path;

/// What one serial run tells of all runs of its kernel.
#[derive(Drop)]
pub enum Verdict {
    /// The kernel isn't fixed: its first critical section, atomic update or loop whose chunks are drawn, in the order of the text, stands at this line.
    Construct {
        line: u32,
    },
    /// The serial run makes as many records as it may, and the task at this path would put its record of this number, from 1.
    Long {
        path: Path,
        number: u32,
    },
    /// The serial run stops: the task at this path, at this line.
    Stopped {
        path: Path,
        line: u32,
        why: StopWhy,
    },
    /// The logs have more barrier intervals than are compared: this record of the task's log, from 1, opens one too many.
    Segments {
        path: Path,
        number: u32,
    },
    /// Accesses of these lines race in the serial run.
    Racy {
        pairs: BTreeSet<(u32, u32)>,
    },
    /// Every run has the tasks of the serial run, so many with so many records in all, and ends with these words.
    Certain {
        tasks: u64,
        records: u64,
        words: Vec<u64>,
    },
}
