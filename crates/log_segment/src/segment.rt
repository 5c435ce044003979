use span_label::Label;
use stride_summary::Run;
use sw_base::Path;

/// A barrier interval (SWORD 2018): a maximal run of records of one log without a Region or Barrier, with an access.
#[derive(Drop)]
pub struct Segment {
    /// The task's path.
    pub path: Path,
    /// The number of the first record, from 1.
    pub first: u32,
    /// The number of the last record.
    pub last: u32,
    /// The offset-span label of all its records.
    pub label: Label,
    /// The reads and writes, as runs.
    pub runs: Vec<Run>,
}
