use sw_base::Path;

/// What the rules of one log stand on.
#[derive(Drop)]
pub struct Task {
    /// The task's path.
    pub path: Path,
    /// How many records its row tells.
    pub records: u32,
    /// The spans of its regions by the index, by number.
    pub spans: Vec<u16>,
    /// The barriers of its team's lane 0, for a lane from 1 on.
    pub due_barriers: Option<u32>,
}
