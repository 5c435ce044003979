ghost use Rattle.std.specs.Prelude.{◌≤◌};

use stride_summary::Run;

/// A run, the number of its part, and the first and the last byte of a stretch of it.
#[derive(Clone, Copy)]
pub struct Hull<'r> {
    pub low: u64,
    pub high: u64,
    pub part: u64,
    pub run: &'r Run,
    ghost ordered: { low ≤ high },
}
