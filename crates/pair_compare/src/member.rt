ghost use Rattle.std.specs.Prelude.{◌≡◌, ◌↔◌, ◌≤◌, All, IsTrue, false};
ghost use Rattle.stride_summary.specs.Run.{last_byte};

use crate::counts::Counts;
use stride_summary::Run;

/// Some runs of a segment and the number of its part. All their bytes are in a range, which is the least one after `measure`, as the
/// counts are the runs' own then.
#[derive(Clone, Copy)]
pub struct Member<'s> {
    pub part: u64,
    pub runs: &'s [Run],
    pub low: u64,
    pub high: u64,
    pub writes: bool,
    pub counts: Counts,
    ghost within: { All (λ run. (low ≤ run.base) × (last_byte run ≤ high)) runs.now },
    ghost quiet: { writes ≡ false → All (λ run. run.write ≡ false) runs.now },
}

/// These runs of the part, measured.
pub fn measured<'s>(part: u64, runs: &'s [Run]) -> Member<'s>
    ensures part { result.part ≡ part }
    ensures runs { result.runs.now ≡ runs.now }
{
    let mut low = u64::MAX;
    let mut high = 0;
    let mut writes = false;
    let mut counts = Counts::none();
    for run in runs {
        low = low.min(run.low());
        high = high.max(run.high());
        writes = writes || run.write;
        counts.add(run);
    }
    Member {
        part,
        runs,
        low,
        high,
        writes,
        counts,
    }
}

impl<'s> Member<'s> {
    pub fn new(part: u64, runs: &'s [Run]) -> Member<'s>
        ensures part { result.part ≡ part }
        ensures runs { result.runs.now ≡ runs.now }
    {
        Member {
            part,
            runs,
            low: 0,
            high: u64::MAX,
            writes: true,
            counts: Counts::none(),
        }
    }

    /// Finds the bytes from the first to the last of the runs, whether one of them writes, and their counts.
    pub fn measure(&mut self)
        ensures part { self.new.part ≡ self.old.part }
        ensures runs { self.new.runs.now ≡ self.old.runs.now }
    {
        *self = measured(self.part, self.runs);
    }

    /// Whether its range meets the bytes from the first to the last.
    pub fn meets(&self, low: u64, high: u64) -> bool
        ensures { IsTrue result ↔ ((self.now.low ≤ high) × (low ≤ self.now.high)) }
    {
        self.low <= high && low <= self.high
    }
}
