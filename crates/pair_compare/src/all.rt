ghost use Rattle.std.specs.Prelude.{◌≤◌, IfOk};
ghost use Rattle.race_model.specs.Race.{Lists};
ghost use Rattle.pair_compare.specs.Compare.{IsSegmentPair};

use crate::measuring::measured_groups;
use crate::task::cut;
use crate::team::search_all;
use log_segment::Segment;
use std::alloc::Global;
use std::collections::BTreeSet;
use std::thread::Threads;
use sw_base::{Gate, Memory};

/// The line pairs of the races of the segments, in ascending order: accesses of two segments with concurrent labels, of a common
/// byte, one that writes and not both atomic, under no common mutex. So many workers search at once; each enters the gate with its
/// number when it starts.
pub fn compare_all<R: Threads + Sync, G: Gate>(
    rt: &R,
    alloc: Global,
    segments: &[Segment],
    workers: usize,
    gate: &G,
) -> Result<BTreeSet<(u32, u32)>, Memory>
    requires { (1 ≤ workers) × (workers ≤ 64) }
    ensures { IfOk result (λ pairs. Lists (IsSegmentPair segments.now) pairs.keys) }
{
    let groups = measured_groups(rt, alloc, segments, workers)?;
    let tasks = cut(alloc, &groups, workers)?;
    search_all(rt, alloc, &tasks, workers, gate)
}
