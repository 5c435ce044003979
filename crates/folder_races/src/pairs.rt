ghost use Rattle.std.specs.Prelude.{◌≡◌, ◌-◌, ◌^◌, ◌≤◌, min, [], IfOk, IfErr, IsErrOf, OnOk};
ghost use Rattle.log_format.specs.declared.format.TheConstants.{FORMAT};
ghost use Rattle.sw_base.specs.Environment.{WhereTold};
ghost use Rattle.sw_base.specs.OnlyReads.{OnlyReads};
ghost use Rattle.log_walk.specs.Walk.{TellsFirstBad};
ghost use Rattle.pair_compare.specs.Compare.{IsSegmentPair};
ghost use Rattle.pair_compare.specs.Conflict.{AddsPairs};
ghost use Rattle.folder_races.specs.Pairs.{AreFolderPairs};
ghost use Rattle.folder_races.specs.Waiting.{most_waiting, size_of};

use log_segment::Segment;
use log_walk::{Sweep, WalkFault};
use pair_compare::{compare_all, unite};
use std::alloc::Global;
use std::collections::BTreeSet;
use std::thread::Threads;
use sw_base::{Folder, Gate, Memory};

/// At most so many segments and runs wait for those of the root's next region.
const MOST: usize = 16_384;

// How many segments and runs there are.
fn count(segments: &[Segment]) -> usize
    ensures { result ≡ min (size_of segments.now) (2 ^ 64 - 1) }
{
    let mut count = 0usize;
    for segment in segments {
        count = count.saturating_add(segment.runs.len()).saturating_add(1);
    }
    count
}

// How many may wait the next time: few at first, so that workers start early.
fn next_limit(limit: usize) -> usize
    ensures { result ≤ most_waiting }
{
    limit.saturating_mul(2).saturating_add(1).min(MOST)
}

// Adds the pairs of the segments that wait. Then none does.
fn compare<R: Threads + Sync, G: Gate>(
    rt: &R,
    alloc: Global,
    gate: &G,
    workers: usize,
    waiting: &mut Vec<Segment>,
    pairs: &mut BTreeSet<(u32, u32)>,
) -> Result<(), Memory>
    requires workers { (1 ≤ workers) × (workers ≤ 64) }
    ensures added { OnOk result (AddsPairs pairs.old.keys pairs.new.keys (IsSegmentPair waiting.old.items)) }
    ensures none { OnOk result (waiting.new.items ≡ []) }
{
    if waiting.is_empty() {
        return Ok(());
    }
    let found = compare_all(rt, alloc, waiting, workers, gate)?;
    unite(pairs, &found)?;
    waiting.clear();
    Ok(())
}

/// The race pairs of the folder's run, found one region of the root after another, and where regions have few accesses several
/// at once. Nothing is kept of the segments that were compared but their pairs.
pub fn folder_pairs<R: Threads + Sync, F: Folder, G: Gate>(
    rt: &R,
    alloc: Global,
    folder: &mut F,
    gate: &G,
    dir: &str,
    workers: usize,
) -> Result<BTreeSet<(u32, u32)>, WalkFault>
    requires workers { (1 ≤ workers) × (workers ≤ 64) }
    ensures pairs { IfOk result (λ pairs. AreFolderPairs (F.state folder.old).content dir.now pairs.keys) }
    ensures refused { IfErr result (λ e. WhereTold (F.state folder.old).content (λ c. TellsFirstBad FORMAT c.held dir.now e)) }

    ensures reads { OnlyReads F.Folder folder.old folder.new (IsErrOf result WalkFault.ReadFault) }
{
    let mut pairs = BTreeSet::new(alloc);
    let (mut sweep, _root) = Sweep::open(alloc, folder, dir)?;
    let mut waiting = Vec::new(alloc);
    let mut number = 0usize;
    let mut limit = 0;
    'regions: while let Some(mut segments) = sweep.next_by(rt, alloc, folder, workers)? {
        number = number.saturating_add(count(&segments));
        waiting.append(&mut segments)?;
        if number <= limit {
            continue;
        }
        compare(rt, alloc, gate, workers, &mut waiting, &mut pairs)?;
        number = 0;
        limit = next_limit(limit);
    }
    compare(rt, alloc, gate, workers, &mut waiting, &mut pairs)?;
    // That the keys of a set ascend is told by its length's contract.
    let _length = pairs.len();
    Ok(pairs)
}
