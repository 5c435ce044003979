//! What the lanes of a region leave is gathered, and what the region answers for it.
ghost use Rattle.std.specs.Prelude.{◌≡◌, ◌<◌, ◌≤◌, ◌∷◌, ◌++◌, ℕ, true, false, length, map, slice_index_or, OnOk, OnErr, IsTrue, ◌↔◌};
ghost use Rattle.lane_runner.specs.Handed.{entries_of};
ghost use Rattle.shared_words.specs.Draws.{regained, IsFirstAlone, HasEachOnce};
ghost use Rattle.shared_words.specs.Handles.{Belongs, with_view};
ghost use Rattle.region_runner.specs.Drawing.{regained_all};
ghost use Rattle.lane_runner.specs.Lane.{halt_of};
ghost use Rattle.region_runner.specs.Gathering.{ClosedValue, Gathered, IsGathered, TookIn, answer_for, draws_view, lane_stop, urgency_of};

use crate::closing::Closed;
use lane_runner::Stop;
use shared_words::{ChunkHand, Chunks};
use sw_base::{ClosedLog, Log, Memory, Path, Trouble};

// What a lane answers, or lanes so far: all ended, and their logs found a place; or the task of this path stopped so, since its log
// refused what waited, or since a lane didn't go on; or no memory was found there.
#[derive(Drop)]
pub(crate) enum Verdict {
    Ended,
    Refused(Path, Stop),
    Halted(Path, Stop),
    Wanted(Path),
}

impl Verdict {
    // Of two lanes the one with the greater urgency goes first.
    fn urgency(&self) -> u8
        ensures { result ≡ urgency_of self.now }
    {
        match self {
            Verdict::Ended => 0,
            Verdict::Refused(_, _) => 1,
            Verdict::Halted(_, _) => 2,
            Verdict::Wanted(_) => 3,
        }
    }

    // What the region answers.
    pub(crate) fn answer(self) -> Result<(), (Path, Stop)>
        ensures { result ≡ answer_for self }
    {
        match self {
            Verdict::Ended => Ok(()),
            Verdict::Refused(path, why) | Verdict::Halted(path, why) => Err((path, why)),
            Verdict::Wanted(path) => Err((path, Stop::Trouble(Trouble::Memory))),
        }
    }
}

// How the lane at this path stopped, if it did, by what it noted and by why its log refused what waited. That the log refused goes before
// a stop of its own, and where no memory was found also before that of a task below.
fn lane_stop(
    path: &Path,
    stopped: Option<(Path, Stop)>,
    refused: Option<Trouble>,
) -> Option<(Path, Stop)>
    ensures { result ≡ lane_stop path.now (halt_of path.now stopped) refused }
{
    match (stopped, refused) {
        (stopped, None) => stopped,
        (Some((at, why)), Some(Trouble::Failed)) if at != *path => Some((at, why)),
        (_, Some(trouble)) => Some((path.copy(), Stop::Trouble(trouble))),
    }
}

// Whether it is for want of memory.
fn is_want(why: Stop) -> bool
    ensures { IsTrue result ↔ (why ≡ Stop.Trouble Trouble.Memory) }
{
    matches!(why, Stop::Trouble(Trouble::Memory))
}

// What the lane at this path answers, whose logs found a place or not.
fn judge(path: Path, stopped: Option<(Path, Stop)>, refused: Option<Trouble>, kept: bool) -> Verdict
    ensures { IsGathered path (halt_of path stopped) refused kept result }
{
    let halted = stopped.is_some();
    match lane_stop(&path, stopped, refused) {
        Some((at, why)) if is_want(why) => Verdict::Wanted(at),
        _ if !kept => Verdict::Wanted(path),
        Some((at, why)) if halted => Verdict::Halted(at, why),
        Some((at, why)) => Verdict::Refused(at, why),
        None => Verdict::Ended,
    }
}

// Puts a lane's own log and then those below it at the end. Where no memory is found for it, they are dropped.
fn hand_on<L: Log>(
    own: ClosedLog<L>,
    mut below: Vec<ClosedLog<L>>,
    done: &mut Vec<ClosedLog<L>>,
) -> Result<(), Memory>
    ensures given { OnOk result (done.new.items ≡ done.old.items ++ own ∷ below.items) }
    ensures dropped { OnErr result (done.new.items ≡ done.old.items) }
{
    below.insert(0, own)?;
    done.append(&mut below)?;
    Ok(())
}

// Puts a task's logs at the end. Its hand on the counters, and what it answers.
pub(crate) fn keep<L: Log>(lane: Closed<L>, done: &mut Vec<ClosedLog<L>>) -> (ChunkHand, Verdict)
    ensures draws { result.0 ≡ lane.draws }
    ensures taken { TookIn lane (entries_of L.Log done.old.items) (entries_of L.Log done.new.items) result.1 }
{
    let Closed {
        own,
        below,
        draws,
        stopped,
        refused,
    } = lane;
    let path = own.path.copy();
    let kept = hand_on(own, below, done).is_ok();
    (draws, judge(path, stopped, refused, kept))
}

// Joins a lane's hand on the counters, and puts its logs at the end.
fn take_in<L: Log>(
    chunks: &Chunks,
    share: &mut ChunkHand,
    lane: Closed<L>,
    done: &mut Vec<ClosedLog<L>>,
) -> Verdict
    requires share { Belongs share.old chunks.now.table }
    requires first { share.old.view.first ≡ true }
    requires own { Belongs lane.draws chunks.now.table }
    requires split { lane.draws.view.first ≡ false }
    ensures share { share.new ≡ with_view share.old (regained share.old.view lane.draws.view) }
    ensures all { IsFirstAlone share.new.view → HasEachOnce share.new.view }
    ensures taken { TookIn lane (entries_of L.Log done.old.items) (entries_of L.Log done.new.items) result }
{
    let (draws, verdict) = keep(lane, done);
    chunks.join(share, draws);
    verdict
}

// In the order of the lanes each one's hand on the counters is joined to this one, and its logs are put at the end. Where no memory is
// found for them they are dropped.
pub(crate) fn gather<L: Log>(
    chunks: &Chunks,
    share: &mut ChunkHand,
    lanes: Vec<Closed<L>>,
    done: &mut Vec<ClosedLog<L>>,
) -> Result<(), (Path, Stop)>
    requires share { Belongs share.old chunks.now.table }
    requires first { share.old.view.first ≡ true }
    requires own { (k : ℕ) (d : ClosedValue) → k < length lanes.items → Belongs (slice_index_or lanes.items k d).draws chunks.now.table }
    requires split { (k : ℕ) (d : ClosedValue) → k < length lanes.items → (slice_index_or lanes.items k d).draws.view.first ≡ false }
    ensures gathered { (d : ClosedValue) → Gathered (length lanes.items) (λ k. slice_index_or lanes.items k d)
        (entries_of L.Log done.old.items) (entries_of L.Log done.new.items) result }
    ensures share { share.new ≡ with_view share.old (regained_all (map draws_view lanes.items) share.old.view) }
    ensures all { 1 ≤ length lanes.items → IsFirstAlone share.new.view → HasEachOnce share.new.view }
{
    let mut worst = Verdict::Ended;
    for lane in lanes {
        let verdict = take_in(chunks, share, lane, done);
        if worst.urgency() < verdict.urgency() {
            worst = verdict;
        }
    }
    worst.answer()
}
