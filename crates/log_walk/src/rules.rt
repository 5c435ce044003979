//! The rules of a run, one function for each kind of record. Each tells the first rule that the record breaks.
ghost use Rattle.std.specs.Prelude.{◌<◌, MatchOption};
ghost use Rattle.log_walk.specs.Rules.{InPlace, OutOfPlace, Locks, CantLock, Unlocks, CantUnlock, MayPass, CantPass, MayFork, CantFork, MayEnd, CantEnd, log_task_of};

use crate::task::Task;
use log_format::Kind;
use mutex_set::{Held, HeldFault};
use race_model::RecordWhy;
use sw_base::Path;

/// The last record of a log is its only End.
pub fn place(kind: Kind, number: u32, count: u32) -> Option<RecordWhy>
    ensures { MatchOption result (InPlace kind number count) (λ why. OutOfPlace kind number count why) }
{
    match kind {
        Kind::End if number < count => Some(RecordWhy::EndEarly),
        Kind::End => None,
        Kind::Read
        | Kind::Write
        | Kind::Lock
        | Kind::Unlock
        | Kind::Barrier
        | Kind::Region
        | Kind::Chunk
        | Kind::Update => (number == count).then_some(RecordWhy::EndMissing),
    }
}

/// Takes a mutex.
pub fn lock(held: &mut Held, mutex: u16) -> Option<RecordWhy>
    ensures { MatchOption result (Locks held.old mutex held.new) (λ why. CantLock held.old mutex why) }
{
    match held.enter(mutex) {
        Ok(()) => None,
        Err(HeldFault::HeldAlready) => Some(RecordWhy::LockTwice),
        Err(HeldFault::Deep) => Some(RecordWhy::LocksDeep),
    }
}

/// Gives back a mutex.
pub fn unlock(held: &mut Held, mutex: u16) -> Option<RecordWhy>
    ensures { MatchOption result (Unlocks held.old mutex held.new) (λ why. CantUnlock held.old mutex why) }
{
    match held.leave(mutex) {
        Ok(()) => None,
        Err(_) => Some(RecordWhy::UnlockOther),
    }
}

/// A lane passes a barrier with no mutex.
pub fn barrier(held: &Held, path: &Path) -> Option<RecordWhy>
    ensures { MatchOption result (MayPass held.now path.now) (λ why. CantPass held.now path.now why) }
{
    if path.steps().is_empty() {
        return Some(RecordWhy::RootBarrier);
    }
    if !held.ids().is_empty() {
        return Some(RecordWhy::BarrierLocked);
    }
    None
}

/// A task forks a region with no mutex, and the index lists it.
pub fn region(held: &Held, spans: &[u16], number: usize, span: u64) -> Option<RecordWhy>
    ensures { MatchOption result (MayFork held.now spans.now number span) (λ why. CantFork held.now spans.now number span why) }
{
    if !held.ids().is_empty() {
        return Some(RecordWhy::RegionLocked);
    }
    match spans.get(number) {
        Some(listed) if u64::from(*listed) == span => None,
        _ => Some(RecordWhy::RegionRows),
    }
}

/// A task ends with no mutex, after all regions that the index lists, and after as many barriers as its team.
pub fn end(held: &Held, task: &Task, regions: usize, barriers: u32) -> Option<RecordWhy>
    ensures { MatchOption result (MayEnd held.now (log_task_of task.now) regions barriers) (λ why. CantEnd held.now (log_task_of task.now) regions barriers why) }
{
    if !held.ids().is_empty() {
        return Some(RecordWhy::LockOpen);
    }
    if task.spans.len() > regions {
        return Some(RecordWhy::RegionRows);
    }
    match task.due_barriers {
        Some(others) if others != barriers => Some(RecordWhy::BarrierCount),
        _ => None,
    }
}
