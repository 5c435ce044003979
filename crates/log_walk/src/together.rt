//! The logs of the lanes of a region, read before their turns by several workers, each of which reads whole logs.
ghost use Rattle.std.specs.Prelude.{◌<◌, ◌≤◌, ◌-◌, ◌*◌, ℕ, List, All, Option, IfOk, IfSome, OnOk, length, IsErrOf};
ghost use Rattle.sw_base.specs.Environment.{Content};
ghost use Rattle.sw_base.specs.OnlyReads.{OnlyReads};
ghost use Rattle.log_format.specs.declared.format.Format.{Format};
ghost use Rattle.race_model.specs.IndexFault.{AreRows};
ghost use Rattle.race_model.specs.LogFault.{max_segments};
ghost use Rattle.race_model.specs.Row.{Row};
ghost use Rattle.log_walk.specs.Ahead.{IsAhead, IsJob};

use crate::ahead::{Ahead, Job, Source, go_all};
use crate::check::LogFault;
use crate::spans::spans_of;
use crate::stack::Stack;
use crate::state::MAX_SEGMENTS;
use crate::sweep::is_under;
use crate::task::Task;
use log_format::Format;
use log_index::Row as IndexRow;
use span_label::Label;
use std::alloc::Global;
use std::marker::Sync;
use std::thread::Threads;
use sw_base::{Folder, Memory, Trouble};

/// Fewer records than these aren't worth a thread.
const FEW: u64 = 16_384;

/// The most logs that are open at once. A team has no more lanes, and any system lets a process have some hundred files open.
const MOST: usize = 64;

/// The most levels of a label below which one can be forked.
const LEVELS: usize = 5;

/// The rows of the lanes of the root's region, from this one on.
fn lanes_of(
    alloc: Global,
    rows: &[IndexRow],
    from: usize,
    region: u64,
) -> Result<Vec<usize>, Memory>
    ensures within { IfOk result (λ lanes. All (λ place. place < length rows.now) lanes.items) }
    ensures few { IfOk result (λ lanes. length lanes.items ≤ 64) }
{
    let mut lanes = Vec::new(alloc);
    'rows: for place in from..rows.len() {
        let row = &rows[place];
        if lanes.len() == MOST || !is_under(&row.path, region) {
            return Ok(lanes);
        }
        if row.path.steps().len() == 1 {
            lanes.push(place)?;
        }
    }
    Ok(lanes)
}

/// How many records the logs of these rows have.
fn records_of(rows: &[IndexRow], lanes: &[usize]) -> u64
    requires { All (λ place. place < length rows.now) lanes.now }
{
    let mut all = 0u64;
    for place in lanes {
        let row = &rows[*place];
        all = all.saturating_add(u64::from(row.records));
    }
    all
}

/// Every so many-th of the lanes from this one on comes next.
fn deal(lanes: &[usize], first: usize, step: usize, dealt: &mut Vec<usize>) -> Result<(), Memory>
    requires step { 0 < step }
    ensures { (n : ℕ) → All (λ place. place < n) lanes.now → All (λ place. place < n) dealt.old.items → OnOk result (All (λ place. place < n) dealt.new.items) }
{
    for (number, place) in lanes.iter().enumerate() {
        if number % step == first {
            dealt.push(*place)?;
        }
    }
    Ok(())
}

/// The lanes so that each of so many workers, which take neighbours, has as many of the first as of the last.
fn shuffled(alloc: Global, lanes: &[usize], workers: usize) -> Result<Vec<usize>, Memory>
    ensures { (n : ℕ) → All (λ place. place < n) lanes.now → IfOk result (λ dealt. All (λ place. place < n) dealt.items) }
{
    let mut dealt = Vec::new(alloc);
    for worker in 0..workers {
        deal(lanes, worker, workers, &mut dealt)?;
    }
    Ok(dealt)
}

/// The label of the fork of the root's region, if it is known and a label of a lane has room.
fn fork_of(forks: &[Vec<Label>], region: u64) -> Option<&Label>
    ensures { IfSome result (λ label. length label.now < 5) }
{
    let fork = forks.first()?.get(region as usize)?;
    if fork.triples().len() == LEVELS {
        return None;
    }
    Some(fork)
}

/// From how many segments on a log of so many records is counted, where logs of so many in all have so many segments together:
/// what is left is its share.
fn counted_from(room: u32, records: u32, all: u64) -> u32
    requires all { 0 < all }
    requires room { room ≤ max_segments }
    ensures limit { result ≤ max_segments }
    ensures share { (max_segments - result) * all ≤ room * records }
{
    let share = u64::from(room) * u64::from(records) / all;
    MAX_SEGMENTS - share.min(u64::from(MAX_SEGMENTS)) as u32
}

/// Opens the log of this row, a lane of the root's, which is counted from so many segments on. None where there is no such log.
fn job_of<F: Folder>(
    alloc: Global,
    folder: &mut F,
    dir: &str,
    rows: &[IndexRow],
    place: usize,
    fork: &Label,
    opened: u32,
) -> Result<Option<Job<F::File>>, Trouble>
    requires rows { AreRows rows.now }
    requires within { place < length rows.now }
    requires room { length fork.now < 5 }
    requires opened { opened ≤ max_segments }
    ensures job { (format : Format) → IfOk result (λ found. IfSome found (IsJob F.File.rest F.File.faults format (F.state folder.old).content dir.now rows.now)) }

    ensures reads { OnlyReads F.Folder folder.old folder.new (IsErrOf result Trouble.Failed) }
{
    let row = &rows[place];
    let Some((step, _)) = row.path.steps().split_last() else {
        return Ok(None);
    };
    let name = row.path.name(alloc, dir)?;
    let task = Task {
        path: row.path.copy(),
        records: row.records,
        spans: spans_of(alloc, rows, place)?,
        due_barriers: None,
    };
    let label = fork.fork(step.lane, step.span);
    let Some(file) = folder.open_file(alloc, &name)? else {
        return Ok(None);
    };
    Ok(Some(Job {
        source: Source {
            place,
            task,
            label,
            opened,
        },
        file,
        answer: None,
        found: Vec::new(alloc),
    }))
}

/// Opens the logs of these rows, which have so many records in all, and for which so many segments are left.
fn jobs_of<F: Folder>(
    alloc: Global,
    folder: &mut F,
    dir: &str,
    rows: &[IndexRow],
    lanes: &[usize],
    fork: &Label,
    room: u32,
    all: u64,
) -> Result<Vec<Job<F::File>>, Trouble>
    requires rows { AreRows rows.now }
    requires within { All (λ place. place < length rows.now) lanes.now }
    requires fork { length fork.now < 5 }
    requires room { room ≤ max_segments }
    requires all { 0 < all }
    ensures jobs { (format : Format) → IfOk result (λ jobs. All (IsJob F.File.rest F.File.faults format (F.state folder.old).content dir.now rows.now) jobs.items) }

    ensures reads { OnlyReads F.Folder folder.old folder.new (IsErrOf result Trouble.Failed) }
{
    let mut jobs = Vec::new(alloc);
    for place in lanes {
        let row = &rows[*place];
        let opened = counted_from(room, row.records, all);
        if let Some(job) = job_of(alloc, folder, dir, rows, *place, fork, opened)? {
            jobs.push(job)?;
        }
    }
    Ok(jobs)
}

/// Gives the file back, and keeps the log, if it is good.
fn close<F: Folder>(folder: &mut F, job: Job<F::File>) -> Result<Option<Ahead>, Trouble>
    requires so { (format : Format) × (told : Option Content) × (dir : List ℕ) × (rows : List Row) × IsJob F.File.rest F.File.faults format told dir rows job }
    ensures ahead { (format : Format) (told : Option Content) (dir : List ℕ) (rows : List Row) → IsJob F.File.rest F.File.faults format told dir rows job → IfOk result (λ found. IfSome found (IsAhead format told dir rows)) }

    ensures reads { OnlyReads F.Folder folder.old folder.new (IsErrOf result Trouble.Failed) }
{
    let Job {
        source,
        file,
        answer,
        found,
    } = job;
    folder.close_file(file);
    match answer {
        Some(Ok(checked)) => Ok(Some(Ahead {
            source,
            checked,
            found,
        })),
        Some(Err(LogFault::ReadFault)) => Err(Trouble::Failed),
        Some(Err(_)) | None => Ok(None),
    }
}

/// Gives the files back, and keeps the logs that are good.
fn gather<F: Folder>(
    alloc: Global,
    format: Format,
    folder: &mut F,
    mut jobs: Vec<Job<F::File>>,
) -> Result<Vec<Ahead>, Trouble>
    requires so { (dir : List ℕ) × (rows : List Row) × All (IsJob F.File.rest F.File.faults format (F.state folder.old).content dir rows) jobs.items }
    ensures ahead { (dir : List ℕ) (rows : List Row) → All (IsJob F.File.rest F.File.faults format (F.state folder.old).content dir rows) jobs.items
        → IfOk result (λ ahead. All (IsAhead format (F.state folder.old).content dir rows) ahead.items) }

    ensures reads { OnlyReads F.Folder folder.old folder.new (IsErrOf result Trouble.Failed) }
{
    let mut ahead = Vec::new(alloc);
    'jobs: while let Some(job) = jobs.pop() {
        if let Some(read) = close(folder, job)? {
            ahead.push(read)?;
        }
    }
    Ok(ahead)
}

/// The logs of the lanes of the root's next region that are good by what their records and rows alone tell, where there are
/// several lanes and workers, and records enough. Together they have no more segments than a folder may have.
pub fn read_ahead<R: Threads + Sync, F: Folder>(
    rt: &R,
    alloc: Global,
    format: Format,
    folder: &mut F,
    dir: &str,
    rows: &[IndexRow],
    stack: &Stack,
    region: u64,
    workers: usize,
) -> Result<Vec<Ahead>, Trouble>
    requires rows { AreRows rows.now }
    requires workers { 1 ≤ workers }
    ensures ahead { IfOk result (λ ahead. All (IsAhead format (F.state folder.old).content dir.now rows.now) ahead.items) }

    ensures reads { OnlyReads F.Folder folder.old folder.new (IsErrOf result Trouble.Failed) }
{
    let lanes = lanes_of(alloc, rows, stack.place, region)?;
    let all = records_of(rows, &lanes);
    let count = workers.min(lanes.len());
    let Some(fork) = fork_of(&stack.forks, region) else {
        return Ok(Vec::new(alloc));
    };
    if count < 2 || all < FEW {
        return Ok(Vec::new(alloc));
    }
    let lanes = shuffled(alloc, &lanes, count)?;
    let room = MAX_SEGMENTS.saturating_sub(stack.segments);
    let mut jobs = jobs_of(alloc, folder, dir, rows, &lanes, fork, room, all)?;
    go_all(rt, alloc, format, &mut jobs, count);
    gather(alloc, format, folder, jobs)
}
