ghost use Rattle.std.specs.Prelude.{◌≡◌, ◌↔◌, ◌<◌, ◌≤◌, ◌⊎◌, ◌*◌, ◌-◌, ◌^◌, ℕ, slice_index_or, All, Contains, length, take, false, IfOk, OnOk, OnErr};
ghost use Rattle.std.specs.List.Sorted.{IsStrictlySortedBy};
ghost use Rattle.race_model.specs.Race.{pair_cmp};
ghost use Rattle.pair_compare.specs.Conflict.{GrowsBy, AddsPairs, AddsSome, OneHas};
ghost use Rattle.pair_compare.specs.Work.{HasFound, HasSearched, HasNothing, HasShare, IsTaskPair, IsWorkerPair, total_runs};

use crate::task::Task;
use crate::worker::Worker;
use std::alloc::Global;
use std::collections::BTreeSet;
use std::thread;
use std::thread::Threads;
use sw_base::{Gate, Memory};

/// Adds the pairs of the other set. After an error some of them may have been added, and nothing else changed.
pub fn unite(pairs: &mut BTreeSet<(u32, u32)>, more: &BTreeSet<(u32, u32)>) -> Result<(), Memory>
    ensures added { OnOk result (AddsPairs pairs.old.keys pairs.new.keys (Contains more.now.keys)) }
    ensures refused { OnErr result (AddsSome pairs.old.keys pairs.new.keys (Contains more.now.keys)) }
{
    for pair in more {
        pairs.insert(*pair)?;
    }
    Ok(())
}

// About how many runs the tasks have.
fn runs_in(tasks: &[Task]) -> usize
    ensures { total_runs tasks.now < 2 ^ 64 → result ≡ total_runs tasks.now }
{
    let mut runs = 0usize;
    for task in tasks {
        runs = runs.saturating_add(task.runs);
    }
    runs
}

// How many of the tasks have so many runs together: the last of them brings them there, if the tasks have so many.
fn share(tasks: &[Task], most: usize) -> usize
    ensures within { result ≤ length tasks.now }
    ensures before { total_runs tasks.now < 2 ^ 64 → total_runs (take (result - 1) tasks.now) ≤ most }
    ensures enough { total_runs tasks.now < 2 ^ 64 → (result ≡ length tasks.now) ⊎ (most ≤ total_runs (take result tasks.now)) }
{
    let mut runs = 0usize;
    for (place, task) in tasks.iter().enumerate() {
        if runs >= most {
            return place;
        }
        runs = runs.saturating_add(task.runs);
    }
    tasks.len()
}

// Deals the tasks out in as many parts as there are workers, of about as many runs each.
fn deal<'t, 'g, 's>(
    alloc: Global,
    tasks: &'t [Task<'g, 's>],
    workers: usize,
    team: &mut Vec<Worker<'t, 'g, 's>>,
) -> Result<(), Memory>
    ensures dealt { OnOk result (GrowsBy (OneHas IsWorkerPair team.old.items) (OneHas IsWorkerPair team.new.items) (OneHas IsTaskPair tasks.now)) }
    ensures fresh { All HasNothing team.old.items → OnOk result (All HasNothing team.new.items) }
    // No worker has more than an equal share, but for its last task.
    ensures even { (most : ℕ) → total_runs tasks.now < 2 ^ 64 → total_runs tasks.now ≤ workers * most → All (HasShare most) team.old.items
        → OnOk result (All (HasShare most) team.new.items) }
{
    if workers <= 1 {
        team.push(Worker::new(alloc, tasks))?;
        return Ok(());
    }
    let (mine, others) = tasks.split_at(share(tasks, runs_in(tasks) / workers));
    team.push(Worker::new(alloc, mine))?;
    deal(alloc, others, workers - 1, team)
}

// The worker of this number starts.
fn start<G: Gate>(gate: &G, alloc: Global, place: usize, worker: &mut Worker)
    ensures { HasSearched worker.old worker.new }
{
    gate.enter(place);
    worker.search(alloc);
}

// Each worker starts, as many at once as there are threads.
fn search_at_once<R: Threads + Sync, G: Gate>(
    rt: &R,
    alloc: Global,
    team: &mut [Worker],
    workers: usize,
    gate: &G,
)
    requires { 1 ≤ workers }
    ensures count { length team.new ≡ length team.old }
    ensures searched { (i : ℕ) (d : _) → i < length team.old → HasSearched (slice_index_or team.old i d) (slice_index_or team.new i d) }
{
    thread::for_each_mut(
        rt,
        team,
        workers,
        &|place, worker| { start(gate, alloc, place, worker) },
    );
}

// What the workers found, unless memory was wanting.
fn gather(alloc: Global, team: &[Worker]) -> Result<BTreeSet<(u32, u32)>, Memory>
    ensures found { IfOk result (λ pairs. All (λ worker. worker.refused ≡ false) team.now × ((pair : ℕ × ℕ) → Contains pairs.keys pair ↔ OneHas HasFound team.now pair)) }
    ensures ascending { IfOk result (λ pairs. IsStrictlySortedBy pair_cmp pairs.keys) }
{
    let mut pairs = BTreeSet::new(alloc);
    for worker in team {
        if worker.refused {
            return Err(Memory);
        }
        unite(&mut pairs, &worker.pairs)?;
    }
    // That the keys of a set ascend is told by its length's contract.
    let _length = pairs.len();
    Ok(pairs)
}

// What workers that found nothing yet find.
fn find<R: Threads + Sync, G: Gate>(
    rt: &R,
    alloc: Global,
    team: &mut [Worker],
    workers: usize,
    gate: &G,
) -> Result<BTreeSet<(u32, u32)>, Memory>
    requires some { 1 ≤ workers }
    requires fresh { All HasNothing team.old }
    ensures found { IfOk result (λ pairs. (pair : ℕ × ℕ) → Contains pairs.keys pair ↔ OneHas IsWorkerPair team.old pair) }
    ensures ascending { IfOk result (λ pairs. IsStrictlySortedBy pair_cmp pairs.keys) }
{
    search_at_once(rt, alloc, team, workers, gate);
    gather(alloc, team)
}

// As many threads as there are workers, but one where there is nothing to do.
fn threads_for(tasks: &[Task], workers: usize) -> usize
    requires { 1 ≤ workers }
    ensures { 1 ≤ result }
{
    if tasks.is_empty() {
        return 1;
    }
    workers
}

/// The pairs of the tasks, found by so many workers at once, each of which enters the gate when it starts.
pub fn search_all<R: Threads + Sync, G: Gate>(
    rt: &R,
    alloc: Global,
    tasks: &[Task],
    workers: usize,
    gate: &G,
) -> Result<BTreeSet<(u32, u32)>, Memory>
    requires { 1 ≤ workers }
    ensures found { IfOk result (λ pairs. (pair : ℕ × ℕ) → Contains pairs.keys pair ↔ OneHas IsTaskPair tasks.now pair) }
    ensures ascending { IfOk result (λ pairs. IsStrictlySortedBy pair_cmp pairs.keys) }
{
    let mut team = Vec::new(alloc);
    deal(alloc, tasks, workers, &mut team)?;
    find(rt, alloc, &mut team, threads_for(tasks, workers), gate)
}
