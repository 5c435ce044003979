ghost use Rattle.std.specs.Prelude.{◌≡◌, ◌↔◌, ◌<◌, ◌≤◌, OnOk};
ghost use Rattle.std.specs.List.Sorted.{IsNonDecreasingBy};
ghost use Rattle.pair_compare.specs.Conflict.{AddsPairs, GrowsBy, OneHas};
ghost use Rattle.pair_compare.specs.Sweeps.{IsHullOf, Reach, bytes_at};
ghost use Rattle.pair_compare.specs.Work.{IsMemberReach, IsMetReach, IsMetSingle, IsMetStretch, IsTaskPair};

use crate::hull::Hull;
use crate::member::Member;
use crate::sweeping::sweep;
use crate::task::Task;
use std::alloc::Global;
use std::collections::BTreeSet;
use stride_summary::Run;
use sw_base::Memory;

// Adds a stretch of the run, if it meets the task's bytes.
fn add_stretch<'r>(
    run: &'r Run,
    part: u64,
    bytes: (u64, u64),
    task: &Task,
    hulls: &mut Vec<Hull<'r>>,
) -> Result<(), Memory>
    requires { bytes.0 ≤ bytes.1 }
    ensures { OnOk result (GrowsBy (OneHas IsHullOf hulls.old.items) (OneHas IsHullOf hulls.new.items) (IsMetStretch task.now.low task.now.high part run.now bytes)) }
{
    let (low, high) = bytes;
    if low <= task.high && task.low <= high {
        hulls.push(Hull {
            low,
            high,
            part,
            run,
        })?;
    }
    Ok(())
}

/// The first and the last byte at the address of a place of the run.
pub fn bytes_at(run: &Run, place: u32) -> (u64, u64)
    requires { place < run.now.count }
    ensures value { result ≡ bytes_at run.now place }
    ensures ordered { result.0 ≤ result.1 }
{
    let low = run.base + u64::from(place) * run.stride;
    (low, low + u64::from(run.size - 1))
}

// Adds the run one address at a time.
fn add_singly<'r>(
    run: &'r Run,
    part: u64,
    task: &Task,
    hulls: &mut Vec<Hull<'r>>,
) -> Result<(), Memory>
    ensures { OnOk result (GrowsBy (OneHas IsHullOf hulls.old.items) (OneHas IsHullOf hulls.new.items) (IsMetSingle task.now.low task.now.high part run.now run.now.count)) }
{
    for place in 0..run.count {
        add_stretch(run, part, bytes_at(run, place), task, hulls)?;
    }
    Ok(())
}

fn add_run<'r>(
    run: &'r Run,
    part: u64,
    task: &Task,
    hulls: &mut Vec<Hull<'r>>,
) -> Result<(), Memory>
    ensures { OnOk result (GrowsBy (OneHas IsHullOf hulls.old.items) (OneHas IsHullOf hulls.new.items) (IsMetReach task.now.singly task.now.low task.now.high part run.now)) }
{
    if run.count <= task.singly {
        return add_singly(run, part, task, hulls);
    }
    add_stretch(run, part, (run.low(), run.high()), task, hulls)
}

fn add_member<'s>(member: &Member<'s>, task: &Task, hulls: &mut Vec<Hull<'s>>) -> Result<(), Memory>
    ensures { OnOk result (GrowsBy (OneHas IsHullOf hulls.old.items) (OneHas IsHullOf hulls.new.items) (IsMemberReach task.now.singly task.now.low task.now.high member.now)) }
{
    if !member.meets(task.low, task.high) {
        return Ok(());
    }
    for run in member.runs {
        add_run(run, member.part, task, hulls)?;
    }
    Ok(())
}

// What was in the vector goes.
fn collect<'s>(task: &Task<'_, 's>, hulls: &mut Vec<Hull<'s>>) -> Result<(), Memory>
    ensures same { OnOk result ((reach : Reach) → OneHas IsHullOf hulls.new.items reach ↔ OneHas (IsMemberReach task.now.singly task.now.low task.now.high) task.now.members.now reach) }
    ensures ascends { OnOk result (IsNonDecreasingBy (λ hull. hull.low) hulls.new.items) }
{
    hulls.clear();
    for member in task.members {
        add_member(member, task, hulls)?;
    }
    hulls.sort_by_key(|hull| hull.low)?;
    Ok(())
}

/// Adds the pairs of the task. What was in the vector of hulls goes.
pub fn search_task<'s>(
    alloc: Global,
    task: &Task<'_, 's>,
    hulls: &mut Vec<Hull<'s>>,
    pairs: &mut BTreeSet<(u32, u32)>,
) -> Result<(), Memory>
    ensures { OnOk result (AddsPairs pairs.old.keys pairs.new.keys (IsTaskPair task.now)) }
{
    collect(task, hulls)?;
    sweep(alloc, hulls.as_slice(), task.low, pairs)
}
