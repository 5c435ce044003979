//! A region, whose lanes go on one after another.
ghost use Rattle.std.specs.Prelude.{◌≡◌, ◌+◌, ◌*◌, ◌<◌, ◌≤◌, ◌++◌, ℕ, [], map, length, IfErr, IfOk, OnOk, Some, None};
ghost use Rattle.std.specs.List.{flat_map};
ghost use Rattle.kernel_syntax.specs.Layout.{ArePlaced, elements};
ghost use Rattle.kernel_syntax.specs.Program.{team_of};
ghost use Rattle.serial_run.specs.Placing.{ElementLayout, TellsWords};
ghost use Rattle.serial_team.specs.Members.{all_idle, pool, seen, whole_log};
ghost use Rattle.serial_team.specs.Running.{GoesTo, HaveArrays, RanBelow, DidPhase, RanPhases, DidRegion, RanTo};
ghost use Rattle.serial_team.specs.Stopping.{StopsPast, IfStopped, LaneLong, LaneStopped, LongBelow, PhasesLong, PhasesStopped, RegionLong, RegionStopped, StopsBelow, TeamLong, TeamWent, told_first};

use crate::member::{Member, Stage, TaskLog, all_at, begin_team, hand_on_all};
use crate::stop::Stop;
use kernel_model::StopWhy;
use kernel_syntax::{Array, Team};
use log_format::TASK_LIMIT;
use serial_run::{Locals, Pause, SerialMemory};
use std::alloc::Global;
use sw_base::Path;

// Runs the region that a task forked.
#[cycle(region)]
fn fork<'k>(
    alloc: Global,
    depth: u32,
    arrays: &'k [Array],
    path: &Path,
    team: &'k Team,
    member: &mut Member<'k>,
    memory: &mut SerialMemory,
) -> Result<(), Stop>
    requires placed { ArePlaced arrays.now (elements arrays.now) }
    requires deep { length path.now + depth ≤ 4 }
    ensures ran { (layout : ElementLayout) → TellsWords arrays.now layout → IfOk result (λ _. RanBelow layout path.now (team_of team.now) arrays.now (seen memory.old member.old) (seen memory.new member.new)) }
    ensures stops { (layout : ElementLayout) → TellsWords arrays.now layout → member.old.lane.place.arrays ≡ arrays.now
        → IfErr result (λ e. IfStopped (StopsBelow layout path.now (team_of team.now) (seen memory.old member.old) (pool memory.new)) (LongBelow layout path.now (team_of team.now) (seen memory.old member.old)) e) }
{
    let number = member.forked;
    let Some(next) = number.checked_add(1) else {
        return Err(Stop::Memory);
    };
    if depth == 0 {
        return Err(Stop::Memory);
    }
    region(
        alloc,
        depth - 1,
        arrays,
        path,
        number,
        team,
        &member.lane.locals,
        memory,
        &mut member.below,
    )?;
    if member.below.len() > TASK_LIMIT {
        return Err(Stop::Stopped {
            path: path.copy(),
            line: team.line,
            why: StopWhy::Tasks,
        });
    }
    member.forked = next;
    Ok(())
}

// The task goes on to where it stands still next. A region that it forks is run.
#[cycle(region)]
fn advance<'k>(
    alloc: Global,
    depth: u32,
    arrays: &'k [Array],
    path: &Path,
    member: &mut Member<'k>,
    memory: &mut SerialMemory,
) -> Result<Option<Stage>, Stop>
    requires placed { ArePlaced arrays.now (elements arrays.now) }
    requires deep { length path.now + depth ≤ 4 }
    ensures goes { (layout : ElementLayout) → TellsWords arrays.now layout → member.old.lane.place.arrays ≡ arrays.now
        → IfOk result (λ to. GoesTo layout path.now (seen memory.old member.old) (seen memory.new member.new) to) }
    ensures onward { (layout : ElementLayout) → TellsWords arrays.now layout → member.old.lane.place.arrays ≡ arrays.now
        → IfOk result (λ to. StopsPast layout path.now (seen memory.old member.old) (seen memory.new member.new) to) }
    ensures stops { (layout : ElementLayout) → TellsWords arrays.now layout → member.old.lane.place.arrays ≡ arrays.now
        → IfErr result (λ e. IfStopped (LaneStopped layout path.now (seen memory.old member.old) (pool memory.new)) (LaneLong layout path.now (seen memory.old member.old)) e) }
{
    match member.resume(path, memory)? {
        Pause::Barrier => Ok(Some(Stage::Waits)),
        Pause::Ended => Ok(Some(Stage::Ended)),
        Pause::Fork(team) => {
            fork(alloc, depth, arrays, path, team, member, memory)?;
            Ok(None)
        }
    }
}

/// The task goes on to its next barrier or its end.
#[cycle(region)]
pub(crate) fn go<'k>(
    alloc: Global,
    depth: u32,
    arrays: &'k [Array],
    path: &Path,
    member: &mut Member<'k>,
    memory: &mut SerialMemory,
) -> Result<(), Stop>
    requires placed { ArePlaced arrays.now (elements arrays.now) }
    requires deep { length path.now + depth ≤ 4 }
    ensures ran { (layout : ElementLayout) → TellsWords arrays.now layout → member.old.lane.place.arrays ≡ arrays.now
        → IfOk result (λ _. RanTo layout path.now (seen memory.old member.old) (seen memory.new member.new)) }
    ensures stops { (layout : ElementLayout) → TellsWords arrays.now layout → member.old.lane.place.arrays ≡ arrays.now
        → IfErr result (λ e. IfStopped (LaneStopped layout path.now (seen memory.old member.old) (pool memory.new)) (LaneLong layout path.now (seen memory.old member.old)) e) }
{
    'steps: for _ in 0..u64::MAX {
        if let Some(stage) = advance(alloc, depth, arrays, path, member, memory)? {
            member.stage = stage;
            return Ok(());
        }
    }
    Err(Stop::Memory)
}

// The stop that was told, or else this one.
fn first_stop(told: Result<(), Stop>, stop: Stop) -> Result<(), Stop>
    ensures { result ≡ told_first told stop }
{
    match told {
        Ok(()) => Err(stop),
        Err(earlier) => Err(earlier),
    }
}

// The lanes of a team go on to the end of a phase, one after another, also past one that stops. The first stop is told.
#[cycle(region)]
fn run_phase<'k>(
    alloc: Global,
    depth: u32,
    arrays: &'k [Array],
    at: &Path,
    number: u32,
    members: &mut [Member<'k>],
    memory: &mut SerialMemory,
) -> Result<(), Stop>
    requires placed { ArePlaced arrays.now (elements arrays.now) }
    requires deep { length at.now + depth < 4 }
    ensures ran { (layout : ElementLayout) → TellsWords arrays.now layout → HaveArrays arrays.now (all_idle members.old)
        → IfOk result (λ _. DidPhase layout at.now number (all_idle members.old) (pool memory.old) (all_idle members.new) (pool memory.new)) }
    ensures stops { (layout : ElementLayout) → TellsWords arrays.now layout → HaveArrays arrays.now (all_idle members.old)
        → IfErr result (λ e. IfStopped (λ first. TeamWent layout at.now number (all_idle members.old) (pool memory.old) (pool memory.new) (Some first)) (TeamLong layout at.now number (all_idle members.old) (pool memory.old)) e) }
{
    let mut first = Ok(());
    for member in members.iter_mut() {
        let path = member.path(at, number);
        if let Err(stop) = go(alloc, depth, arrays, &path, member, memory) {
            if !stop.is_of_task() {
                return Err(stop);
            }
            first = first_stop(first, stop);
        }
    }
    first
}

// The lanes of a team go on until all have ended.
#[cycle(region)]
fn run_phases<'k>(
    alloc: Global,
    depth: u32,
    arrays: &'k [Array],
    at: &Path,
    number: u32,
    members: &mut [Member<'k>],
    memory: &mut SerialMemory,
) -> Result<(), Stop>
    requires placed { ArePlaced arrays.now (elements arrays.now) }
    requires deep { length at.now + depth < 4 }
    ensures ran { (layout : ElementLayout) → TellsWords arrays.now layout → HaveArrays arrays.now (all_idle members.old)
        → IfOk result (λ _. RanPhases layout at.now number (all_idle members.old) (pool memory.old) (all_idle members.new) (pool memory.new)) }
    ensures stops { (layout : ElementLayout) → TellsWords arrays.now layout → HaveArrays arrays.now (all_idle members.old)
        → IfErr result (λ e. IfStopped (PhasesStopped layout at.now number (all_idle members.old) (pool memory.old) (pool memory.new)) (PhasesLong layout at.now number (all_idle members.old) (pool memory.old)) e) }
{
    'phases: for _ in 0..u64::MAX {
        run_phase(alloc, depth, arrays, at, number, members, memory)?;
        if all_at(members, Stage::Ended) {
            return Ok(());
        }
        if !all_at(members, Stage::Waits) {
            return Err(Stop::Memory);
        }
    }
    Err(Stop::Memory)
}

// Runs the region of this number of the task at this path, from these locals, and hands on its logs.
#[cycle(region)]
fn region<'k>(
    alloc: Global,
    depth: u32,
    arrays: &'k [Array],
    at: &Path,
    number: u32,
    team: &'k Team,
    locals: &Locals,
    memory: &mut SerialMemory,
    done: &mut Vec<TaskLog>,
) -> Result<(), Stop>
    requires placed { ArePlaced arrays.now (elements arrays.now) }
    requires deep { length at.now + depth < 4 }
    ensures ran { (layout : ElementLayout) → TellsWords arrays.now layout
        → IfOk result (λ _. DidRegion layout arrays.now (team_of team.now) locals.now.slots.items at.now number (pool memory.old) (pool memory.new)
        (map whole_log done.old.items) (map whole_log done.new.items)) }
    ensures stops { (layout : ElementLayout) → TellsWords arrays.now layout
        → IfErr result (λ e. IfStopped (RegionStopped layout arrays.now (team_of team.now) locals.now.slots.items at.now number (pool memory.old) (pool memory.new)) (RegionLong layout arrays.now (team_of team.now) locals.now.slots.items at.now number (pool memory.old)) e) }
{
    let mut members = begin_team(alloc, arrays, team, locals)?;
    run_phases(alloc, depth, arrays, at, number, &mut members, memory)?;
    hand_on_all(at, number, members, done)
}
