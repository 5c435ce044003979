//! A lane of a team, between two phases.
ghost use Rattle.std.specs.Prelude.{◌≡◌, ◌<◌, ◌≤◌, ◌++◌, ◌↔◌, ℕ, [], map, length, All, IfErr, IfOk, OnOk, IsTrue, slice_get, Some};
ghost use Rattle.std.specs.List.{flat_map};
ghost use Rattle.sw_base.specs.declared.path.Step.{Step};
ghost use Rattle.kernel_syntax.specs.Layout.{ArePlaced, elements};
ghost use Rattle.kernel_syntax.specs.Program.{team_of};
ghost use Rattle.serial_run.specs.Placing.{ElementLayout, TellsWords};
ghost use Rattle.serial_run.specs.Stepping.{PausesAt, stand};
ghost use Rattle.serial_team.specs.declared.member.TaskLog.{TaskLog};
ghost use Rattle.serial_team.specs.Members.{BeginTeam, BeginsLane, all_idle, idle_member, logs_at, logs_of_member, path_in, pool, seen, whole_log};
ghost use Rattle.serial_team.specs.Stopping.{IfStopped, LaneLong, LaneStopped};
ghost use Rattle.serial_team.specs.declared.stop.Stop.TheVariants as stop;

use crate::stop::Stop;
use kernel_syntax::{Array, Team};
use serial_run::{Locals, Pause, SerialLane, SerialMemory, TaskPlace};
use std::alloc::Global;
use sw_base::{LOG_HEADER, Path};

/// The whole log of a task: its bytes, and how many records it has.
#[derive(Drop)]
pub struct TaskLog {
    pub path: Path,
    pub log: Vec<u8>,
    pub records: u32,
}

/// Where a lane stands still.
#[derive(Clone, Copy)]
pub enum Stage {
    /// At a barrier, or before its first record.
    Waits,
    /// At its end.
    Ended,
}

/// A lane of a team: how many regions it has forked, the whole logs of the tasks in them, in the order of their paths, and where it
/// stands still.
#[derive(Drop)]
pub struct Member<'k> {
    pub lane: SerialLane<'k>,
    pub forked: u32,
    pub below: Vec<TaskLog>,
    pub stage: Stage,
}

impl<'k> Member<'k> {
    // A lane of a team, which begins with these locals.
    pub(crate) fn begin(
        alloc: Global,
        arrays: &'k [Array],
        team: &'k Team,
        locals: &Locals,
        lane: u16,
    ) -> Result<Member<'k>, Stop>
        requires placed { ArePlaced arrays.now (elements arrays.now) }
        requires within { lane < team.now.span }
        ensures begins { IfOk result (λ m. BeginsLane arrays.now (team_of team.now) locals.now.slots.items lane (idle_member m)) }
        ensures memory { IfErr result (λ e. e ≡ stop.Memory) }
    {
        let place = TaskPlace::new(arrays, lane, team.span);
        let locals = Locals {
            slots: locals.slots.clone()?,
        };
        let log = LOG_HEADER.to_vec(alloc)?;
        match SerialLane::start(alloc, place, team, locals, log) {
            Ok(lane) => Ok(Member {
                lane,
                forked: 0,
                below: Vec::new(alloc),
                stage: Stage::Waits,
            }),
            Err(_) => Err(Stop::Memory),
        }
    }

    // The path of the lane, in the region of this number of the task at this path.
    pub(crate) fn path(&self, at: &Path, number: u32) -> Path
        requires { length at.now < 4 }
        ensures { result ≡ path_in at.now number (idle_member self.now) }
    {
        let place = &self.lane.place;
        at.child(number, place.lane(), place.span())
    }

    // Goes on until the task stands still.
    pub(crate) fn resume(
        &mut self,
        path: &Path,
        memory: &mut SerialMemory,
    ) -> Result<Pause<'k>, Stop>
        ensures pauses { (layout : ElementLayout) → TellsWords self.old.lane.place.arrays layout → IfOk result (λ to. PausesAt layout (stand self.old.lane memory.old) (stand self.new.lane memory.new) to) }
        ensures stops { (layout : ElementLayout) → TellsWords self.old.lane.place.arrays layout
            → IfErr result (λ e. IfStopped (LaneStopped layout path.now (seen memory.old self.old) (pool memory.new)) (LaneLong layout path.now (seen memory.old self.old)) e) }
        ensures others { self.new ≡ record self.old { lane = self.new.lane } }
    {
        match self.lane.resume(memory) {
            Ok(pause) => Ok(pause),
            Err(halt) => Err(Stop::of(halt, path, self.lane.track.count)),
        }
    }

    // Hands on the log of the task, whose path is this, and those of the tasks below it.
    pub(crate) fn hand_on(self, path: Path, done: &mut Vec<TaskLog>) -> Result<(), Stop>
        ensures logs { OnOk result (map whole_log done.new.items ≡ map whole_log done.old.items ++ logs_at path (idle_member self.entry)) }
        ensures memory { IfErr result (λ e. e ≡ stop.Memory) }
    {
        let Member { lane, below, .. } = self;
        let track = lane.track;
        let records = track.count;
        let log = track.log;
        done.push(TaskLog { path, log, records })?;
        for log in below {
            done.push(log)?;
        }
        Ok(())
    }
}

/// The lanes of a team, which begin with these locals.
pub(crate) fn begin_team<'k>(
    alloc: Global,
    arrays: &'k [Array],
    team: &'k Team,
    locals: &Locals,
) -> Result<Vec<Member<'k>>, Stop>
    requires placed { ArePlaced arrays.now (elements arrays.now) }
    ensures begins { IfOk result (λ members. BeginTeam arrays.now (team_of team.now) locals.now.slots.items (all_idle members.items)) }
    ensures memory { IfErr result (λ e. e ≡ stop.Memory) }
{
    if team.span == 0 {
        return Err(Stop::Memory);
    }
    let mut members = Vec::new(alloc);
    for lane in 0..team.span {
        members.push(Member::begin(alloc, arrays, team, locals, lane)?)?;
    }
    Ok(members)
}

/// Hands on the logs of the lanes of a region, each with those of the tasks below it.
pub(crate) fn hand_on_all(
    at: &Path,
    number: u32,
    members: Vec<Member<'_>>,
    done: &mut Vec<TaskLog>,
) -> Result<(), Stop>
    requires { length at.now < 4 }
    ensures logs { OnOk result (map whole_log done.new.items ≡ map whole_log done.old.items ++ flat_map (logs_of_member at.now number) (all_idle members.entry.items)) }
    ensures memory { IfErr result (λ e. e ≡ stop.Memory) }
{
    for member in members {
        let path = member.path(at, number);
        member.hand_on(path, done)?;
    }
    Ok(())
}

/// Whether a lane stands still so.
pub(crate) fn is_at(member: &Member<'_>, stage: Stage) -> bool
    ensures { IsTrue result → member.now.stage ≡ stage }
{
    member.stage == stage
}

/// Whether all lanes stand still so.
pub(crate) fn all_at(members: &[Member<'_>], stage: Stage) -> bool
    ensures { IsTrue result → All (λ m. m.stage ≡ stage) members.now }
{
    for member in members {
        if !is_at(member, stage) {
            return false;
        }
    }
    true
}
