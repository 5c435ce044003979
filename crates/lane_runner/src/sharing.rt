//! Worksharing loops: a lane's share of the iterations.
ghost use Rattle.std.specs.Prelude.{IfOk, ◌≡◌, ◌<◌, ◌≤◌, ◌+◌, ◌-◌, ◌^◌, true, pos, ◌+ℤ◌, ◌≤ℤ◌};
ghost use Rattle.kernel_syntax.specs.Bounds.{IsBoundedCode, IsBoundedSchedule};
ghost use Rattle.kernel_syntax.specs.Program.{code_of, term_of};
ghost use Rattle.kernel_syntax.specs.Tree as tree;
ghost use Rattle.kernel_syntax.specs.Tree.{Done};
ghost use Rattle.kernel_model.specs.Iterations.{static_iterations};
ghost use Rattle.kernel_model.specs.Trace.{run, each, shared};
ghost use Rattle.kernel_model.specs.Drawing.{turn_from};
ghost use Rattle.lane_runner.specs.Alone.{IsAlone};
ghost use Rattle.lane_runner.specs.Drawing.{HasCounters, counters_of};
ghost use Rattle.lane_runner.specs.Executing.{MayExecute};
ghost use Rattle.lane_runner.specs.Going.{CanGo, Goes, IsSameLog, site};
ghost use Rattle.lane_runner.specs.Teams.{EachTeam, MayForkTeam};

use crate::frame::Frame;
use crate::stop::{Halt, Stop};
use crate::value::value;
use crate::world::World;
use kernel_syntax::{Body, Expr, Schedule, Team, even_share};
use shared_words::Hand;
use std::alloc::Global;
use std::marker::Send;
use std::sync::Wait;
use std::thread::Threads;
use sw_base::{ClosedLog, Log, Path};
use task_place::{Locals, total_of};

impl<L: Log> Frame<L> {
    /// Executes the lane's chunks of a loop whose chunks are dealt in turn.
    fn chunks<
        R: Threads + Wait + Copy + Send + 'static,
        F: Fn(
            &mut Hand,
            &Locals,
            u32,
            Vec<L>,
            &Team,
            &mut Vec<ClosedLog<L>>,
        ) -> Result<(), (Path, Stop)>,
    >(
        &mut self,
        body: &Body,
        rt: &R,
        alloc: Global,
        world: &World,
        region: &F,
        slot: u32,
        from: i64,
        total: u64,
        chunk: u32,
    ) -> Result<(), Halt>
        requires executes { MayExecute world.now (F.pre region.now) (F.post region.now) L.Log self.old.track (code_of body.now.stmts.items) }
        requires some { 0 < chunk }
        requires top { (from +ℤ pos total) ≤ℤ pos (2 ^ 63 - 1) }
        ensures goes { Goes world.now (each (static_iterations chunk total world.now.lane world.now.span) (turn_from (site world.now) (code_of body.now.stmts.items) slot from)) self.old.locals.slots.items self.new.locals.slots.items self.old.track self.new.track result }
        ensures log { IsSameLog self.old.track.buffer self.new.track.buffer }
        ensures loops { self.new.track.tally.next_loop ≡ self.old.track.tally.next_loop }
    {
        let chunk = u64::from(chunk);
        let stride = chunk * u64::from(world.span());
        let mut first = chunk * u64::from(world.lane());
        'chunks: while first < total {
            let count = chunk.min(total - first);
            self.repeat(body, rt, alloc, world, region, slot, from, first, count)?;
            first = first.saturating_add(stride);
        }
        Ok(())
    }

    /// Executes the lane's share of a loop of so many iterations, of which the first has this value.
    fn share<
        R: Threads + Wait + Copy + Send + 'static,
        F: Fn(
            &mut Hand,
            &Locals,
            u32,
            Vec<L>,
            &Team,
            &mut Vec<ClosedLog<L>>,
        ) -> Result<(), (Path, Stop)>,
    >(
        &mut self,
        body: &Body,
        rt: &R,
        alloc: Global,
        world: &World,
        region: &F,
        slot: u32,
        from: i64,
        total: u64,
        schedule: Schedule,
        line: u32,
    ) -> Result<(), Halt>
        requires executes { MayExecute world.now (F.pre region.now) (F.post region.now) L.Log self.old.track (code_of body.now.stmts.items) }
        requires chunk { IsBoundedSchedule schedule }
        requires counters { HasCounters (counters_of schedule) self.old.track.tally.next_loop world.now.chunks }
        requires line { 1 ≤ line }
        requires top { (from +ℤ pos total) ≤ℤ pos (2 ^ 63 - 1) }
        ensures goes { Goes world.now (shared schedule (site world.now) line total (turn_from (site world.now) (code_of body.now.stmts.items) slot from)) self.old.locals.slots.items self.new.locals.slots.items self.old.track self.new.track result }
        ensures log { IsSameLog self.old.track.buffer self.new.track.buffer }
        ensures loops { IfOk result (λ _. self.new.track.tally.next_loop ≡ self.old.track.tally.next_loop + counters_of schedule) }
    {
        match schedule {
            Schedule::Even => {
                let (first, count) = even_share(total, world.lane(), world.span());
                self.repeat(body, rt, alloc, world, region, slot, from, first, count)
            }
            Schedule::Static(chunk) => {
                self.chunks(body, rt, alloc, world, region, slot, from, total, chunk)
            }
            Schedule::Dynamic(chunk) => self.drawn_chunks(
                body,
                rt,
                alloc,
                world,
                region,
                slot,
                from,
                total,
                u64::from(chunk),
                line,
            ),
        }
    }

    /// Executes the lane's share of a worksharing loop, without the barrier at its end.
    pub fn shared_loop<
        R: Threads + Wait + Copy + Send + 'static,
        F: Fn(
            &mut Hand,
            &Locals,
            u32,
            Vec<L>,
            &Team,
            &mut Vec<ClosedLog<L>>,
        ) -> Result<(), (Path, Stop)>,
    >(
        &mut self,
        body: &Body,
        rt: &R,
        alloc: Global,
        world: &World,
        region: &F,
        slot: u32,
        from: &Expr,
        to: &Expr,
        schedule: Schedule,
        line: u32,
        end: u32,
    ) -> Result<(), Halt>
        requires can { CanGo world.now self.old.track }
        requires bounded { IsBoundedCode (tree.For slot (term_of from.now) (term_of to.now) schedule true line end (code_of body.now.stmts.items) Done) }
        requires alone { IsAlone world.now.words.locks self.old.track.hand.view.held (code_of body.now.stmts.items) }
        requires runs { EachTeam (MayForkTeam world.now (F.pre region.now) (F.post region.now) L.Log self.old.track.buffer) (code_of body.now.stmts.items) }
        requires counters { HasCounters (counters_of schedule) self.old.track.tally.next_loop world.now.chunks }
        ensures goes { Goes world.now (run (site world.now) (tree.For slot (term_of from.now) (term_of to.now) schedule true line end (code_of body.now.stmts.items) Done)) self.old.locals.slots.items self.new.locals.slots.items self.old.track self.new.track result }
        ensures log { IsSameLog self.old.track.buffer self.new.track.buffer }
        ensures loops { IfOk result (λ _. self.new.track.tally.next_loop ≡ self.old.track.tally.next_loop + counters_of schedule) }
    {
        let first = value(rt, alloc, world, &self.locals, &mut self.track, from)?;
        let last = value(rt, alloc, world, &self.locals, &mut self.track, to)?;
        self.share(
            body,
            rt,
            alloc,
            world,
            region,
            slot,
            first,
            total_of(first, last),
            schedule,
            line,
        )
    }
}
