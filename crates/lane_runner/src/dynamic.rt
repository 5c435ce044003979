//! Worksharing loops whose chunks are drawn.
ghost use Rattle.std.specs.Prelude.{IfOk, ◌≡◌, ◌+◌, ◌-◌, ◌<◌, ◌≤◌, ◌^◌, ℕ, pos, ◌+ℤ◌, ◌≤ℤ◌};
ghost use Rattle.log_format.specs.Limit.{record_limit};
ghost use Rattle.kernel_syntax.specs.Program.{code_of};
ghost use Rattle.kernel_model.specs.Iterations.{chunk_count, chunk_iterations};
ghost use Rattle.kernel_model.specs.Trace.{each};
ghost use Rattle.kernel_model.specs.Drawing.{turn_from, draw_once, draw_all};
ghost use Rattle.lane_runner.specs.Drawing.{HasCounters, open_past};
ghost use Rattle.lane_runner.specs.Executing.{MayExecute};
ghost use Rattle.lane_runner.specs.Going.{Goes, IsSameLog, site};

use crate::frame::Frame;
use crate::stop::{Halt, Stop};
use crate::world::World;
use kernel_syntax::{Body, Team};
use shared_words::Hand;
use std::alloc::Global;
use std::marker::Send;
use std::sync::Wait;
use std::thread::Threads;
use sw_base::{ClosedLog, Log, Path};
use task_place::Locals;

impl<L: Log> Frame<L> {
    /// Draws a chunk of the loop that is open, and executes it. False where none is left.
    fn drawn_chunk<
        R: Threads + Wait + Copy + Send + 'static,
        F: Fn(
            &mut Hand,
            &Locals,
            u32,
            Vec<L>,
            &Team,
            &mut Vec<ClosedLog<L>>,
        ) -> Result<(), (Path, Stop)>,
    >(
        &mut self,
        body: &Body,
        rt: &R,
        alloc: Global,
        world: &World,
        region: &F,
        slot: u32,
        from: i64,
        total: u64,
        chunk: u64,
        line: u32,
    ) -> Result<bool, Halt>
        requires executes { MayExecute world.now (F.pre region.now) (F.post region.now) L.Log self.old.track (code_of body.now.stmts.items) }
        requires some { 0 < chunk }
        requires top { (from +ℤ pos total) ≤ℤ pos (2 ^ 63 - 1) }
        requires counter { HasCounters 1 self.old.track.tally.next_loop world.now.chunks }
        requires line { 1 ≤ line }
        ensures goes { Goes world.now (draw_once line (chunk_count chunk total) (λ q. each (chunk_iterations chunk total q) (turn_from (site world.now) (code_of body.now.stmts.items) slot from))) self.old.locals.slots.items self.new.locals.slots.items self.old.track self.new.track result }
        ensures log { IsSameLog self.old.track.buffer self.new.track.buffer }
        ensures loops { IfOk result (λ more. self.new.track.tally.next_loop ≡ open_past more self.old.track.tally.next_loop) }
        ensures below { IfOk result (λ _. self.old.track.buffer.count < record_limit) }
        ensures count { IfOk result (λ _. self.old.track.buffer.count < self.new.track.buffer.count) }
    {
        let chunks = total.div_ceil(chunk);
        let number = self.track.draw(rt, alloc, world, line, chunks)?;
        if number == chunks {
            return Ok(false);
        }
        let first = number * chunk;
        self.repeat(
            body,
            rt,
            alloc,
            world,
            region,
            slot,
            from,
            first,
            chunk.min(total - first),
        )?;
        Ok(true)
    }

    /// Draws chunks of the loop that is open, and executes them, until none is left.
    pub(crate) fn drawn_chunks<
        R: Threads + Wait + Copy + Send + 'static,
        F: Fn(
            &mut Hand,
            &Locals,
            u32,
            Vec<L>,
            &Team,
            &mut Vec<ClosedLog<L>>,
        ) -> Result<(), (Path, Stop)>,
    >(
        &mut self,
        body: &Body,
        rt: &R,
        alloc: Global,
        world: &World,
        region: &F,
        slot: u32,
        from: i64,
        total: u64,
        chunk: u64,
        line: u32,
    ) -> Result<(), Halt>
        requires executes { MayExecute world.now (F.pre region.now) (F.post region.now) L.Log self.old.track (code_of body.now.stmts.items) }
        requires some { 0 < chunk }
        requires top { (from +ℤ pos total) ≤ℤ pos (2 ^ 63 - 1) }
        requires counter { HasCounters 1 self.old.track.tally.next_loop world.now.chunks }
        requires line { 1 ≤ line }
        ensures goes { Goes world.now (draw_all line (chunk_count chunk total) (λ q. each (chunk_iterations chunk total q) (turn_from (site world.now) (code_of body.now.stmts.items) slot from))) self.old.locals.slots.items self.new.locals.slots.items self.old.track self.new.track result }
        ensures log { IsSameLog self.old.track.buffer self.new.track.buffer }
        ensures loops { IfOk result (λ _. self.new.track.tally.next_loop ≡ self.old.track.tally.next_loop + 1) }
    {
        'draws: loop {
            if !self.drawn_chunk(
                body, rt, alloc, world, region, slot, from, total, chunk, line,
            )? {
                return Ok(());
            }
        }
    }
}
