//! Lists of statements.
ghost use Rattle.std.specs.Prelude.{◌≡◌, ◌+◌, ◌-◌, ◌^◌, pos, ◌+ℤ◌, ◌≤ℤ◌};
ghost use Rattle.kernel_syntax.specs.Program.{code_of, stmt_code};
ghost use Rattle.kernel_syntax.specs.Tree as tree;
ghost use Rattle.kernel_syntax.specs.Tree.{Done};
ghost use Rattle.kernel_model.specs.Trace.{run, turns};
ghost use Rattle.kernel_model.specs.Drawing.{turn_from};
ghost use Rattle.lane_runner.specs.Executing.{MayExecute};
ghost use Rattle.lane_runner.specs.Going.{Goes, IsSameLog, site};

use crate::frame::Frame;
use crate::stop::{Halt, Stop};
use crate::value::value;
use crate::world::World;
use kernel_model::Change;
use kernel_syntax::{Body, Stmt, Team};
use shared_words::Hand;
use std::alloc::Global;
use std::marker::Send;
use std::sync::Wait;
use std::thread::Threads;
use sw_base::{ClosedLog, Log, Path};
use task_place::{Locals, number_at, total_of};

impl<L: Log> Frame<L> {
    /// Executes the statements of a body.
    #[cycle(executing)]
    pub fn statements<
        R: Threads + Wait + Copy + Send + 'static,
        F: Fn(
            &mut Hand,
            &Locals,
            u32,
            Vec<L>,
            &Team,
            &mut Vec<ClosedLog<L>>,
        ) -> Result<(), (Path, Stop)>,
    >(&mut self, body: &Body, rt: &R, alloc: Global, world: &World, region: &F) -> Result<(), Halt>
        requires executes { MayExecute world.now (F.pre region.now) (F.post region.now) L.Log self.old.track (code_of body.now.stmts.items) }
        ensures goes { Goes world.now (run (site world.now) (code_of body.now.stmts.items)) self.old.locals.slots.items self.new.locals.slots.items self.old.track self.new.track result }
        ensures log { IsSameLog self.old.track.buffer self.new.track.buffer }
        ensures loops { self.new.track.tally.next_loop ≡ self.old.track.tally.next_loop }
    {
        for stmt in &body.stmts {
            self.statement(stmt, rt, alloc, world, region)?;
        }
        Ok(())
    }

    /// Executes so many turns of a loop that begins at this value of its variable, from this turn on.
    #[cycle(executing)]
    pub(crate) fn repeat<
        R: Threads + Wait + Copy + Send + 'static,
        F: Fn(
            &mut Hand,
            &Locals,
            u32,
            Vec<L>,
            &Team,
            &mut Vec<ClosedLog<L>>,
        ) -> Result<(), (Path, Stop)>,
    >(
        &mut self,
        body: &Body,
        rt: &R,
        alloc: Global,
        world: &World,
        region: &F,
        slot: u32,
        from: i64,
        first: u64,
        count: u64,
    ) -> Result<(), Halt>
        requires executes { MayExecute world.now (F.pre region.now) (F.post region.now) L.Log self.old.track (code_of body.now.stmts.items) }
        requires top { (from +ℤ pos (first + count)) ≤ℤ pos (2 ^ 63 - 1) }
        ensures goes { Goes world.now (turns count first (turn_from (site world.now) (code_of body.now.stmts.items) slot from)) self.old.locals.slots.items self.new.locals.slots.items self.old.track self.new.track result }
        ensures log { IsSameLog self.old.track.buffer self.new.track.buffer }
        ensures loops { self.new.track.tally.next_loop ≡ self.old.track.tally.next_loop }
    {
        for i in 0..count {
            self.locals.set(slot, number_at(from, first, i));
            self.statements(body, rt, alloc, world, region)?;
        }
        Ok(())
    }

    /// Executes a critical section.
    #[cycle(executing)]
    fn critical<
        R: Threads + Wait + Copy + Send + 'static,
        F: Fn(
            &mut Hand,
            &Locals,
            u32,
            Vec<L>,
            &Team,
            &mut Vec<ClosedLog<L>>,
        ) -> Result<(), (Path, Stop)>,
    >(
        &mut self,
        body: &Body,
        rt: &R,
        alloc: Global,
        world: &World,
        region: &F,
        mutex: u16,
        line: u32,
        end: u32,
    ) -> Result<(), Halt>
        requires executes { MayExecute world.now (F.pre region.now) (F.post region.now) L.Log self.old.track (tree.Critical mutex line end (code_of body.now.stmts.items) Done) }
        ensures goes { Goes world.now (run (site world.now) (tree.Critical mutex line end (code_of body.now.stmts.items) Done)) self.old.locals.slots.items self.new.locals.slots.items self.old.track self.new.track result }
        ensures log { IsSameLog self.old.track.buffer self.new.track.buffer }
        ensures loops { self.new.track.tally.next_loop ≡ self.old.track.tally.next_loop }
    {
        self.track.lock(rt, alloc, world, mutex, line)?;
        if let Err(halt) = self.statements(body, rt, alloc, world, region) {
            self.track.release(world, mutex);
            return Err(halt);
        }
        if let Err(halt) = self.track.unlock(rt, alloc, world, mutex, end) {
            self.track.release(world, mutex);
            return Err(halt);
        }
        Ok(())
    }

    /// Executes a statement.
    #[cycle(executing)]
    pub(crate) fn statement<
        R: Threads + Wait + Copy + Send + 'static,
        F: Fn(
            &mut Hand,
            &Locals,
            u32,
            Vec<L>,
            &Team,
            &mut Vec<ClosedLog<L>>,
        ) -> Result<(), (Path, Stop)>,
    >(&mut self, stmt: &Stmt, rt: &R, alloc: Global, world: &World, region: &F) -> Result<(), Halt>
        requires executes { MayExecute world.now (F.pre region.now) (F.post region.now) L.Log self.old.track (stmt_code stmt.now Done) }
        ensures goes { Goes world.now (run (site world.now) (stmt_code stmt.now Done)) self.old.locals.slots.items self.new.locals.slots.items self.old.track self.new.track result }
        ensures log { IsSameLog self.old.track.buffer self.new.track.buffer }
        ensures loops { self.new.track.tally.next_loop ≡ self.old.track.tally.next_loop }
    {
        match stmt {
            Stmt::Set { slot, value: expr } => self.set(rt, alloc, world, *slot, expr),
            Stmt::Store {
                array,
                index,
                value: expr,
                line,
                site,
            } => self.change(
                rt,
                alloc,
                world,
                Change::Store,
                *array,
                index,
                expr,
                *line,
                *site,
            ),
            Stmt::Update {
                array,
                index,
                value: expr,
                minus,
                line,
                site,
            } => self.change(
                rt,
                alloc,
                world,
                Change::Update { minus: *minus },
                *array,
                index,
                expr,
                *line,
                *site,
            ),
            Stmt::If { test, yes, no } => {
                let chosen = value(rt, alloc, world, &self.locals, &mut self.track, test)?;
                if chosen == 0 {
                    self.statements(no, rt, alloc, world, region)
                } else {
                    self.statements(yes, rt, alloc, world, region)
                }
            }
            Stmt::Loop {
                slot,
                from,
                to,
                body,
            } => {
                let first = value(rt, alloc, world, &self.locals, &mut self.track, from)?;
                let last = value(rt, alloc, world, &self.locals, &mut self.track, to)?;
                let total = total_of(first, last);
                self.repeat(body, rt, alloc, world, region, *slot, first, 0, total)
            }
            Stmt::Critical {
                mutex,
                line,
                end,
                body,
            } => self.critical(body, rt, alloc, world, region, *mutex, *line, *end),
            Stmt::Parallel { team } => {
                self.track
                    .parallel(rt, alloc, world, &self.locals, team, region)
            }
            _ => unreachable!(),
        }
    }
}
