//! A lane's phase: what it executes up to a barrier of its team, or to the end.
ghost use Rattle.std.specs.Prelude.{◌≡◌, ◌+◌, ◌<◌, ◌≤◌, [], ◌∷◌, IfOk};
ghost use Rattle.kernel_syntax.specs.Bounds.{IsBoundedCode};
ghost use Rattle.kernel_syntax.specs.Program.{stmt_code};
ghost use Rattle.kernel_syntax.specs.Tree.{Done};
ghost use Rattle.kernel_model.specs.Parts.{bar_count, drawn_count, run_part};
ghost use Rattle.kernel_model.specs.Phases.{part_of, part_of_stmt, without_barrier};
ghost use Rattle.kernel_model.specs.Trace.{run};
ghost use Rattle.lane_runner.specs.Going.{CanGo, Goes, GoesPast, IsSameLog, site};
ghost use Rattle.lane_runner.specs.Phase.{IsItem, IsOfTeam};
ghost use Rattle.lane_runner.specs.Teams.{EachTeam, EachTeamIn, MayForkTeam};

use crate::frame::Frame;
use crate::stop::{Halt, Stop};
use crate::world::World;
use kernel_model::Item;
use kernel_syntax::{Stmt, Team};
use shared_words::Hand;
use std::alloc::Global;
use std::marker::Send;
use std::sync::Wait;
use std::thread::Threads;
use sw_base::{ClosedLog, Log, Path};
use task_place::Locals;

impl<L: Log> Frame<L> {
    /// Executes a statement of the team: of a worksharing loop all but the barrier at its end.
    pub fn part<
        R: Threads + Wait + Copy + Send + 'static,
        F: Fn(
            &mut Hand,
            &Locals,
            u32,
            Vec<L>,
            &Team,
            &mut Vec<ClosedLog<L>>,
        ) -> Result<(), (Path, Stop)>,
    >(&mut self, stmt: &Stmt, rt: &R, alloc: Global, world: &World, region: &F) -> Result<(), Halt>
        requires can { CanGo world.now self.old.track }
        requires free { self.old.track.hand.view.held ≡ [] }
        requires bounded { IsBoundedCode (stmt_code stmt.now Done) }
        requires own { IsOfTeam world.now.words.locks (stmt_code stmt.now Done) }
        requires counters { self.old.track.tally.next_loop + drawn_count (part_of_stmt stmt.now ∷ []) ≤ world.now.chunks.loops }
        requires number { self.old.track.tally.next_loop < 4294967296 }
        requires runs { EachTeam (MayForkTeam world.now (F.pre region.now) (F.post region.now) L.Log self.old.track.buffer) (stmt_code stmt.now Done) }
        ensures goes { Goes world.now (run (site world.now) (without_barrier (stmt_code stmt.now Done))) self.old.locals.slots.items self.new.locals.slots.items self.old.track self.new.track result }
        ensures log { IsSameLog self.old.track.buffer self.new.track.buffer }
        ensures loops { IfOk result (λ _. self.new.track.tally.next_loop ≡ self.old.track.tally.next_loop + drawn_count (part_of_stmt stmt.now ∷ [])) }
    {
        match stmt {
            Stmt::For {
                slot,
                from,
                to,
                schedule,
                nowait: _,
                line,
                end,
                body,
            } => self.shared_loop(
                body, rt, alloc, world, region, *slot, from, to, *schedule, *line, *end,
            ),
            _ => self.statement(stmt, rt, alloc, world, region),
        }
    }

    /// Executes an item.
    pub fn step<
        R: Threads + Wait + Copy + Send + 'static,
        F: Fn(
            &mut Hand,
            &Locals,
            u32,
            Vec<L>,
            &Team,
            &mut Vec<ClosedLog<L>>,
        ) -> Result<(), (Path, Stop)>,
    >(&mut self, item: &Item, rt: &R, alloc: Global, world: &World, region: &F) -> Result<(), Halt>
        requires can { CanGo world.now self.old.track }
        requires free { self.old.track.hand.view.held ≡ [] }
        requires item { IsItem world.now.words.locks item.now }
        requires counters { self.old.track.tally.next_loop + drawn_count (part_of item.now ∷ []) ≤ world.now.chunks.loops }
        requires number { self.old.track.tally.next_loop < 4294967296 }
        requires runs { EachTeamIn (MayForkTeam world.now (F.pre region.now) (F.post region.now) L.Log self.old.track.buffer) item.now }
        ensures goes { GoesPast (bar_count (part_of item.now ∷ [])) world.now (run_part (site world.now) (part_of item.now)) self.old.locals.slots.items self.new.locals.slots.items self.old.track self.new.track result }
        ensures log { IsSameLog self.old.track.buffer self.new.track.buffer }
        ensures loops { IfOk result (λ _. self.new.track.tally.next_loop ≡ self.old.track.tally.next_loop + drawn_count (part_of item.now ∷ [])) }
    {
        match item {
            Item::Set { slot, value } => {
                self.locals.set(*slot, *value);
                Ok(())
            }
            Item::Run { stmt, .. } => self.part(stmt, rt, alloc, world, region),
            Item::Bar { line } => self.track.meet(rt, alloc, *line),
        }
    }
}
