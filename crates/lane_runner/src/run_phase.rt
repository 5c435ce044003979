//! A whole phase.
ghost use Rattle.std.specs.Prelude.{◌≡◌, ◌+◌, ◌<◌, ◌≤◌, [], map, All, IfOk, OnOk};
ghost use Rattle.kernel_model.specs.Parts.{bar_count, drawn_count, run_parts};
ghost use Rattle.kernel_model.specs.Phases.{part_of};
ghost use Rattle.lane_runner.specs.Forking.{IsReady};
ghost use Rattle.lane_runner.specs.Going.{CanGo, GoesPast, IsSameLog, site};
ghost use Rattle.lane_runner.specs.Phase.{IsPhase};
ghost use Rattle.lane_runner.specs.Teams.{EachTeamIn, MayForkTeam};

use crate::frame::Frame;
use crate::stop::{Halt, Stop};
use crate::world::World;
use kernel_model::Phase;
use kernel_syntax::Team;
use shared_words::Hand;
use std::alloc::Global;
use std::marker::Send;
use std::sync::Wait;
use std::thread::Threads;
use sw_base::{ClosedLog, Log, Path};
use task_place::Locals;

impl<L: Log> Frame<L> {
    /// Executes the items of a phase.
    pub fn run_phase<
        R: Threads + Wait + Copy + Send + 'static,
        F: Fn(
            &mut Hand,
            &Locals,
            u32,
            Vec<L>,
            &Team,
            &mut Vec<ClosedLog<L>>,
        ) -> Result<(), (Path, Stop)>,
    >(
        &mut self,
        phase: &Phase,
        rt: &R,
        alloc: Global,
        world: &World,
        region: &F,
    ) -> Result<(), Halt>
        requires can { CanGo world.now self.old.track }
        requires free { self.old.track.hand.view.held ≡ [] }
        requires phase { IsPhase world.now.words.locks phase.now }
        requires counters { self.old.track.tally.next_loop + drawn_count (map part_of phase.now) ≤ world.now.chunks.loops }
        requires number { world.now.chunks.loops < 4294967296 }
        requires runs { All (EachTeamIn (MayForkTeam world.now (F.pre region.now) (F.post region.now) L.Log self.old.track.buffer)) phase.now }
        ensures goes { GoesPast (bar_count (map part_of phase.now)) world.now (run_parts (site world.now) (map part_of phase.now)) self.old.locals.slots.items self.new.locals.slots.items self.old.track self.new.track result }
        ensures log { IsSameLog self.old.track.buffer self.new.track.buffer }
        ensures loops { IfOk result (λ _. self.new.track.tally.next_loop ≡ self.old.track.tally.next_loop + drawn_count (map part_of phase.now)) }
        ensures ready { IsReady self.new.track.hand world.now.words }
        ensures can { OnOk result (CanGo world.now self.new.track) }
    {
        for item in phase.items() {
            self.step(item, rt, alloc, world, region)?;
        }
        Ok(())
    }
}
