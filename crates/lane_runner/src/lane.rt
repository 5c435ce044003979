//! A lane of a team, from its first phase to its End.
ghost use Rattle.std.specs.Prelude.{◌≡◌, ◌≢◌, true, false, ◌≤◌, ◌<◌, All, None};
ghost use Rattle.lane_runner.specs.Lane.{CanGoOn, Executed, IsLanePath, PutsEnd, answer_noted, noted, progress, stop_of, with_hand};
ghost use Rattle.lane_runner.specs.Phase.{IsPhase};
ghost use Rattle.lane_runner.specs.Teams.{EachTeamIn, MayForkTeam};

use crate::frame::Frame;
use crate::stop::{Halt, Stop};
use crate::track::Track;
use crate::world::World;
use kernel_model::Phase;
use kernel_syntax::Team;
use shared_words::Hand;
use std::alloc::Global;
use std::marker::{Model, Send};
use std::sync::Wait;
use std::thread::Threads;
use sw_base::{ClosedLog, Log, Path};
use task_place::Locals;

/// A lane of a team: the path of its task; its locals, its hands, the buffer before its log, and the logs that its regions handed on; and,
/// if it doesn't go on, the path of the task that stopped, its own or one in the region that it forked last, and why. Its number in
/// its team is below the number of lanes. The root is one, too: it executes `main` alone, and its path has no step. Which phases it executes,
/// and whether its End is put after them, is the team's business.
#[derive(Drop)]
pub struct Lane<L: Log> {
    path: Path,
    frame: Frame<L>,
    stopped: Option<(Path, Stop)>,
}

impl<L: Log> Model for Lane<L> {
    ghost use Rattle.lane_runner.specs.Lane.{IsLanePath, LaneValue};

    ghost Value = { LaneValue };

    ghost view = { λ lane. record {
      path = lane.path;
      locals = lane.frame.locals.slots.items;
      hand = lane.frame.track.hand;
      buffer = lane.frame.track.buffer;
      tally = lane.frame.track.tally;
      done = lane.frame.track.done;
      stopped = lane.stopped;
    } };

    ghost invariant = { λ lane. IsLanePath lane.path };
}

// Which task stopped, and why: the lane at this path, or a task of a region that it forked.
fn stop_of(path: &Path, halt: Halt) -> (Path, Stop)
    ensures { result ≡ stop_of path.now halt }
{
    match halt {
        Halt::Own(why) => (path.copy(), why),
        Halt::Region(below, why) => (below, why),
    }
}

// What the lane at this path notes of an answer.
fn noted(path: &Path, answer: Result<(), Halt>) -> Option<(Path, Stop)>
    ensures { result ≡ noted path.now answer }
{
    match answer {
        Ok(()) => None,
        Err(halt) => Some(stop_of(path, halt)),
    }
}

impl<L: Log> Lane<L> {
    /// A lane at this path, before its first phase.
    pub fn new(path: Path, locals: Locals, track: Track<L>) -> Lane<L>
        requires { IsLanePath path }
        ensures { result ≡ record {
          path = path;
          locals = locals.slots.items;
          hand = track.hand;
          buffer = track.buffer;
          tally = track.tally;
          done = track.done;
          stopped = None;
        } }
    {
        Lane {
            path,
            frame: Frame { locals, track },
            stopped: None,
        }
    }

    /// The path of its task.
    pub fn path(&self) -> Path
        ensures is { result ≡ self.now.path }
        ensures lane { IsLanePath self.now.path }
    {
        self.path.copy()
    }

    /// Whether the lane goes on.
    pub fn goes(&self) -> bool
        ensures goes { result ≡ true → self.now.stopped ≡ None }
        ensures halted { result ≡ false → self.now.stopped ≢ None }
    {
        self.stopped.is_none()
    }

    /// The path of its task, what it steps with, and which task stopped, its own or one below, and why, if it doesn't go on.
    pub fn into_parts(self) -> (Path, Track<L>, Option<(Path, Stop)>)
        ensures path { result.0 ≡ self.path }
        ensures track { result.1 ≡ progress self }
        ensures stopped { result.2 ≡ self.stopped }
    {
        let Lane {
            path,
            frame,
            stopped,
        } = self;
        let Frame { track, locals: _ } = frame;
        (path, track, stopped)
    }

    /// The lane goes on with this hand, and gives back the one that it had.
    pub fn trade(&mut self, hand: Hand) -> Hand
        ensures given { result ≡ self.old.hand }
        ensures goes_on { self.new ≡ with_hand self.old hand }
    {
        self.frame.track.trade(hand)
    }

    // Notes why the lane doesn't go on, if it doesn't.
    fn note(&mut self, answer: Result<(), Halt>) -> Result<(), Stop>
        ensures notes { self.new ≡ record self.old { stopped = noted self.old.path answer } }
        ensures tells { result ≡ answer_noted self.new.stopped }
    {
        self.stopped = noted(&self.path, answer);
        match &self.stopped {
            None => Ok(()),
            Some((_, why)) => Err(*why),
        }
    }

    /// Executes the items of a phase. An `Err` says why the lane doesn't go on.
    pub fn run_phase<
        R: Threads + Wait + Copy + Send + 'static,
        F: Fn(
            &mut Hand,
            &Locals,
            u32,
            Vec<L>,
            &Team,
            &mut Vec<ClosedLog<L>>,
        ) -> Result<(), (Path, Stop)>,
    >(
        &mut self,
        phase: &Phase,
        rt: &R,
        alloc: Global,
        world: &World,
        region: &F,
    ) -> Result<(), Stop>
        requires can { CanGoOn world.now phase.now self.old }
        requires phase { IsPhase world.now.words.locks phase.now }
        requires number { world.now.chunks.loops < 4294967296 }
        requires runs { All (EachTeamIn (MayForkTeam world.now (F.pre region.now) (F.post region.now) L.Log self.old.buffer)) phase.now }
        ensures executed { Executed world.now phase.now self.old self.new }
        ensures tells { result ≡ answer_noted self.new.stopped }
    {
        let answer = self.frame.run_phase(phase, rt, alloc, world, region);
        self.note(answer)
    }

    /// Puts the End of its task, of this line. An `Err` says why there is none.
    pub fn finish<R: Threads + Wait + Copy + Send + 'static>(
        &mut self,
        rt: &R,
        alloc: Global,
        line: u32,
    ) -> Result<(), Stop>
        requires goes { self.old.stopped ≡ None }
        requires there { self.old.hand.there ≡ true }
        requires unrefused { self.old.buffer.refused ≡ None }
        requires line { 1 ≤ line }
        ensures puts { PutsEnd line self.old self.new }
        ensures tells { result ≡ answer_noted self.new.stopped }
    {
        let answer = self.frame.track.finish(rt, alloc, line);
        self.note(answer)
    }
}
