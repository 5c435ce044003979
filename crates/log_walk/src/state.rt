ghost use Rattle.std.specs.Prelude.{◌≡◌, ◌+◌, ◌-◌, ◌^◌, ◌<◌, ◌≤◌, ℕ, true, false, List, [], ◌∷◌, ◌++◌, length, IsTrue, IsFalse, MatchOption};
ghost use Rattle.log_format.specs.declared.record.Record.{Record};
ghost use Rattle.log_format.specs.Table.{HasAddress};
ghost use Rattle.race_model.specs.Race.{held_after};
ghost use Rattle.log_walk.specs.Check.{opens_by};
ghost use Rattle.log_walk.specs.Rules.{log_task_of, BreaksNone, BreaksFirst};
ghost use Rattle.log_walk.specs.State.{IsStateAfter, with_counted};
ghost use Rattle.race_model.specs.LogFault.{max_segments};
ghost use Rattle.race_model.specs.Trace.{region_count};

use crate::rules;
use crate::task::Task;
use log_format::{Kind, Record};
use mutex_set::Held;
use race_model::RecordWhy;

/// The most segments that a folder has.
pub const MAX_SEGMENTS: u32 = 65_536;

/// What is kept of the records of a log that were read.
#[derive(Drop)]
pub struct State {
    /// The mutexes that the task holds.
    pub held: Held,
    /// How many barriers it passed.
    pub barriers: u32,
    /// How many segments this log and the earlier ones have.
    pub segments: u32,
}

impl State {
    /// Before the first record of a log.
    pub fn new(opened: u32) -> State
        ensures { IsStateAfter result opened [] }
    {
        State {
            held: Held::none(),
            barriers: 0,
            segments: opened,
        }
    }

    /// The first rule that the next record breaks, after so many regions. Where it breaks none, its mutex is taken or given
    /// back.
    pub fn broken(
        &mut self,
        task: &Task,
        regions: usize,
        number: u32,
        next: &Record,
    ) -> Option<RecordWhy>
        requires { HasAddress next.now.kind next.now }
        ensures rules { (opened : ℕ) (before : List Record) → IsStateAfter self.old opened before → regions ≡ region_count before → number ≡ length before + 1
            → MatchOption result (BreaksNone (log_task_of task.now) before next.now × (self.new.held ≡ held_after [] (before ++ next.now ∷ [])))
            (λ why. BreaksFirst (log_task_of task.now) before next.now why) }
        ensures same { self.new ≡ record self.old { held = self.new.held } }
    {
        if let Some(why) = rules::place(next.kind, number, task.records) {
            return Some(why);
        }
        match next.kind {
            Kind::Lock => rules::lock(&mut self.held, next.addr as u16),
            Kind::Unlock => rules::unlock(&mut self.held, next.addr as u16),
            Kind::Barrier => rules::barrier(&self.held, &task.path),
            Kind::Region => rules::region(&self.held, &task.spans, regions, next.value),
            Kind::End => rules::end(&self.held, task, regions, self.barriers),
            Kind::Read | Kind::Write | Kind::Chunk | Kind::Update => None,
        }
    }

    /// Counts a segment more. False where it is one too many.
    fn open(&mut self) -> bool
        requires { self.old.segments ≤ max_segments }
        ensures opened { IsTrue result → self.new ≡ record self.old { segments = self.old.segments + 1 } }
        ensures limit { self.new.segments ≤ max_segments }
        ensures full { IsFalse result → self.old.segments ≡ max_segments }
    {
        if self.segments == MAX_SEGMENTS {
            return false;
        }
        self.segments += 1;
        true
    }

    /// Counts a record of this kind, before which a segment is open or not. False where it opens one segment too many.
    pub fn count(&mut self, kind: Kind, is_open: bool) -> bool
        requires segments { self.old.segments ≤ max_segments }
        requires barriers { self.old.barriers < 2 ^ 32 - 1 }
        ensures counted { IsTrue result → self.new ≡ with_counted self.old kind is_open }
        ensures limit { self.new.segments ≤ max_segments }
        ensures full { IsFalse result → (self.old.segments ≡ max_segments) × (opens_by kind is_open ≡ 1) }
    {
        match kind {
            Kind::Barrier => {
                self.barriers += 1;
                true
            }
            Kind::Read | Kind::Write | Kind::Update => is_open || self.open(),
            Kind::Lock | Kind::Unlock | Kind::Region | Kind::Chunk | Kind::End => true,
        }
    }
}
