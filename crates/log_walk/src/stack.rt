//! What is kept from one log to the next.
ghost use Rattle.std.specs.Prelude.{◌≡◌, ◌+◌, ◌-◌, ◌^◌, ◌<◌, ◌≤◌, ℕ, List, [], ◌∷◌, ◌++◌, length, take, slice_get, Some, IfOk, OnOk, MatchOption};
ghost use Rattle.sw_base.specs.declared.path.Step.{Step as PathStep};
ghost use Rattle.log_walk.specs.GoodTrace.{LeadsTeam};
ghost use Rattle.log_walk.specs.Stack.{IsCountOf, counts_with};

use crate::window::Window;
use span_label::Label;
use std::alloc::Global;
use sw_base::{Memory, Path};

/// What is kept of the logs that were gone over.
#[derive(Drop)]
pub struct Stack {
    /// How many logs these were.
    pub place: usize,
    /// How many segments they have.
    pub segments: u32,
    /// For the last task, all above it, and by depth, the label of each of its forks.
    pub forks: Vec<Vec<Label>>,
    /// For the same but the root, how many barriers the first lane of its team passed.
    pub barriers: Vec<u32>,
    /// The bytes of a log that were read ahead.
    pub window: Window,
}

impl Stack {
    /// Before the first log.
    pub fn new(alloc: Global) -> Result<Stack, Memory>
        ensures place { IfOk result (λ stack. stack.place ≡ 0) }
        ensures segments { IfOk result (λ stack. stack.segments ≡ 0) }
    {
        Ok(Stack {
            place: 0,
            segments: 0,
            forks: Vec::new(alloc),
            barriers: Vec::new(alloc),
            window: Window::new(alloc)?,
        })
    }

    /// How many barriers a lane must pass, where the first lane of its team was gone over.
    pub fn due_barriers(&self, path: &Path) -> Option<u32>
        requires { (above : List PathStep) (step : PathStep) → path.now ≡ above ++ step ∷ [] → 0 < step.lane → length above < length self.now.barriers.items }
        ensures { MatchOption result (LeadsTeam path.now) (λ count. IsCountOf self.now.barriers.items path.now count) }
    {
        let (lane, above) = path.steps().split_last()?;
        if lane.lane == 0 {
            return None;
        }
        Some(self.barriers[above.len()])
    }

    /// Goes on past the log of this task: its forks, the barriers of its team, and how many segments there are then.
    pub fn push(
        &mut self,
        path: &Path,
        forks: Vec<Label>,
        barriers: u32,
        segments: u32,
    ) -> Result<(), Memory>
        requires { self.old.place < 2 ^ 32 }
        ensures place { OnOk result (self.new.place ≡ self.old.place + 1) }
        ensures segments { OnOk result (self.new.segments ≡ segments) }
        ensures forks { OnOk result (self.new.forks.items ≡ take (length path.now) self.old.forks.items ++ forks ∷ []) }
        ensures barriers { OnOk result (self.new.barriers.items ≡ counts_with path.now self.old.barriers.items barriers) }
    {
        let depth = path.steps().len();
        self.forks.truncate(depth);
        self.forks.push(forks)?;
        if depth > 0 {
            self.barriers.truncate(depth - 1);
            self.barriers.push(barriers)?;
        }
        self.segments = segments;
        self.place += 1;
        Ok(())
    }
}
