//! Which calls are to fail on the logs that a folder makes, by the paths of their tasks.
ghost use Rattle.std.specs.Prelude.{◌≡◌, ◌↔◌, [], ◌∷◌, ◌++◌, OnOk, OnErr, IfOk, IsTrue};
ghost use Rattle.memory_environment.specs.Plans.{plans_by, FailsAsPlanned};

use std::alloc::Global;
use std::cmp::Ordering;
use sw_base::{Memory, Path};

/// The numbers of the calls on the log of this task that are to fail.
#[derive(Drop)]
pub struct LogPlan {
    path: Path,
    calls: Vec<u64>,
}

/// Plans for logs, in the order in which they were made.
#[derive(Drop)]
pub struct Plans {
    plans: Vec<LogPlan>,
}

impl LogPlan {
    /// Whether the plan is for the log of this task.
    #[tactic(auto, using(crate::proofs::SamePath::path_cmp_decides))]
    fn is_for(&self, path: &Path) -> bool
        ensures { IsTrue result ↔ (self.now.path ≡ path.now) }
    {
        matches!(self.path.cmp(path), Ordering::Equal)
    }
}

impl Plans {
    /// No call is to fail.
    pub fn new(alloc: Global) -> Plans
        ensures { plans_by result ≡ [] }
    {
        Plans {
            plans: Vec::new(alloc),
        }
    }

    /// Adds a plan. Where there is no memory nothing changes.
    pub fn add(&mut self, path: &Path, calls: &[u64]) -> Result<(), Memory>
        ensures ok { OnOk result (plans_by self.new ≡ plans_by self.old ++ (path.now, calls.now) ∷ []) }
        ensures err { OnErr result (plans_by self.new ≡ plans_by self.old) }
    {
        let path = path.copy();
        let calls = calls.to_vec(*self.plans.allocator())?;
        self.plans.push(LogPlan { path, calls })?;
        Ok(())
    }

    /// The same plans.
    pub fn copy(&self, alloc: Global) -> Result<Plans, Memory>
        ensures { IfOk result (λ plans. plans_by plans ≡ plans_by self.now) }
    {
        let mut copied = Plans::new(alloc);
        for plan in &self.plans {
            copied.add(&plan.path, &plan.calls)?;
        }
        Ok(copied)
    }

    /// The numbers of the calls that are planned to fail on the log of this task.
    #[tactic(auto, using(crate::proofs::Planned::planned_none))]
    pub fn of(&self, alloc: Global, path: &Path) -> Result<Vec<u64>, Memory>
        ensures { IfOk result (λ calls. FailsAsPlanned (plans_by self.now) path.now calls.items) }
    {
        let mut calls = Vec::new(alloc);
        for plan in &self.plans {
            if plan.is_for(path) {
                calls.extend_from_slice(&plan.calls)?;
            }
        }
        Ok(calls)
    }
}
