//! The path of a task, from the root down: one step for each region that it lies in.
ghost use Rattle.std.specs.Prelude.{◌≡◌, ◌<◌, ◌≤◌, ◌↔◌, [], ◌∷◌, ◌++◌, length, string_bytes, IfOk, IsTrue};
ghost use Rattle.sw_base.specs.Names.{IsUnder, bare_log_name, log_name, path_cmp};

use crate::trouble::Memory;
use arrayvec::ArrayVec;
use std::alloc::Global;
use std::cmp::Ordering;
use std::marker::Model;

/// The most steps that a path has.
const DEPTH: usize = 4;

/// One step down: the number of a region among its task's regions, from 0, a lane of that region, from 0, and the
/// number of its lanes.
#[derive(Clone, Copy, Debug, Default, PartialEq, Eq, PartialOrd, Ord)]
pub struct Step {
    pub region: u32,
    pub lane: u16,
    pub span: u16,
}

/// Where a task stands: the steps from the root down, at most four. Contracts see the list of steps.
#[derive(Debug, Drop)]
pub struct Path {
    steps: ArrayVec<Step, DEPTH>,
}

impl Model for Path {
    ghost use Rattle.std.specs.Prelude.{◌≤◌, List, length};
    ghost use Rattle.sw_base.specs.declared.path.Step.{Step};

    ghost Value = { List Step };

    ghost view = { λ path. path.steps.items };

    ghost invariant = { λ path. length path.steps.items ≤ 4 };
}

impl Path {
    /// The path of the root.
    pub fn root() -> Path
        ensures { result ≡ [] }
    {
        Path {
            steps: ArrayVec::new(),
        }
    }

    /// The steps, from the root down.
    pub fn steps(&self) -> &[Step]
        ensures steps { result.now ≡ self.now }
        ensures depth { length self.now ≤ 4 }
    {
        self.steps.as_slice()
    }

    /// The same path.
    pub fn copy(&self) -> Path
        ensures same { result ≡ self.now }
        ensures depth { length self.now ≤ 4 }
    {
        let mut steps = ArrayVec::new();
        steps.try_extend_from_slice(self.steps.as_slice()).unwrap();
        Path { steps }
    }

    /// The path of a lane of one of this task's regions.
    pub fn child(&self, region: u32, lane: u16, span: u16) -> Path
        requires { length self.now < 4 }
        ensures { result ≡ self.now ++ record { region = region; lane = lane; span = span } ∷ [] }
    {
        let mut path = self.copy();
        path.steps.push(Step { region, lane, span });
        path
    }
}

impl Path {
    /// Whether `other` is a proper prefix of this path: this task lies in a region of that one, or further down.
    pub fn is_under(&self, other: &Path) -> bool
        ensures { IsTrue result ↔ IsUnder self.now other.now }
    {
        let steps = self.steps();
        let above = other.steps();
        above.len() < steps.len() && steps.starts_with(above)
    }

    /// The name of the task's log within its folder, as `t-0.1.swl`.
    #[tactic(auto, unfolding(crate::specs::Names::bare_log_name))]
    pub fn bare_name(&self, alloc: Global) -> Result<String, Memory>
        ensures { IfOk result (λ name. string_bytes name ≡ bare_log_name self.now) }
    {
        let mut name = String::from_str(alloc, "t")?;
        for step in self.steps() {
            let region = step.region;
            let lane = step.lane;
            write!(name, "-{region}.{lane}")?;
        }
        name.push_str(".swl")?;
        Ok(name)
    }

    /// The name of the task's log in the folder `dir`, as `d/t-0.1.swl`.
    #[tactic(auto, unfolding(crate::specs::Names::log_name))]
    pub fn name(&self, alloc: Global, dir: &str) -> Result<String, Memory>
        ensures { IfOk result (λ name. string_bytes name ≡ log_name dir.now self.now) }
    {
        let name = self.bare_name(alloc)?;
        Ok(format!(in alloc; "{dir}/{name}")?)
    }
}

impl PartialEq for Path {
    ghost use Rattle.std.specs.Cmp.{partial_equiv_from_equiv};
    ghost use Rattle.std.specs.Ordering.{eq_by_cmp};
    ghost use Rattle.sw_base.specs.Names.{path_cmp};
    ghost use Rattle.sw_base.specs.PathOrder.{path_eq_equivalence};

    ghost eq = { eq_by_cmp path_cmp };

    ghost laws = { partial_equiv_from_equiv path_eq_equivalence };

    fn eq(&self, other: &Path) -> bool {
        self.cmp(other) == Ordering::Equal
    }
}

impl Eq for Path {
    ghost use Rattle.sw_base.specs.PathOrder.{path_eq_equivalence};

    ghost laws = { path_eq_equivalence };
}

/// The order of rows and reports: a prefix first, else by region, lane and span at the first step that differs.
impl Ord for Path {
    ghost use Rattle.std.specs.Prelude.{refl};
    ghost use Rattle.sw_base.specs.Names.{path_cmp};
    ghost use Rattle.sw_base.specs.PathOrder.{path_cmp_total};

    ghost cmp = { path_cmp };

    ghost total = { path_cmp_total };

    ghost matches_partial_cmp = { λ _ _. refl };

    ghost matches_eq = { λ _ _. refl };

    fn cmp(&self, other: &Path) -> Ordering {
        self.steps().cmp(other.steps())
    }
}

impl PartialOrd for Path {
    ghost use Rattle.std.specs.Cmp.{partial_order_from_total};
    ghost use Rattle.std.specs.Ordering.{as_partial_cmp};
    ghost use Rattle.sw_base.specs.Names.{path_cmp};
    ghost use Rattle.sw_base.specs.PathOrder.{path_cmp_total};

    ghost partial_cmp = { as_partial_cmp path_cmp };

    ghost laws = { partial_order_from_total path_cmp_total };

    fn partial_cmp(&self, other: &Path) -> Option<Ordering> {
        Some(self.cmp(other))
    }
}
