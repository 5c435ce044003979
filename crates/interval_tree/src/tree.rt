ghost use Rattle.std.specs.Prelude.{◌≡◌, ℕ, ◌+◌, ◌*◌, ◌^◌, ◌<◌, ◌≤◌, ◌++◌, length, OnOk, OnErr, IfOk, map};
ghost use Rattle.std.specs.List.{flat_map};
ghost use Rattle.interval_tree.specs.Order.{IsInOrder, met};
ghost use Rattle.interval_tree.specs.Reaches.{AddsReaches, furthest};
ghost use Rattle.interval_tree.specs.Visits.{TakesEach, TakesUpTo};

use crate::search::search;
use crate::steps::Steps;
use crate::visit::Visit;
use std::alloc::Global;
use std::marker::Model;
use std::sync::ledger::Ledger;
use stride_summary::Run;
use sw_base::Memory;

/// Runs in order of their first byte.
#[derive(Drop)]
pub struct Tree<'r> {
    runs: Vec<&'r Run>,
    reaches: Vec<u64>,
}

impl<'r> Model for Tree<'r> {
    ghost use Rattle.std.specs.Prelude.{List, map};
    ghost use Rattle.stride_summary.specs.declared.run.Run.{Run};

    ghost Value = { List Run };

    ghost use Rattle.interval_tree.specs.Order.{IsTree};

    ghost view = { λ tree. map (λ run. run.now) tree.runs.items };

    ghost invariant = { λ tree. IsTree (map (λ run. run.now) tree.runs.items) tree.reaches.items };
}

// How many binary digits a number has.
fn levels_of(count: usize) -> u32
    ensures fits { count < 2 ^ result }
    ensures least { 2 ^ result ≤ 2 * count + 1 }
{
    usize::BITS - count.leading_zeros()
}

fn add_all<'r>(runs: &'r [Run], order: &mut Vec<&'r Run>) -> Result<(), Memory>
    ensures { OnOk result (map (λ r. r.now) order.new.items ≡ map (λ r. r.now) order.old.items ++ runs.now) }
{
    for run in runs {
        order.push(run)?;
    }
    Ok(())
}

fn push_reaches(levels: u32, runs: &[&Run], reaches: &mut Vec<u64>) -> Result<u64, Memory>
    requires { length runs.now < 2 ^ levels }
    ensures furthest { IfOk result (λ reach. reach ≡ furthest (map (λ r. r.now) runs.now)) }
    ensures pushed { OnOk result (AddsReaches reaches.old.items reaches.new.items (map (λ r. r.now) runs.now)) }
{
    let (left, rest) = runs.split_at(runs.len() / 2);
    let Some((run, right)) = rest.split_first() else {
        return Ok(0);
    };
    let left_reach = push_reaches(levels - 1, left, reaches)?;
    let right_reach = push_reaches(levels - 1, right, reaches)?;
    let reach = run.high().max(left_reach).max(right_reach);
    reaches.push(reach)?;
    Ok(reach)
}

impl<'r> Tree<'r> {
    /// The tree of the runs.
    pub fn build(alloc: Global, runs: &'r [Run]) -> Result<Tree<'r>, Memory>
        ensures { IfOk result (λ tree. IsInOrder runs.now tree) }
    {
        Tree::build_all(alloc, &[runs])
    }

    /// The tree of the runs of all parts.
    pub fn build_all(alloc: Global, parts: &[&'r [Run]]) -> Result<Tree<'r>, Memory>
        ensures { IfOk result (λ tree. IsInOrder (flat_map (λ part. part.now) parts.now) tree) }
    {
        let mut runs = Vec::new(alloc);
        for part in parts {
            add_all(part, &mut runs)?;
        }
        runs.sort_by_key(|run| run.low())?;
        let mut reaches = Vec::new(alloc);
        push_reaches(levels_of(runs.len()), &runs, &mut reaches)?;
        Ok(Tree { runs, reaches })
    }

    /// How many levels the tree has: as many as the number of its runs has binary digits. No search goes deeper.
    pub fn levels(&self) -> u32
        ensures fits { length self.now < 2 ^ result }
        ensures least { 2 ^ result ≤ 2 * length self.now + 1 }
    {
        levels_of(self.runs.len())
    }

    /// Hands over, in order, the runs that the bytes from `lo` to `hi` meet: those that begin by `hi` and end at `lo` or
    /// later. After a refusal no later run is handed over. A step is a node in whose subtree a run reaches `lo`.
    pub fn meet<V: Visit, L: Ledger>(
        &self,
        lo: u64,
        hi: u64,
        visit: &mut V,
        steps: &mut Steps<L>,
    ) -> Result<(), Memory>
        ensures taken { OnOk result (TakesEach V.took visit.old (met lo hi self.now) visit.new) }
        ensures refused { OnErr result (TakesUpTo V.took V.refused visit.old (met lo hi self.now) visit.new) }
        ensures cost { (digits : ℕ) → length self.now < 2 ^ digits → steps.new ≤ steps.old + (length (met lo hi self.now) + 1) * digits }
    {
        search(
            self.levels(),
            &self.runs,
            &self.reaches,
            lo,
            hi,
            visit,
            steps,
        )
    }
}
