ghost use Rattle.std.specs.Prelude.{◌^◌, ◌<◌, ◌≤◌, length, [], ◌∷◌, map, OnOk, OnErr};
ghost use Rattle.interval_tree.specs.Order.{IsTree, met};
ghost use Rattle.interval_tree.specs.Visits.{StepsWithin, TakesEach, TakesUpTo};

use crate::steps::Steps;
use crate::visit::Visit;
use std::sync::ledger::Ledger;
use stride_summary::Run;
use sw_base::Memory;

/// Hands over the runs that the bytes from `lo` to `hi` meet, going down at most so many levels. A step is a node in whose
/// subtree a run reaches `lo`.
pub fn search<V: Visit, L: Ledger>(
    levels: u32,
    runs: &[&Run],
    reaches: &[u64],
    lo: u64,
    hi: u64,
    visit: &mut V,
    steps: &mut Steps<L>,
) -> Result<(), Memory>
    requires tree { IsTree (map (λ r. r.now) runs.now) reaches.now }
    requires levels { length runs.now < 2 ^ levels }
    ensures taken { OnOk result (TakesEach V.took visit.old (met lo hi (map (λ r. r.now) runs.now)) visit.new) }
    ensures refused { OnErr result (TakesUpTo V.took V.refused visit.old (met lo hi (map (λ r. r.now) runs.now)) visit.new) }
    ensures steps { StepsWithin steps.old steps.new lo hi (map (λ r. r.now) runs.now) }
{
    let (left, rest) = runs.split_at(runs.len() / 2);
    let Some((run, right)) = rest.split_first() else {
        return Ok(());
    };
    let Some((reach, parts)) = reaches.split_last() else {
        return Ok(());
    };
    if *reach < lo {
        return Ok(());
    }
    steps.tick();
    let (left_reaches, right_reaches) = parts.split_at(left.len());
    search(levels - 1, left, left_reaches, lo, hi, visit, steps)?;
    if run.low() > hi {
        return Ok(());
    }
    offer(run, lo, hi, visit)?;
    search(levels - 1, right, right_reaches, lo, hi, visit, steps)
}

fn offer<V: Visit>(run: &Run, lo: u64, hi: u64, visit: &mut V) -> Result<(), Memory>
    requires { run.now.base ≤ hi }
    ensures taken { OnOk result (TakesEach V.took visit.old (met lo hi (run.now ∷ [])) visit.new) }
    ensures refused { OnErr result (TakesUpTo V.took V.refused visit.old (met lo hi (run.now ∷ [])) visit.new) }
{
    if run.high() < lo {
        return Ok(());
    }
    visit.take(run)
}
